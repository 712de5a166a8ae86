//! Why an executable has no image.

ghost use Rattle.std.specs.Prelude.{◌≡◌};
ghost use Rattle.relocs.specs.declared.fault.ImageFault.TheVariants.{NoMemory};

use oc_base::fault::NoMemory as OutOfMemory;
use thiserror::Error;

/// What is wrong with an executable and a region: the first of these that applies, with its address.
#[derive(Clone, Copy, Debug, PartialEq, Eq, Error)]
pub enum ImageFault {
    /// A text section that isn't made of whole words.
    #[error("text at {0} is misaligned")]
    TextMisaligned(u64),
    /// A text section that no segment's file part holds, or that shares an address with an earlier one.
    #[error("text at {0} lies outside")]
    TextOutside(u64),
    /// The entry is no word of text.
    #[error("the entry {0} lies outside")]
    EntryOutside(u64),
    /// The least address of the region that is taken.
    #[error("the region overlaps at {0}")]
    RegionOverlap(u64),
    /// The least address of a jump or branch into the region.
    #[error("the region is aimed at from {0}")]
    RegionAimed(u64),
    #[error("out of memory")]
    NoMemory,
}

impl From<OutOfMemory> for ImageFault {
    ghost from_gives = { λ _ e. e ≡ NoMemory };

    fn from(_e: OutOfMemory) -> ImageFault {
        ImageFault::NoMemory
    }
}
