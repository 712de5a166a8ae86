//! Why a function has no blocks.

ghost use Rattle.std.specs.Prelude.{◌≡◌};
ghost use Rattle.blocks.specs.declared.fault.Unreadable.TheVariants.{NoMemory};

use oc_base::fault::NoMemory as OutOfMemory;
use thiserror::Error;

/// Why a function can't be moved.
#[derive(Clone, Copy, Debug, PartialEq, Eq, Error)]
pub enum Unreadable {
    /// The word at this address reads as no instruction.
    #[error("the word at {0:#x} reads as no instruction")]
    Undecodable(u64),
    /// The branch at this address goes out of the function.
    #[error("the branch at {0:#x} goes out of the function")]
    BranchOut(u64),
    /// The branch or JAL at this address goes to an address that is no multiple of 4.
    #[error("the jump at {0:#x} goes to no multiple of 4")]
    Misaimed(u64),
    /// Another function, the least such by number, has an address of this one.
    #[error("function {0} has an address of this one")]
    Overlap(u32),
    #[error("out of memory")]
    NoMemory,
}

impl From<OutOfMemory> for Unreadable {
    ghost from_gives = { λ _ e. e ≡ NoMemory };

    fn from(_e: OutOfMemory) -> Unreadable {
        Unreadable::NoMemory
    }
}
