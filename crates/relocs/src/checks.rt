//! The faults of an executable and a region, in their order.

ghost use Rattle.std.specs.Prelude.{◌≡◌, ◌≢◌, ◌≤◌, IfOk, IfErr, OnOk, Some, None};
ghost use Rattle.relocs.specs.declared.fault.ImageFault.TheVariants.{NoMemory};
ghost use Rattle.elf_read.specs.Whole.{IsWhole};
ghost use Rattle.relocs.specs.Built.{texts_of, fault_of, IsFaultless};

use crate::fault::ImageFault;
use crate::holders::index_of;
use crate::region::{first_taken, least_aimed};
use crate::sections::{first_misaligned, first_outside, is_entry_outside, text_sections};
use crate::texts::texts_of;
use elf_read::elf::Elf;
use image::ranges::TextRange;
use oc_base::range::Range;
use std::alloc::Global;

/// The text ranges in the order of the file, or the first fault.
#[tactic(auto, unfolding(crate::specs::Built::fault_of, crate::specs::Built::texts_of))]
pub fn checked_texts(alloc: Global, elf: &Elf, region: Range) -> Result<Vec<TextRange>, ImageFault>
    requires whole { IsWhole elf.now }
    requires ordered { region.from ≤ region.to }
    ensures none { OnOk result (fault_of elf.now region ≡ None) }
    ensures faultless { OnOk result (IsFaultless elf.now region) }
    ensures texts { IfOk result (λ v. v.items ≡ texts_of elf.now) }
    ensures fault { IfErr result (λ e. e ≢ NoMemory → fault_of elf.now region ≡ Some e) }
{
    let sections = text_sections(alloc, elf)?;
    let sections = sections.as_slice();
    let segments = elf.segments.as_slice();
    if let Some(at) = first_misaligned(sections) {
        return Err(ImageFault::TextMisaligned(at));
    }
    let holders = index_of(alloc, segments)?;
    if let Some(at) = first_outside(alloc, &holders, sections)? {
        return Err(ImageFault::TextOutside(at));
    }
    if is_entry_outside(sections, elf.entry) {
        return Err(ImageFault::EntryOutside(elf.entry));
    }
    if let Some(at) = first_taken(alloc, segments, sections, region)? {
        return Err(ImageFault::RegionOverlap(at));
    }
    let texts = texts_of(alloc, &holders, sections)?;
    if let Some(at) = least_aimed(texts.as_slice(), region) {
        return Err(ImageFault::RegionAimed(at));
    }
    Ok(texts)
}
