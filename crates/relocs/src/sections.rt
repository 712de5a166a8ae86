//! Text sections, and what can be wrong with them.

ghost use Rattle.std.specs.Prelude.{◌≡◌, ◌<◌, ◌++◌, ◌∷◌, [], List, All, false, IfOk};
ghost use Rattle.std.specs.List.{list_any};
ghost use Rattle.elf_read.specs.declared.elf.Section.{Section as SectionData};
ghost use Rattle.relocs.specs.Sections.{is_text, text_sections, first_misaligned, is_outside, first_outside, covers, is_entry_outside};
ghost use Rattle.relocs.specs.Spans.{AreSpansOf};

use crate::holders::{Holders, is_held};
use elf_read::elf::{Elf, Section};
use finite::spans::Spans;
use oc_base::fault::NoMemory;
use std::alloc::Global;

fn is_text(s: &Section) -> bool
    ensures { result ≡ is_text s.now }
{
    s.kind == 1 && s.flags & 2 != 0 && s.flags & 4 != 0 && s.size > 0
}

/// The text sections, in the order of the file.
#[tactic(auto, unfolding(crate::specs::Sections::text_sections))]
pub fn text_sections(alloc: Global, elf: &Elf) -> Result<Vec<Section>, NoMemory>
    ensures { IfOk result (λ v. v.items ≡ text_sections elf.now) }
{
    let sections = elf.sections.as_slice();
    let mut texts = Vec::new(alloc);
    for s in sections {
        if is_text(s) {
            texts.push(*s)?;
        }
    }
    Ok(texts)
}

/// The address of the first text section that isn't made of whole words.
#[tactic(auto, unfolding(crate::specs::Sections::first_misaligned))]
pub fn first_misaligned(texts: &[Section]) -> Option<u64>
    ensures { result ≡ first_misaligned texts.now }
{
    texts
        .iter()
        .find(|s| s.at % 4 != 0 || s.size % 4 != 0)
        .map(|s| s.at)
}

/// Whether a text section is outside after others. One that isn't joins them.
#[tactic(auto, using(crate::proofs::OutsideLemmas::overlaps_meet))]
fn is_outside(spans: &mut Spans, holders: &Holders, s: &Section) -> Result<bool, NoMemory>
    requires { 0 < s.now.size }
    ensures { IfOk result (λ out. (earlier : List SectionData) → All (λ e. 0 < e.size) earlier → AreSpansOf earlier spans.old → (out ≡ is_outside holders.now.segments.now earlier s.now) × (out ≡ false → AreSpansOf (earlier ++ s.now ∷ []) spans.new)) }
{
    if !is_held(holders, s.at, s.size) {
        return Ok(true);
    }
    let last = s.at + (s.size - 1);
    if spans.meet(s.at, last) {
        return Ok(true);
    }
    spans.insert(s.at, last)?;
    Ok(false)
}

/// The address of the first text section that no segment's file part holds, or that shares an address with an earlier one.
pub fn first_outside(
    alloc: Global,
    holders: &Holders,
    texts: &[Section],
) -> Result<Option<u64>, NoMemory>
    requires { All (λ s. 0 < s.size) texts.now }
    ensures { IfOk result (λ at. at ≡ first_outside holders.now.segments.now texts.now) }
{
    let mut spans = Spans::new(alloc);
    for i in 0..texts.len() {
        let s = texts[i];
        if is_outside(&mut spans, holders, &s)? {
            return Ok(Some(s.at));
        }
    }
    Ok(None)
}

fn covers(s: &Section, at: u64) -> bool
    ensures { result ≡ covers at s.now }
{
    s.at <= at && at - s.at < s.size
}

fn covers_one(texts: &[Section], at: u64) -> bool
    ensures { result ≡ list_any (covers at) texts.now }
{
    texts.iter().any(|s| covers(s, at))
}

/// Whether the entry is no word of text.
pub fn is_entry_outside(texts: &[Section], entry: u64) -> bool
    ensures { result ≡ is_entry_outside texts.now entry }
{
    !(entry % 4 == 0 && covers_one(texts, entry))
}
