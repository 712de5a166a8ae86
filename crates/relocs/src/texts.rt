//! Text ranges, from the bytes of segments.

ghost use Rattle.std.specs.Prelude.{◌≡◌, ◌+◌, ◌*◌, ◌/◌, ◌%◌, ◌<◌, ◌≤◌, ◌-◌, length, map, All, IfOk};
ghost use Rattle.std.specs.List.Sorted.{IsNonDecreasingBy, IsPermutation};
ghost use Rattle.elf_read.specs.Fields.{u32_at};
ghost use Rattle.elf_read.specs.Tables.{table};
ghost use Rattle.image.specs.Texts.{text_start};
ghost use Rattle.relocs.specs.Built.{words_at, text_of};

use crate::holders::{Holders, holder};
use elf_read::elf::Section;
use elf_read::fields::u32_at;
use image::ranges::TextRange;
use oc_base::fault::NoMemory;
use oc_base::items::Items;
use std::alloc::Global;

/// Words from a place of a segment's bytes on.
#[tactic(auto, using(elf_read::proofs::Loops::table_more, elf_read::proofs::Loops::table_none))]
fn read_words(
    alloc: Global,
    bytes: &[u8],
    from: usize,
    count: usize,
) -> Result<Items<u32>, NoMemory>
    requires { from + 4 * count ≤ length bytes.now }
    ensures { IfOk result (λ v. v ≡ table 4 u32_at bytes.now from count) }
{
    let mut words = Vec::with_capacity(alloc, count)?;
    for i in 0..count {
        words.push(u32_at(bytes, from + 4 * i))?;
    }
    Ok(Items::from_vec(words))
}

/// The words of a range of addresses.
#[tactic(auto, unfolding(crate::specs::Built::words_at))]
fn words_at(alloc: Global, holders: &Holders, at: u64, size: u64) -> Result<Items<u32>, NoMemory>
    requires { 0 < size }
    ensures { IfOk result (λ v. v ≡ words_at holders.now.segments.now at size) }
{
    let Some(g) = holder(holders, at, size) else {
        return Ok(Items::new(alloc));
    };
    let from = (at - g.at) as usize;
    let words = read_words(alloc, g.bytes.as_slice(), from, (size / 4) as usize)?;
    Ok(words)
}

#[tactic(auto, unfolding(crate::specs::Built::text_of))]
fn text_of(alloc: Global, holders: &Holders, s: &Section) -> Result<TextRange, NoMemory>
    requires { 0 < s.now.size }
    ensures { IfOk result (λ t. t ≡ text_of holders.now.segments.now s.now) }
{
    Ok(TextRange {
        from: s.at,
        words: words_at(alloc, holders, s.at, s.size)?,
    })
}

/// The text ranges of text sections, in the order of the file.
pub fn texts_of(
    alloc: Global,
    holders: &Holders,
    sections: &[Section],
) -> Result<Vec<TextRange>, NoMemory>
    requires { All (λ s. 0 < s.size) sections.now }
    ensures { IfOk result (λ v. v.items ≡ map (text_of holders.now.segments.now) sections.now) }
{
    let mut texts = Vec::with_capacity(alloc, sections.len())?;
    for s in sections {
        texts.push(text_of(alloc, holders, s)?)?;
    }
    Ok(texts)
}

/// Puts text ranges in the order of their addresses.
pub fn sort_texts(texts: &mut Vec<TextRange>)
    ensures sorted { IsNonDecreasingBy text_start texts.new.items }
    ensures same { IsPermutation texts.old.items texts.new.items }
{
    texts.sort_unstable_by_key(|t| t.from);
}
