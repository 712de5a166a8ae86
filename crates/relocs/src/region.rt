//! The region, and what can be wrong with it.

ghost use Rattle.std.specs.Prelude.{◌≡◌, ◌+◌, ◌≤◌, ◌<◌, ◌-◌, ◌++◌, ◌∷◌, [], ◌&&◌, nat_le, nat_lt, All, map, find, OnOk, IfOk, IfSome, if◌then◌else◌, Some, None};
ghost use Rattle.std.specs.List.{list_any, range_with_len};
ghost use Rattle.oc_base.specs.declared.range.Range.{Range as RangeData};
ghost use Rattle.finite.specs.Least.{IsLeastOf};
ghost use Rattle.elf_read.specs.Whole.{IsSegment};
ghost use Rattle.image.specs.Texts.{text_words};
ghost use Rattle.image.specs.Picture.{IsText};
ghost use Rattle.relocs.specs.Sections.{section_end};
ghost use Rattle.relocs.specs.Regions.{highest_end, default_region, is_between, in_segment, follows, is_taken, first_taken, is_aimed, least_aimed, least_of, lesser, Shares, segment_range, after_section, taken_ranges};

use crate::jumps::direct_target;
use elf_read::elf::{Section, Segment};
use elf_read::{LOAD_END, LOAD_START};
use image::ranges::TextRange;
use oc_base::fault::NoMemory;
use oc_base::range::Range;
use std::alloc::Global;

const PAGE: u64 = 4096;

/// The size of a region that isn't given.
const DEFAULT_SIZE: u64 = 524_288;

/// The highest end of a segment.
#[tactic(auto, unfolding(crate::specs::Regions::highest_end), using(crate::proofs::Regional::highest_more))]
fn highest_end(segments: &[Segment]) -> u64
    requires { All IsSegment segments.now }
    ensures is { result ≡ highest_end segments.now }
    ensures low { result ≤ 0x08000000 }
{
    let mut highest = 0;
    for g in segments {
        highest = highest.max(g.at + g.memsize);
    }
    highest
}

/// The region that isn't given: it begins a page past the highest end, which is rounded up to a page first.
#[tactic(auto, unfolding(crate::specs::Regions::default_region))]
pub fn default_region(segments: &[Segment]) -> Range
    requires { All IsSegment segments.now }
    ensures { result ≡ default_region segments.now }
{
    let from = highest_end(segments).div_ceil(PAGE) * PAGE + PAGE;
    Range {
        from,
        to: from + DEFAULT_SIZE,
    }
}

fn lesser(a: Option<u64>, b: Option<u64>) -> Option<u64>
    ensures { result ≡ lesser a b }
{
    match (a, b) {
        (None, b) => b,
        (a, None) => a,
        (Some(a), Some(b)) => Some(a.min(b)),
    }
}

/// The least address that a range and a region share.
fn shared(range: Range, region: Range) -> Option<u64>
    ensures { IsLeastOf (λ a. (region.from ≤ a) × (a < region.to) × (range.from ≤ a) × (a < range.to)) result }
{
    let first = range.from.max(region.from);
    if first < region.to && first < range.to {
        Some(first)
    } else {
        None
    }
}

/// The least address of a region in one of the ranges.
fn least_shared(ranges: &[Range], region: Range) -> Option<u64>
    ensures { IsLeastOf (Shares ranges.now region) result }
{
    let mut least = None;
    for r in ranges {
        least = lesser(least, shared(*r, region));
    }
    least
}

fn push_segments(ranges: &mut Vec<Range>, segments: &[Segment]) -> Result<(), NoMemory>
    requires { All IsSegment segments.now }
    ensures { OnOk result (ranges.new.items ≡ ranges.old.items ++ map segment_range segments.now) }
{
    for g in segments {
        ranges.push(Range {
            from: g.at,
            to: g.at + g.memsize,
        })?;
    }
    Ok(())
}

fn push_ends(ranges: &mut Vec<Range>, texts: &[Section]) -> Result<(), NoMemory>
    requires { All (λ s. section_end s ≤ 0x08000000) texts.now }
    ensures { OnOk result (ranges.new.items ≡ ranges.old.items ++ map after_section texts.now) }
{
    for s in texts {
        ranges.push(Range {
            from: s.at + s.size,
            to: s.at + s.size + 4,
        })?;
    }
    Ok(())
}

/// The ranges of taken addresses.
#[tactic(auto, unfolding(crate::specs::Regions::taken_ranges))]
fn taken_ranges(
    alloc: Global,
    segments: &[Segment],
    texts: &[Section],
) -> Result<Vec<Range>, NoMemory>
    requires segments { All IsSegment segments.now }
    requires texts { All (λ s. section_end s ≤ 0x08000000) texts.now }
    ensures { IfOk result (λ v. v.items ≡ taken_ranges segments.now texts.now) }
{
    let mut ranges = Vec::new(alloc);
    push_segments(&mut ranges, segments)?;
    push_ends(&mut ranges, texts)?;
    ranges.push(Range {
        from: 0,
        to: LOAD_START,
    })?;
    ranges.push(Range {
        from: LOAD_END,
        to: u64::MAX,
    })?;
    Ok(ranges)
}

/// The least address of the region that is taken.
#[tactic(auto, using(crate::proofs::Regional::first_by_ranges))]
pub fn first_taken(
    alloc: Global,
    segments: &[Segment],
    texts: &[Section],
    region: Range,
) -> Result<Option<u64>, NoMemory>
    requires segments { All IsSegment segments.now }
    requires texts { All (λ s. section_end s ≤ 0x08000000) texts.now }
    requires ordered { region.from ≤ region.to }
    ensures { IfOk result (λ a. a ≡ first_taken segments.now texts.now region) }
{
    let ranges = taken_ranges(alloc, segments, texts)?;
    let least = least_shared(&ranges, region);
    Ok(least)
}

fn aimed_at(region: Range, word: u32, at: u64) -> Option<u64>
    ensures { result ≡ (if is_aimed region (at, word) then Some at else None) }
{
    match direct_target(word, at) {
        Some(target) if region.from <= target && target < region.to => Some(at),
        _ => None,
    }
}

/// The least address of a word of one text range that goes into the region.
#[tactic(auto, using(crate::proofs::Regional::least_more, crate::proofs::Regional::lesser_assoc, crate::proofs::Regional::least_end))]
fn least_in(region: Range, t: &TextRange) -> Option<u64>
    requires { IsText t.now }
    ensures { result ≡ least_of region (text_words t.now) }
{
    let words = t.words.as_slice();
    let start = t.from;
    let mut least = None;
    for i in 0..words.len() {
        least = lesser(least, aimed_at(region, words[i], start + 4 * i as u64));
    }
    least
}

/// The least address of a JAL or branch of text that goes into the region.
#[tactic(auto, unfolding(crate::specs::Regions::least_aimed), using(crate::proofs::Regional::least_texts, crate::proofs::Regional::least_none))]
pub fn least_aimed(texts: &[TextRange], region: Range) -> Option<u64>
    requires { All IsText texts.now }
    ensures { result ≡ least_aimed texts.now region }
{
    let mut least = None;
    for t in texts {
        least = lesser(least, least_in(region, t));
    }
    least
}
