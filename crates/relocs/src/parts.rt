//! Data parts: segments without their text ranges.

ghost use Rattle.std.specs.Prelude.{◌≡◌, ◌≤◌, ◌<◌, ◌-◌, ◌++◌, ◌∷◌, ◌⊎◌, ℕ, List, All, AllPairs, map, take, drop, length, IfOk, OnOk};
ghost use Rattle.std.specs.List.{flat_map};
ghost use Rattle.std.specs.List.Sorted.{IsNonDecreasingBy, IsPermutation};
ghost use Rattle.elf_read.specs.Whole.{IsSegment, AreApart, segment_end};
ghost use Rattle.image.specs.declared.ranges.TextRange.{TextRange as TextData};
ghost use Rattle.image.specs.Texts.{text_end};
ghost use Rattle.image.specs.Aims.{part_start};
ghost use Rattle.image.specs.Picture.{IsText, IsPart, LiesApart};
ghost use Rattle.relocs.specs.Built.{piece, gaps, part_of, parts_in};

use elf_read::elf::Segment;
use finite::search::keys_below;
use image::ranges::{Part, TextRange};
use oc_base::fault::NoMemory;
use oc_base::items::Items;
use oc_base::range::Range;
use std::alloc::Global;

/// What a segment's file part has of a range that starts in the segment.
fn bytes_in(g: &Segment, from: u64, to: u64) -> &[u8]
    requires from { g.now.at ≤ from }
    requires ordered { from ≤ to }
    ensures { result.now ≡ take (to - from) (drop (from - g.now.at) g.now.bytes) }
{
    let bytes = g.bytes.as_slice();
    let start = ((from - g.at) as usize).min(bytes.len());
    let rest = &bytes[start..];
    let size = ((to - from) as usize).min(rest.len());
    &rest[..size]
}

#[tactic(auto, unfolding(crate::specs::Built::part_of))]
fn part_of(alloc: Global, g: &Segment, from: u64, to: u64) -> Result<Part, NoMemory>
    requires from { g.now.at ≤ from }
    requires ordered { from ≤ to }
    ensures { IfOk result (λ p. p ≡ part_of g.now (from, to)) }
{
    Ok(Part {
        range: Range { from, to },
        read: g.flags & 4 != 0,
        write: g.flags & 2 != 0,
        bytes: Items::from_slice(alloc, bytes_in(g, from, to))?,
    })
}

fn push_piece(
    alloc: Global,
    out: &mut Vec<Part>,
    g: &Segment,
    from: u64,
    to: u64,
) -> Result<(), NoMemory>
    requires { g.now.at ≤ from }
    ensures { OnOk result (out.new.items ≡ out.old.items ++ map (part_of g.now) (piece from to)) }
{
    if from < to {
        out.push(part_of(alloc, g, from, to)?)?;
    }
    Ok(())
}

/// Adds the piece before a text range, and answers where the next begins.
#[tactic(auto, using(crate::proofs::GapLemmas::passed_in, crate::proofs::GapLemmas::passed_early, crate::proofs::GapLemmas::passed_late))]
fn pass(
    alloc: Global,
    out: &mut Vec<Part>,
    g: &Segment,
    from: u64,
    to: u64,
    t: &TextRange,
) -> Result<u64, NoMemory>
    requires from { g.now.at ≤ from }
    requires text { IsText t.now }
    ensures parts { IfOk result (λ next. (ts : List TextData) → out.new.items ++ map (part_of g.now) (gaps next to ts) ≡ out.old.items ++ map (part_of g.now) (gaps from to (t.now ∷ ts))) }
    ensures next { IfOk result (λ next. from ≤ next) }
{
    let end = t.from + 4 * t.words.len() as u64;
    if from > t.from {
        return Ok(from);
    }
    if end > to {
        return Ok(from);
    }
    push_piece(alloc, out, g, from, t.from)?;
    Ok(end)
}

fn push_gaps(
    alloc: Global,
    out: &mut Vec<Part>,
    g: &Segment,
    to: u64,
    texts: &[TextRange],
) -> Result<(), NoMemory>
    requires { All IsText texts.now }
    ensures { OnOk result (out.new.items ≡ out.old.items ++ map (part_of g.now) (gaps g.now.at to texts.now)) }
{
    let mut at = g.at;
    for t in texts {
        at = pass(alloc, out, g, at, to, t)?;
    }
    push_piece(alloc, out, g, at, to)
}

/// The text ranges that start at an address or past it.
fn from_on(texts: &[TextRange], at: u64) -> &[TextRange]
    requires fit { All IsText texts.now }
    requires rise { AllPairs (λ s t. text_end s ≤ t.from) texts.now }
    ensures fit { All IsText result.now }
    ensures rise { AllPairs (λ s t. text_end s ≤ t.from) result.now }
    ensures gaps { (to : ℕ) → gaps at to result.now ≡ gaps at to texts.now }
{
    let n = keys_below(texts, at);
    &texts[n..]
}

/// The text ranges that start before an address.
fn before(texts: &[TextRange], to: u64) -> &[TextRange]
    requires fit { All IsText texts.now }
    requires rise { AllPairs (λ s t. text_end s ≤ t.from) texts.now }
    ensures fit { All IsText result.now }
    ensures gaps { (a : ℕ) → gaps a to result.now ≡ gaps a to texts.now }
{
    let n = keys_below(texts, to);
    &texts[..n]
}

/// Adds the parts of one segment.
#[tactic(auto, unfolding(crate::specs::Built::parts_in))]
fn push_parts(
    alloc: Global,
    out: &mut Vec<Part>,
    g: &Segment,
    texts: &[TextRange],
) -> Result<(), NoMemory>
    requires segment { IsSegment g.now }
    requires fit { All IsText texts.now }
    requires rise { AllPairs (λ s t. text_end s ≤ t.from) texts.now }
    ensures { OnOk result (out.new.items ≡ out.old.items ++ parts_in texts.now g.now) }
{
    let later = from_on(texts, g.at);
    let near = before(later, g.at + g.memsize);
    push_gaps(alloc, out, g, g.at + g.memsize, near)
}

/// The parts of segments, in the order of the file.
pub fn parts_of(
    alloc: Global,
    segments: &[Segment],
    texts: &[TextRange],
) -> Result<Vec<Part>, NoMemory>
    requires segments { All IsSegment segments.now }
    requires fit { All IsText texts.now }
    requires rise { AllPairs (λ s t. text_end s ≤ t.from) texts.now }
    ensures { IfOk result (λ v. v.items ≡ flat_map (parts_in texts.now) segments.now) }
{
    let mut all = Vec::new(alloc);
    for g in segments {
        push_parts(alloc, &mut all, g, texts)?;
    }
    Ok(all)
}

/// Puts parts in the order of their addresses.
pub fn sort_parts(parts: &mut Vec<Part>)
    ensures sorted { IsNonDecreasingBy part_start parts.new.items }
    ensures same { IsPermutation parts.old.items parts.new.items }
{
    parts.sort_unstable_by_key(|p| p.range.from);
}

/// The data parts in the order of their addresses.
pub fn sorted_parts(
    alloc: Global,
    segments: &[Segment],
    texts: &[TextRange],
) -> Result<Vec<Part>, NoMemory>
    requires segments { All IsSegment segments.now }
    requires segments_apart { AllPairs AreApart segments.now }
    requires fit { All IsText texts.now }
    requires rise { AllPairs (λ s t. text_end s ≤ t.from) texts.now }
    requires cuts { All (λ g. All (λ t. (text_end t ≤ g.at) ⊎ ((segment_end g ≤ t.from) ⊎ ((g.at ≤ t.from) × (text_end t ≤ segment_end g)))) texts.now) segments.now }
    ensures same { IfOk result (λ v. IsPermutation (flat_map (parts_in texts.now) segments.now) v.items) }
    ensures fit { IfOk result (λ v. All IsPart v.items) }
    ensures rise { IfOk result (λ v. AllPairs (λ s t. s.range.to ≤ t.range.from) v.items) }
    ensures apart { IfOk result (λ v. All (λ p. All (LiesApart p) texts.now) v.items) }
{
    let mut parts = parts_of(alloc, segments, texts)?;
    sort_parts(&mut parts);
    Ok(parts)
}
