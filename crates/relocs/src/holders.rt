//! The segment that holds a range of addresses, by a search.

ghost use Rattle.std.specs.Prelude.{◌≡◌, ℕ, ◌+◌, ◌<◌, ◌≤◌, length, find, All, AllPairs, false, IfOk, IfSome};
ghost use Rattle.std.specs.Bool.{OnTrue};
ghost use Rattle.std.specs.List.{list_any};
ghost use Rattle.std.specs.Option.{option_copied};
ghost use Rattle.elf_read.specs.Whole.{IsSegment, AreApart};
ghost use Rattle.relocs.specs.Holders.{IsIndex, share, if_passes};
ghost use Rattle.relocs.specs.Sections.{has_bytes};

use elf_read::elf::Segment;
use oc_base::fault::NoMemory;
use std::alloc::Global;
use std::collections::BTreeMap;

/// Segments that lie apart, with their places by their last addresses.
#[derive(Drop)]
pub struct Holders<'a> {
    pub segments: &'a [Segment],
    places: BTreeMap<u64, usize>,
    ghost each: { All IsSegment segments.now },
    ghost apart: { AllPairs (λ g h. share g h ≡ false) segments.now },
    ghost index: { IsIndex segments.now (length segments.now) places },
}

#[tactic(auto, using(crate::proofs::HolderLemmas::index_none))]
fn places(alloc: Global, segments: &[Segment]) -> Result<BTreeMap<u64, usize>, NoMemory>
    requires each { All IsSegment segments.now }
    requires apart { AllPairs AreApart segments.now }
    ensures { IfOk result (IsIndex segments.now (length segments.now)) }
{
    let mut places = BTreeMap::new(alloc);
    for i in 0..segments.len() {
        let g = &segments[i];
        places.insert(g.at + (g.memsize - 1), i)?;
    }
    Ok(places)
}

/// The index of segments.
pub fn index_of(alloc: Global, segments: &[Segment]) -> Result<Holders<'_>, NoMemory>
    requires each { All IsSegment segments.now }
    requires apart { AllPairs AreApart segments.now }
    ensures { IfOk result (λ h. h.segments.now ≡ segments.now) }
{
    let places = places(alloc, segments)?;
    Ok(Holders { segments, places })
}

/// Whether the file has all bytes of a range of addresses in a segment.
fn has_bytes(g: &Segment, from: u64, size: u64) -> bool
    ensures { result ≡ has_bytes from (from + size) g.now }
{
    let to = from as u128 + size as u128;
    g.at <= from && to <= g.at as u128 + g.bytes.len() as u128
}

/// The segment with the least last address at a number or past it.
fn reaching<'a>(holders: &Holders<'a>, from: u64) -> Option<&'a Segment>
    ensures { (to : ℕ) → from < to → find (has_bytes from to) holders.now.segments.now ≡ if_passes (has_bytes from to) (option_copied result) }
{
    let Some((_, i)) = holders.places.range(from..).next() else {
        return None;
    };
    holders.segments.get(*i)
}

/// The first segment of which the file has all bytes of a range of addresses.
pub fn holder<'a>(holders: &Holders<'a>, from: u64, size: u64) -> Option<&'a Segment>
    requires { 0 < size }
    ensures first { option_copied result ≡ find (has_bytes from (from + size)) holders.now.segments.now }
    ensures from { IfSome result (λ g. g.now.at ≤ from) }
    ensures to { IfSome result (λ g. from + size ≤ g.now.at + length g.now.bytes) }
{
    let g = reaching(holders, from)?;
    if !has_bytes(g, from, size) {
        return None;
    }
    Some(g)
}

/// Whether the file has all bytes of a range of addresses in one segment.
pub fn is_held(holders: &Holders, from: u64, size: u64) -> bool
    requires { 0 < size }
    ensures held { result ≡ list_any (has_bytes from (from + size)) holders.now.segments.now }
    ensures low { OnTrue result (from + size ≤ 0x08000000) }
{
    holder(holders, from, size).is_some()
}
