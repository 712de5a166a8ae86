//! Whether one of many ranges holds a range, by a search.

ghost use Rattle.std.specs.Prelude.{◌≡◌, ◌≤◌, ◌<◌, ◌+◌, ℕ, length, slice_index, IfOk};
ghost use Rattle.std.specs.List.{AllWithin};
ghost use Rattle.std.specs.List.Sorted.{IsNonDecreasingBy, IsPermutation};
ghost use Rattle.relocs.specs.Cover.{start_of, is_held, greatest_end};

use oc_base::fault::NoMemory;
use std::alloc::Global;

/// Puts ranges in the order of their starts.
pub fn sort_by_start(ranges: &mut Vec<(u64, u64)>)
    ensures sorted { IsNonDecreasingBy start_of ranges.new.items }
    ensures same { IsPermutation ranges.old.items ranges.new.items }
{
    ranges.sort_unstable_by_key(|r| r.0);
}

/// The greatest end so far, at each range.
#[tactic(auto, using(crate::proofs::CoverLemmas::greatest_end_more, crate::proofs::CoverLemmas::greatest_end_none))]
pub fn tops(alloc: Global, ranges: &[(u64, u64)]) -> Result<Vec<u64>, NoMemory>
    ensures len { IfOk result (λ v. length v.items ≡ length ranges.now) }
    ensures tops { IfOk result (λ v. (k : ℕ) → k < length ranges.now → slice_index v.items k ≡ greatest_end ranges.now (k + 1)) }
{
    let mut tops = Vec::with_capacity(alloc, ranges.len())?;
    let mut top = 0;
    for r in ranges {
        top = top.max(r.1);
        tops.push(top)?;
    }
    Ok(tops)
}

/// How many ranges start at an address or before it.
fn starts_up_to(ranges: &[(u64, u64)], from: u64) -> usize
    requires { IsNonDecreasingBy start_of ranges.now }
    ensures within { result ≤ length ranges.now }
    ensures before { AllWithin (λ r. r.0 ≤ from) ranges.now 0 result }
    ensures past { AllWithin (λ r. from < r.0) ranges.now result (length ranges.now) }
{
    ranges.partition_point(|r| r.0 <= from)
}

/// Whether one range holds all of it.
pub fn is_held(ranges: &[(u64, u64)], tops: &[u64], from: u64, to: u64) -> bool
    requires sorted { IsNonDecreasingBy start_of ranges.now }
    requires len { length tops.now ≡ length ranges.now }
    requires tops { (k : ℕ) → k < length ranges.now → slice_index tops.now k ≡ greatest_end ranges.now (k + 1) }
    requires some { 0 < to }
    ensures { result ≡ is_held ranges.now from to }
{
    let n = starts_up_to(ranges, from);
    if n == 0 {
        return false;
    }
    to <= tops[n - 1]
}
