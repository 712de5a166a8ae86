//! How often a profile goes from a group.

ghost use Rattle.std.specs.Prelude.{◌≡◌, ◌||◌, ◌<◌, ◌≤◌, All, Contains, length, slice_get, IfOk, OnOk};
ghost use Rattle.std.specs.List.{sum_by};
ghost use Rattle.branch_ring.specs.declared.counted.Counted.{Counted as CountedData};
ghost use Rattle.branch_ring.specs.Profiles.{IsKept};
ghost use Rattle.place_funcs.specs.Edges.{count, is_in};
ghost use Rattle.place_funcs.specs.Counts.{counted_in, has_pair, is_same};

use crate::rows::leaving;
use branch_ring::counted::Counted;
use image::ranges::Func;
use oc_base::fault::NoMemory;
use std::alloc::Global;
use std::collections::BTreeSet;

/// Pairs, each counted once, and the sum of their counts.
#[derive(Drop)]
struct Tally {
    seen: BTreeSet<(u64, u64)>,
    sum: u64,
}

/// Counts a pair, if it wasn't counted before.
fn count_once(tally: &mut Tally, profile: &[Counted], row: Counted) -> Result<(), NoMemory>
    requires kept { IsKept profile.now }
    requires there { Contains profile.now row }
    requires sum { tally.old.sum ≡ sum_by (counted_in tally.old.seen) profile.now }
    ensures sum { OnOk result (tally.new.sum ≡ sum_by (counted_in tally.new.seen) profile.now) }
    ensures seen { OnOk result ((c : CountedData) → has_pair tally.new.seen c ≡ (has_pair tally.old.seen c || is_same row c)) }
{
    if tally.seen.insert((row.from, row.to))? {
        tally.sum += row.count;
    }
    Ok(())
}

/// Counts the pairs that go from a function.
fn add_leaving(
    tally: &mut Tally,
    funcs: &[Func],
    profile: &[Counted],
    f: u32,
) -> Result<(), NoMemory>
    requires ordered { All (λ g. g.from ≤ g.to) funcs.now }
    requires kept { IsKept profile.now }
    requires there { f < length funcs.now }
    requires sum { tally.old.sum ≡ sum_by (counted_in tally.old.seen) profile.now }
    ensures sum { OnOk result (tally.new.sum ≡ sum_by (counted_in tally.new.seen) profile.now) }
    ensures seen { OnOk result ((c : CountedData) → Contains profile.now c → has_pair tally.new.seen c ≡ (has_pair tally.old.seen c || is_in c.from (slice_get funcs.now f))) }
{
    for row in leaving(funcs, profile, f) {
        count_once(tally, profile, *row)?;
    }
    Ok(())
}

/// How often the profile goes from one of some functions.
pub fn count_of(
    alloc: Global,
    funcs: &[Func],
    profile: &[Counted],
    group: &[u32],
) -> Result<u64, NoMemory>
    requires ordered { All (λ g. g.from ≤ g.to) funcs.now }
    requires kept { IsKept profile.now }
    requires there { All (λ f. f < length funcs.now) group.now }
    ensures { IfOk result (λ n. n ≡ count funcs.now profile.now group.now) }
{
    let mut tally = Tally {
        seen: BTreeSet::new(alloc),
        sum: 0,
    };
    for f in group {
        add_leaving(&mut tally, funcs, profile, *f)?;
    }
    Ok(tally.sum)
}
