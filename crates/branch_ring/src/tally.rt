//! Pairs are counted in a map by both addresses.

ghost use Rattle.std.specs.Prelude.{◌≡◌, ◌<◌, ◌+◌, ◌^◌, [], ◌∷◌, ℕ, length, map, None, unwrap_or, IfOk, OnOk};
ghost use Rattle.std.specs.BTreeMap.{IsOrdered};
ghost use Rattle.branch_ring.specs.Profiles.{all_pairs, counted, pair_count, times, IsProfile};
ghost use Rattle.branch_ring.specs.Tallies.{count_at, entry_of, pair_cmp, with_more};

use crate::ring::Ring;
use oc_base::fault::NoMemory;
use std::alloc::Global;
use std::collections::BTreeMap;

/// How often each pair was counted.
pub type Tally = BTreeMap<(u64, u64), u64>;

/// How often a pair was counted so far.
#[tactic(auto, using(crate::proofs::Tallied::at_pair))]
fn known(tally: &Tally, pair: (u64, u64)) -> u64
    ensures { result ≡ unwrap_or (count_at tally.now pair.0 pair.1) 0 }
{
    tally.get(&pair).copied().unwrap_or(0)
}

/// Counts a pair once more.
fn note(tally: &mut Tally, pair: (u64, u64)) -> Result<(), NoMemory>
    requires { unwrap_or (count_at tally.old pair.0 pair.1) 0 + 1 < 2 ^ 64 }
    ensures { OnOk result ((from to : ℕ) → count_at tally.new from to ≡ with_more (count_at tally.old from to) (times (pair ∷ []) from to)) }
{
    let count = known(tally, pair);
    tally.insert(pair, count + 1)?;
    Ok(())
}

/// Counts the pairs of a ring.
fn note_all(tally: &mut Tally, ring: &Ring) -> Result<(), NoMemory>
    requires { (from to : ℕ) → unwrap_or (count_at tally.old from to) 0 + length ring.now.pairs < 2 ^ 64 }
    ensures { OnOk result ((from to : ℕ) → count_at tally.new from to ≡ with_more (count_at tally.old from to) (times ring.now.pairs from to)) }
{
    for i in 0..ring.len() {
        note(tally, ring.at(i))?;
    }
    Ok(())
}

fn tally_of(alloc: Global, rings: &[Ring]) -> Result<Tally, NoMemory>
    requires { pair_count rings.now < 2 ^ 62 }
    ensures { IfOk result (λ m. (from to : ℕ) → count_at m from to ≡ with_more None (times (all_pairs rings.now) from to)) }
{
    let mut tally = BTreeMap::new(alloc);
    for ring in rings {
        note_all(&mut tally, ring)?;
    }
    Ok(tally)
}

/// The rows of the entries of a map.
pub fn listed(alloc: Global, tally: &Tally) -> Result<Vec<(u64, u64, u64)>, NoMemory>
    ensures entries { IfOk result (λ v. map entry_of v.items ≡ tally.now.entries) }
    ensures ordered { IsOrdered pair_cmp tally.now }
{
    let mut all = Vec::with_capacity(alloc, tally.len())?;
    for (pair, count) in tally {
        all.push((pair.0, pair.1, *count))?;
    }
    Ok(all)
}

/// The rows of the profile of the pairs of all rings.
pub fn tally(alloc: Global, rings: &[Ring]) -> Result<Vec<(u64, u64, u64)>, NoMemory>
    requires { pair_count rings.now < 2 ^ 62 }
    ensures { IfOk result (λ v. IsProfile (all_pairs rings.now) (map counted v.items)) }
{
    let counts = tally_of(alloc, rings)?;
    let all = listed(alloc, &counts)?;
    Ok(all)
}
