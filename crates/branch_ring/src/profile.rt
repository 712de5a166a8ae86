//! Profiles.

ghost use Rattle.std.specs.Prelude.{◌≡◌, ◌<◌, ◌^◌, [], length, map, slice_index_or, IfOk};
ghost use Rattle.branch_ring.specs.Profiles.{all_pairs, counted, pair_count, IsKept, IsProfile};

use crate::counted::Counted;
use crate::ring::Ring;
use crate::tally::tally;
use oc_base::fault::NoMemory;
use oc_base::items::Items;
use std::alloc::Global;
use std::marker::Model;

/// How often each transfer was made: the pairs ascend by where they come from and where they go, each stands once, no
/// count is 0, and all counts together stay below 2^62.
#[derive(Debug, Drop)]
pub struct Profile {
    counts: Items<(u64, u64, u64)>,
}

impl Model for Profile {
    ghost use Rattle.std.specs.Prelude.{List, map};
    ghost use Rattle.branch_ring.specs.declared.counted.Counted.{Counted as CountedData};
    ghost use Rattle.branch_ring.specs.Profiles.{counted, IsKept};

    ghost Value = { List CountedData };

    ghost view = { λ p. map counted p.counts };

    ghost invariant = { λ p. IsKept (map counted p.counts) };
}

impl Profile {
    /// The profile of no pair. It takes no memory.
    pub fn empty(alloc: Global) -> Profile
        ensures { result ≡ [] }
    {
        Profile {
            counts: Items::new(alloc),
        }
    }

    /// The profile with these rows. It takes no memory.
    pub fn of(counts: Vec<(u64, u64, u64)>) -> Profile
        requires { IsKept (map counted counts.items) }
        ensures { result ≡ map counted counts.items }
    {
        Profile {
            counts: Items::from_vec(counts),
        }
    }

    /// Where each pair comes from, where it goes, and how often it stands.
    pub fn counts(&self) -> &[(u64, u64, u64)]
        ensures { map counted result.now ≡ self.now }
    {
        self.counts.as_slice()
    }

    /// How many pairs there are.
    pub fn len(&self) -> usize
        ensures { result ≡ length self.now }
    {
        self.counts.len()
    }

    /// A pair that is there.
    pub fn at(&self, i: usize) -> Counted
        requires { i < length self.now }
        ensures { result ≡ slice_index_or self.now i result }
    {
        let (from, to, count) = self.counts.as_slice()[i];
        Counted { from, to, count }
    }

    /// What each profile keeps, for a caller's proof. It does nothing.
    pub fn kept(&self)
        ensures { IsKept self.now }
    {
        let _ = &self.counts;
    }

    /// An equal profile.
    pub fn copy(&self, alloc: Global) -> Result<Profile, NoMemory>
        ensures { IfOk result (λ p. p ≡ self.now) }
    {
        let counts = Items::from_slice(alloc, self.counts.as_slice())?;
        Ok(Profile { counts })
    }
}

/// Counts the pairs of all rings.
pub fn profile_of(alloc: Global, rings: &[Ring]) -> Result<Profile, NoMemory>
    requires { pair_count rings.now < 2 ^ 62 }
    ensures { IfOk result (λ p. IsProfile (all_pairs rings.now) p) }
{
    let counts = tally(alloc, rings)?;
    Ok(Profile {
        counts: Items::from_vec(counts),
    })
}
