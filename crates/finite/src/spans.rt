//! Ranges that lie apart, and whether another meets one of them.

ghost use Rattle.std.specs.Prelude.{◌≡◌, ℕ, ◌≤◌, ◌||◌, Bool, false, List, [], OnOk, OnErr};
ghost use Rattle.std.specs.List.{list_any};
ghost use Rattle.finite.specs.Spans.{meets, IsApart};

use std::alloc::{AllocError, Global};
use std::collections::BTreeMap;
use std::marker::Model;

/// Ranges of numbers of which no two share one. Contracts see them as a list of pairs, the last number and the first.
#[derive(Drop)]
pub struct Spans {
    /// The first number of each by its last.
    firsts: BTreeMap<u64, u64>,
}

impl Model for Spans {
    ghost Value = { List (ℕ × ℕ) };

    ghost view = { λ s. s.firsts.entries };

    ghost invariant = { λ s. IsApart s.firsts };
}

impl Spans {
    /// No ranges. It takes no memory.
    pub fn new(alloc: Global) -> Spans
        ensures { result ≡ [] }
    {
        Spans {
            firsts: BTreeMap::new(alloc),
        }
    }

    /// Whether one of them shares a number with a range, both of whose ends are inside.
    pub fn meet(&self, first: u64, last: u64) -> bool
        ensures { result ≡ list_any (meets first last) self.now }
    {
        match self.firsts.range(first..).next() {
            Some((_, next)) => *next <= last,
            None => false,
        }
    }

    /// Adds a range that meets none of them.
    pub fn insert(&mut self, first: u64, last: u64) -> Result<(), AllocError>
        requires filled { first ≤ last }
        requires apart { list_any (meets first last) self.old ≡ false }
        ensures added { OnOk result ((test : ℕ × ℕ → Bool) → list_any test self.new ≡ (test (last, first) || list_any test self.old)) }
        ensures err { OnErr result (self.new ≡ self.old) }
    {
        let Ok(_) = self.firsts.insert(last, first) else {
            return Err(AllocError);
        };
        Ok(())
    }
}
