//! The region.

ghost use Rattle.std.specs.Prelude.{◌≡◌, ◌+◌, ◌<◌, ◌≤◌, ◌⊎◌, ◌↔◌, ℕ, max, true, false, Some, IfOk, IfSome, IsNone, OnOk, OnErr, is_some, nat_le};
ghost use Rattle.region.specs.Free.{is_free, AreFree, fit, largest, piece, taken, given};
ghost use Rattle.region.specs.Space.{IsSpace};

use crate::ranges::{cut_out, fit, largest, place_ending_at, place_ending_behind, put_in};
use oc_base::fault::NoMemory;
use oc_base::range::Range;
use std::alloc::Global;
use std::marker::Model;

/// A region of addresses and the ranges of it that are free. Contracts see it as a `Space`.
#[derive(Debug, Drop)]
pub struct Region {
    all: Range,
    /// Ascending; none is empty, and no two touch.
    free: Vec<Range>,
    /// How many more ranges there is room for.
    spare: usize,
}

impl Model for Region {
    ghost use Rattle.std.specs.Prelude.{◌≤◌, ◌+◌, length};
    ghost use Rattle.std.specs.Vec.{vec_capacity};
    ghost use Rattle.region.specs.Free.{Rises};
    ghost use Rattle.region.specs.Space.{Space};

    ghost Value = { Space };

    ghost view = { λ r. record { all = r.all; free = r.free.items; spare = r.spare } };

    ghost invariant = { λ r. record {
      order : Rises r.all.from r.all.to r.free.items;
      room : length r.free.items + r.spare ≤ vec_capacity r.free;
    } };
}

impl Region {
    /// A region that is free.
    pub fn new(alloc: Global, all: Range) -> Result<Region, NoMemory>
        requires { all.from ≤ all.to }
        ensures { IfOk result (λ r. r ≡ record { all = all; free = piece all.from all.to; spare = 0 }) }
    {
        let mut free = Vec::new(alloc);
        if all.from < all.to {
            free.push(all)?;
        }
        Ok(Region {
            all,
            free,
            spare: 0,
        })
    }

    /// What each region keeps, for a caller's proof. It does nothing.
    pub fn kept(&self)
        ensures { IsSpace self.now }
    {
        let _ = &self.spare;
    }

    /// The least address from which `n` bytes are free.
    pub fn fit(&self, n: u64) -> Option<u64>
        ensures is { result ≡ fit self.now.free n }
        ensures low { IfSome result (λ at. self.now.all.from ≤ at) }
        ensures high { IfSome result (λ at. at + n ≤ self.now.all.to) }
        ensures free { IfSome result (λ at. AreFree self.now.free at n) }
        ensures least { 0 < n → IfSome result (λ at. (x : ℕ) → AreFree self.now.free x n → at ≤ x) }
        ensures none { 0 < n → IsNone result ↔ ((x : ℕ) → AreFree self.now.free x n → ⊥) }
    {
        fit(&self.free, n)
    }

    /// The size of the largest free range, and 0 where there is none.
    pub fn largest(&self) -> u64
        ensures is { result ≡ largest self.now.free }
        ensures fits { (n : ℕ) → 0 < n → is_some (fit self.now.free n) ≡ nat_le n result }
    {
        largest(&self.free)
    }

    /// Makes room for this many calls of `take` and `give_back`.
    pub fn reserve(&mut self, calls: usize) -> Result<(), NoMemory>
        ensures ok { OnOk result (self.new ≡ record { all = self.old.all; free = self.old.free; spare = max self.old.spare calls }) }
        ensures err { OnErr result (self.new ≡ self.old) }
    {
        if calls <= self.spare {
            return Ok(());
        }
        self.free.reserve(calls)?;
        self.spare = calls;
        Ok(())
    }

    /// Makes the `n` bytes from an address on used. It takes no memory.
    pub fn take(&mut self, at: u64, n: u64)
        requires spare { 0 < self.old.spare }
        requires free { AreFree self.old.free at n }
        ensures free { self.new.free ≡ taken at (at + n) self.old.free }
        ensures addresses { (a : ℕ) → (is_free self.new.free a ≡ true) ↔ ((is_free self.old.free a ≡ true) × ((a < at) ⊎ (at + n ≤ a))) }
        ensures spare { self.new.spare + 1 ≡ self.old.spare }
        ensures all { self.new.all ≡ self.old.all }
    {
        self.spare -= 1;
        if n != 0 {
            let i = place_ending_behind(&self.free, at);
            cut_out(&mut self.free, i, at, n);
        }
    }

    /// Makes a part of the region free again. It takes no memory.
    pub fn give_back(&mut self, part: Range)
        requires spare { 0 < self.old.spare }
        requires ordered { part.from ≤ part.to }
        requires low { self.old.all.from ≤ part.from }
        requires high { part.to ≤ self.old.all.to }
        requires used { (a : ℕ) → part.from ≤ a → a < part.to → is_free self.old.free a ≡ true → ⊥ }
        ensures free { self.new.free ≡ given part self.old.free }
        ensures addresses { (a : ℕ) → (is_free self.new.free a ≡ true) ↔ ((is_free self.old.free a ≡ true) ⊎ ((part.from ≤ a) × (a < part.to))) }
        ensures spare { self.new.spare + 1 ≡ self.old.spare }
        ensures all { self.new.all ≡ self.old.all }
    {
        self.spare -= 1;
        if part.from != part.to {
            let i = place_ending_at(&self.free, part.from);
            put_in(&mut self.free, i, part);
        }
    }
}
