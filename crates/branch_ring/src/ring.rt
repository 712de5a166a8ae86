//! The last transfers of a hart.

ghost use Rattle.std.specs.Prelude.{◌≡◌, ◌≤◌, ◌<◌, ◌^◌, [], length, slice_index_or, IfOk};
ghost use Rattle.branch_ring.specs.Rings.{noted};

use circular_buffer::HeapCircularBuffer;
use oc_base::fault::NoMemory;
use std::alloc::Global;
use std::marker::Model;

/// The last pairs that were noted, as many as there is room for.
#[derive(Drop)]
pub struct Ring {
    pairs: HeapCircularBuffer<(u64, u64)>,
}

impl Model for Ring {
    ghost use Rattle.branch_ring.specs.Rings.{Notes};

    ghost Value = { Notes };

    ghost view = { λ r. record { room = r.pairs.capacity; pairs = r.pairs.items } };
}

impl Ring {
    /// An empty ring with room for `n` pairs; all its memory is taken here.
    pub fn new(alloc: Global, n: usize) -> Result<Ring, NoMemory>
        ensures { IfOk result (λ r. r ≡ record { room = n; pairs = [] }) }
    {
        let pairs = HeapCircularBuffer::with_capacity(alloc, n)?;
        Ok(Ring { pairs })
    }

    /// Notes a transfer. A full ring forgets its oldest pair.
    pub fn note(&mut self, from: u64, to: u64)
        ensures { self.new ≡ noted self.old (from, to) }
    {
        self.pairs.push_back((from, to));
    }

    /// How many pairs it keeps.
    pub fn len(&self) -> usize
        ensures len { result ≡ length self.now.pairs }
        ensures within { (result ≤ self.now.room) × (self.now.room < 2 ^ 63) }
    {
        self.pairs.len()
    }

    /// A pair that it keeps, counted from the oldest.
    pub fn at(&self, i: usize) -> (u64, u64)
        requires { i < length self.now.pairs }
        ensures { result ≡ slice_index_or self.now.pairs i result }
    {
        match self.pairs.get(i) {
            Some(pair) => *pair,
            None => unreachable!(),
        }
    }

    /// An equal ring.
    pub fn copy(&self, alloc: Global) -> Result<Ring, NoMemory>
        ensures { IfOk result (λ r. r ≡ self.now) }
    {
        let mut pairs = HeapCircularBuffer::with_capacity(alloc, self.pairs.capacity())?;
        let (front, back) = self.pairs.as_slices();
        pairs.extend_from_slice(front);
        pairs.extend_from_slice(back);
        Ok(Ring { pairs })
    }
}
