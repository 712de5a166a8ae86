//! What the system keeps of a run.
ghost use Rattle.std.specs.Prelude.{◌≡◌, ◌+◌, ◌%◌, ◌≤◌, ◌<◌, ◌==◌, ◌++◌, ◌∷◌, [], length, drop, OnOk, OnErr, if◌then◌else◌};
ghost use Rattle.guest_sys.specs.Limits.{map_end, output_limit, hart_limit};
ghost use Rattle.guest_sys.specs.State.{State, IsOrderly, pages, fresh};
ghost use Rattle.guest_sys.specs.Calls.{added, output};

use crate::MAP_END;
use oc_base::fault::NoMemory;
use oc_base::items::Items;
use std::alloc::Global;
use std::marker::Model;

/// A hart that waits at an address.
#[derive(Clone, Copy, Debug, PartialEq, Eq)]
pub struct Waiter {
    pub hart: u32,
    pub at: u64,
}

/// The state of the system: input, outputs, break, mappings, harts made, and those that wait.
#[derive(Debug, Drop)]
pub struct Sys {
    input: Items<u8>,
    // how many bytes of the input were read
    place: usize,
    out: Items<u8>,
    err: Items<u8>,
    break_start: u64,
    break_now: u64,
    map_top: u64,
    made: u32,
    waiting: Items<Waiter>,
}

impl Model for Sys {
    ghost use Rattle.std.specs.Prelude.{drop, ◌≤◌, length};
    ghost use Rattle.guest_sys.specs.State.{State, IsOrderly};

    ghost Value = { State };

    ghost view = { λ s. record {
      input = drop s.place s.input;
      out = s.out;
      err = s.err;
      break_start = s.break_start;
      break_now = s.break_now;
      map_top = s.map_top;
      made = s.made;
      waiting = s.waiting;
    } };

    ghost invariant = { λ s. (s.place ≤ length s.input) × IsOrderly (record {
      input = drop s.place s.input;
      out = s.out;
      err = s.err;
      break_start = s.break_start;
      break_now = s.break_now;
      map_top = s.map_top;
      made = s.made;
      waiting = s.waiting;
    }) };
}

impl Sys {
    /// The state before the first call. It takes no memory.
    pub fn new(alloc: Global, input: Vec<u8>, break_start: u64) -> Sys
        requires whole { break_start % 4096 ≡ 0 }
        requires low { break_start ≤ map_end }
        ensures { result ≡ fresh input.items break_start }
    {
        Sys {
            input: Items::from_vec(input),
            place: 0,
            out: Items::new(alloc),
            err: Items::new(alloc),
            break_start,
            break_now: break_start,
            map_top: MAP_END,
            made: 1,
            waiting: Items::new(alloc),
        }
    }

    /// What each state keeps, for a caller's proof. It does nothing.
    pub fn orderly(&self)
        ensures { IsOrderly self.now }
    {
        let _ = &self.place;
    }

    /// The bytes that were written to output 1 or 2.
    pub fn output(&self, k: u8) -> &[u8]
        ensures { result.now ≡ output self.now k }
    {
        if k == 1 {
            self.out.as_slice()
        } else {
            self.err.as_slice()
        }
    }

    /// How many harts were made.
    pub fn made(&self) -> u32
        ensures { result ≡ self.now.made }
    {
        self.made
    }

    /// What is left of the input.
    pub fn input(&self) -> &[u8]
        ensures { result.now ≡ self.now.input }
    {
        &self.input.as_slice()[self.place..]
    }

    /// Where the break started.
    pub fn break_start(&self) -> u64
        ensures { result ≡ self.now.break_start }
    {
        self.break_start
    }

    /// Where the break is.
    pub fn break_now(&self) -> u64
        ensures { result ≡ self.now.break_now }
    {
        self.break_now
    }

    /// Where the mappings begin.
    pub fn map_top(&self) -> u64
        ensures { result ≡ self.now.map_top }
    {
        self.map_top
    }

    /// The waiting harts, the longest waiting first.
    pub fn waiting(&self) -> &[Waiter]
        ensures { result.now ≡ self.now.waiting }
    {
        self.waiting.as_slice()
    }

    /// The first `count` bytes of the input were read.
    #[tactic(auto, using(crate::proofs::Input::rest_within, crate::proofs::Input::drop_rest))]
    pub(crate) fn go_on(&mut self, count: usize)
        requires { count ≤ length self.old.input }
        ensures { self.new ≡ record self.old { input = drop count self.old.input } }
    {
        let left = self.input().len() - count;
        self.place = self.input.len() - left;
    }

    /// Adds bytes to output 1 or 2.
    pub(crate) fn append(&mut self, k: u64, bytes: &[u8]) -> Result<(), NoMemory>
        requires { length (output self.old k) + length bytes.now ≤ output_limit }
        ensures ok { OnOk result (self.new ≡ added self.old k bytes.now) }
        ensures err { OnErr result (self.new ≡ self.old) }
    {
        if k == 1 {
            self.out.extend_from_slice(bytes)
        } else {
            self.err.extend_from_slice(bytes)
        }
    }

    /// Moves the break.
    pub(crate) fn set_break(&mut self, to: u64)
        requires start { self.old.break_start ≤ to }
        requires top { pages to ≤ self.old.map_top }
        ensures { self.new ≡ record self.old { break_now = to } }
    {
        self.break_now = to;
    }

    /// Moves the begin of the mappings.
    pub(crate) fn set_map_top(&mut self, to: u64)
        requires whole { to % 4096 ≡ 0 }
        requires low { pages self.old.break_now ≤ to }
        requires high { to ≤ map_end }
        ensures { self.new ≡ record self.old { map_top = to } }
    {
        self.map_top = to;
    }

    /// One more hart is made.
    pub(crate) fn count_hart(&mut self)
        requires { self.old.made < hart_limit }
        ensures { self.new ≡ record self.old { made = self.old.made + 1 } }
    {
        self.made += 1;
    }

    /// One more hart waits, behind all others.
    pub(crate) fn push_waiting(&mut self, waiter: Waiter) -> Result<(), NoMemory>
        ensures ok { OnOk result (self.new ≡ record self.old { waiting = self.old.waiting ++ waiter ∷ [] }) }
        ensures err { OnErr result (self.new ≡ self.old) }
    {
        self.waiting.push(waiter)
    }

    /// Other harts wait.
    pub(crate) fn set_waiting(&mut self, waiting: Items<Waiter>)
        ensures { self.new ≡ record self.old { waiting = waiting } }
    {
        self.waiting = waiting;
    }
}
