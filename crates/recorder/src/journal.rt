//! The log that a world keeps.

ghost use Rattle.std.specs.Prelude.{◌≡◌, ◌<◌, ◌≤◌, ◌+◌, ◌-◌, true, false, [], OnOk, length, slice_set, vec_len, vec_capacity};
ghost use Rattle.recorder.specs.Journals.{count_limit, entry_of, count_in, LengthensAs, journal_of, noted, noted_times, entered};

use oc_base::fault::NoMemory;
use sched_log::event::Event;
use std::alloc::Global;

/// A call that makes steps of a hart, by its number: one step, or one real step with the layouts' steps before it.
#[derive(Clone, Copy, Debug)]
pub enum Asked {
    Step(u32),
    RealStep(u32),
}

impl Asked {
    /// So many of them as an entry.
    fn entry(self, n: u64) -> Event
        ensures { result ≡ entry_of self n }
    {
        match self {
            Asked::Step(h) => Event::Steps { h, n },
            Asked::RealStep(h) => Event::Real { h, n },
        }
    }

    /// How many of them an entry has, if one more can be counted there.
    fn count_in(self, entry: &Event) -> Option<u64>
        ensures { result ≡ count_in self entry.now }
    {
        match self {
            Asked::Step(h) => steps_in(entry, h),
            Asked::RealStep(h) => real_steps_in(entry, h),
        }
    }
}

fn steps_in(entry: &Event, h: u32) -> Option<u64>
    ensures { result ≡ count_in (Asked.Step h) entry.now }
{
    match entry {
        Event::Steps { h: hart, n } if *hart == h && *n < u64::MAX => Some(*n),
        _ => None,
    }
}

fn real_steps_in(entry: &Event, h: u32) -> Option<u64>
    ensures { result ≡ count_in (Asked.RealStep h) entry.now }
{
    match entry {
        Event::Real { h: hart, n } if *hart == h && *n < u64::MAX => Some(*n),
        _ => None,
    }
}

/// How many of them the last entry has, if one more can be counted there.
fn last_count(entries: &[Event], asked: Asked) -> Option<u64>
    ensures { LengthensAs asked true entries.now result }
{
    match entries.last() {
        Some(entry) => asked.count_in(entry),
        None => None,
    }
}

/// Gives the last entry another count.
fn recount(entries: &mut Vec<Event>, asked: Asked, n: u64)
    requires { 0 < vec_len entries.old }
    ensures items { entries.new.items ≡ slice_set entries.old.items (length entries.old.items - 1) (entry_of asked n) }
    ensures len { vec_len entries.new ≡ vec_len entries.old }
    ensures room { vec_capacity entries.new ≡ vec_capacity entries.old }
{
    let last = entries.len() - 1;
    entries[last] = asked.entry(n);
}

/// The entries, and whether steps may be counted in the last one.
#[derive(Drop)]
pub struct Journal {
    pub entries: Vec<Event>,
    pub is_open: bool,
}

impl Journal {
    pub fn empty(alloc: Global) -> Journal
        ensures is { journal_of result ≡ record { entries = []; is_open = false } }
        ensures len { vec_len result.entries ≡ 0 }
    {
        Journal {
            entries: Vec::new(alloc),
            is_open: false,
        }
    }

    /// Room for one more entry, beside those that are promised.
    pub fn room(&mut self, promised: u32) -> Result<(), NoMemory>
        ensures same { journal_of self.new ≡ journal_of self.old }
        ensures len { vec_len self.new.entries ≡ vec_len self.old.entries }
        ensures ok { OnOk result (vec_len self.new.entries + promised + 1 ≤ vec_capacity self.new.entries) }
        ensures kept { vec_capacity self.old.entries ≤ vec_capacity self.new.entries }
    {
        self.entries.reserve(promised as usize + 1)?;
        Ok(())
    }

    /// How many steps the last entry has, if these are counted there.
    fn open_count(&self, asked: Asked) -> Option<u64>
        ensures { LengthensAs asked self.now.is_open self.now.entries.items result }
    {
        if !self.is_open {
            return None;
        }
        last_count(&self.entries, asked)
    }

    /// Counts so many steps of a kind, at least one. At most one entry is new.
    fn count(&mut self, asked: Asked, n: u64)
        requires some { 0 < n }
        requires room { vec_len self.old.entries < vec_capacity self.old.entries }
        ensures is { journal_of self.new ≡ noted_times n asked (journal_of self.old) }
        ensures len { vec_len self.new.entries ≤ vec_len self.old.entries + 1 }
        ensures kept { vec_capacity self.new.entries ≡ vec_capacity self.old.entries }
    {
        let count = self.open_count(asked);
        self.is_open = true;
        let Some(before) = count else {
            self.entries.push_reserved(asked.entry(n));
            return;
        };
        let fits = u64::MAX - before;
        if n <= fits {
            recount(&mut self.entries, asked, before + n);
            return;
        }
        recount(&mut self.entries, asked, u64::MAX);
        self.entries.push_reserved(asked.entry(n - fits));
    }

    /// Counts one step, unless it is left out. It takes no memory.
    pub fn note(&mut self, left_out: bool, asked: Asked)
        requires { vec_len self.old.entries < vec_capacity self.old.entries }
        ensures is { journal_of self.new ≡ noted left_out asked (journal_of self.old) }
        ensures len { vec_len self.new.entries ≤ vec_len self.old.entries + 1 }
        ensures kept { vec_capacity self.new.entries ≡ vec_capacity self.old.entries }
    {
        if left_out {
            return;
        }
        self.count(asked, 1);
    }

    /// Counts so many steps. It takes no memory.
    pub fn note_times(&mut self, asked: Asked, n: u64)
        requires { vec_len self.old.entries < vec_capacity self.old.entries }
        ensures is { journal_of self.new ≡ noted_times n asked (journal_of self.old) }
        ensures len { vec_len self.new.entries ≤ vec_len self.old.entries + 1 }
        ensures kept { vec_capacity self.new.entries ≡ vec_capacity self.old.entries }
    {
        if n == 0 {
            return;
        }
        self.count(asked, n);
    }

    /// Adds an entry of its own. It takes no memory.
    pub fn enter(&mut self, event: Event)
        requires { vec_len self.old.entries < vec_capacity self.old.entries }
        ensures is { journal_of self.new ≡ entered false event (journal_of self.old) }
        ensures len { vec_len self.new.entries ≡ vec_len self.old.entries + 1 }
        ensures kept { vec_capacity self.new.entries ≡ vec_capacity self.old.entries }
    {
        self.entries.push_reserved(event);
        self.is_open = false;
    }
}
