//! Sources, sinks and files in memory. Each fails at the calls whose numbers it is made with, counted from 1,
//! and tells what it has.

ghost use Rattle.std.specs.Prelude.{◌≡◌, ◌⊎◌, ℕ, ◌+◌, ◌<◌, ◌≤◌, true, List, [], ◌∷◌, ◌++◌, length, take, drop, map, Option, Some, None, Result, is_err, string_bytes, IfOk, OnOk, OnErr, IsErr};
ghost use Rattle.std.specs.Option.{ForSome, option_copied};
ghost use Rattle.oc_base.specs.Listed.{called, counted, fails_next};
ghost use Rattle.oc_base.specs.Outside.{HasCause, HasCauseAt, LacksFile, HasFile, IsLonger, HasNow, SameElsewhere, Asks, AsksOrFails, dropped, gained};
ghost use Rattle.oc_base.specs.Table.{newest_in};

use crate::calls::Calls;
use crate::fault::{Failed, NoMemory, TakeFault};
use crate::files::Files;
use crate::sink::Sink;
use crate::source::Source;
use std::alloc::Global;

/// Bytes in memory that are read from the front. It counts its reads, and can't fail where no number is listed.
#[derive(Drop)]
pub struct MemSource {
    /// The reads.
    pub calls: Calls,
    bytes: Vec<u8>,
    at: usize,
    faults: u64,
    ghost within: { at ≤ length bytes.items },
}

impl MemSource {
    /// A source of these bytes, whose reads with these numbers fail.
    pub fn new(bytes: Vec<u8>, fails: Vec<u64>) -> Self
        ensures left { ⟦<MemSource as Source>⟧.left result ≡ Some bytes.items }
        ensures calls { result.calls ≡ (record { fails = fails; count = 0 }) }
        ensures reads { ⟦<MemSource as Source>⟧.reads result ≡ 0 }
        ensures faults { ⟦<MemSource as Source>⟧.faults result ≡ counted fails.items 0 }
    {
        MemSource {
            calls: Calls { fails, count: 0 },
            bytes,
            at: 0,
            faults: 0,
        }
    }
}

impl Source for MemSource {
    ghost left = { λ s. Some (drop s.at s.bytes.items) };

    ghost reads = { λ s. s.calls.count };

    ghost faults = { λ s. counted s.calls.fails.items s.faults };

    fn read(&mut self, into: &mut [u8]) -> Result<usize, Failed>
        requires { 0 < length into.old }
        ensures fails { is_err result ≡ fails_next self.old.calls }
        ensures calls { self.new.calls ≡ called self.old.calls }
        ensures room { IfOk result (λ n. n ≤ length into.old) }
        ensures bytes { IfOk result (λ n. ForSome (⟦<MemSource as Source>⟧.left self.old) (λ bytes. take n into.new ≡ take n bytes)) }
        ensures end { IfOk result (λ n. n ≡ 0 → ForSome (⟦<MemSource as Source>⟧.left self.old) (λ bytes. bytes ≡ [])) }
        ensures left { IfOk result (λ n. ⟦<MemSource as Source>⟧.left self.new ≡ dropped n (⟦<MemSource as Source>⟧.left self.old)) }
        ensures kept { OnErr result (⟦<MemSource as Source>⟧.left self.new ≡ ⟦<MemSource as Source>⟧.left self.old) }
        ensures turn { ⟦<MemSource as Source>⟧.reads self.new ≤ ⟦<MemSource as Source>⟧.reads self.old + 1 }
        ensures cause { HasCause (⟦<MemSource as Source>⟧.faults self.old) (⟦<MemSource as Source>⟧.faults self.new) result }
    {
        if self.calls.next_fails() {
            self.faults = self.faults.saturating_add(1);
            return Err(Failed);
        }
        let rest = &self.bytes[self.at..];
        let count = rest.len().min(into.len());
        into[..count].copy_from_slice(&rest[..count]);
        self.at += count;
        Ok(count)
    }
}

/// Bytes in memory that grow at the end. To be out of memory is a fault of this device.
#[derive(Drop)]
pub struct MemSink {
    /// The writes.
    pub calls: Calls,
    held: Vec<u8>,
    faults: u64,
}

impl MemSink {
    /// A sink that holds these bytes, whose writes with these numbers fail.
    pub fn new(holds: Vec<u8>, fails: Vec<u64>) -> Self
        ensures holds { ⟦<MemSink as Sink>⟧.holds result ≡ Some holds.items }
        ensures calls { result.calls ≡ (record { fails = fails; count = 0 }) }
        ensures faults { ⟦<MemSink as Sink>⟧.faults result ≡ Some 0 }
    {
        MemSink {
            calls: Calls { fails, count: 0 },
            held: holds,
            faults: 0,
        }
    }

    /// The bytes that it holds.
    pub fn held(&self) -> &[u8]
        ensures { ⟦<MemSink as Sink>⟧.holds self.now ≡ Some result.now }
    {
        &self.held
    }
}

impl Sink for MemSink {
    ghost holds = { λ s. Some s.held.items };

    ghost faults = { λ s. Some s.faults };

    fn write(&mut self, piece: &[u8]) -> Result<usize, Failed>
        requires { 0 < length piece.now }
        ensures fails { fails_next self.old.calls ≡ true → IsErr result }
        ensures calls { self.new.calls ≡ called self.old.calls }
        ensures all { IfOk result (λ n. n ≡ length piece.now) }
        ensures some { IfOk result (λ n. 0 < n) }
        ensures room { IfOk result (λ n. n ≤ length piece.now) }
        ensures holds { IfOk result (λ n. ⟦<MemSink as Sink>⟧.holds self.new ≡ gained (⟦<MemSink as Sink>⟧.holds self.old) (take n piece.now)) }
        ensures kept { OnErr result (⟦<MemSink as Sink>⟧.holds self.new ≡ ⟦<MemSink as Sink>⟧.holds self.old) }
        ensures cause { HasCause (⟦<MemSink as Sink>⟧.faults self.old) (⟦<MemSink as Sink>⟧.faults self.new) result }
    {
        if self.calls.next_fails() {
            self.faults = self.faults.saturating_add(1);
            return Err(Failed);
        }
        let Ok(()) = self.held.extend_from_slice(piece) else {
            self.faults = self.faults.saturating_add(1);
            return Err(Failed);
        };
        Ok(piece.len())
    }
}

/// A sink that takes all bytes and keeps none. It can't fail.
#[derive(Drop)]
pub struct NullSink;

impl Sink for NullSink {
    ghost holds = { λ _. None };

    ghost faults = { λ _. None };

    fn write(&mut self, piece: &[u8]) -> Result<usize, Failed> {
        Ok(piece.len())
    }
}

/// Files in memory. `take` and `put` are counted together; of two files with one name the later counts.
/// `take` fails also where there is no such file, and `put` also when out of memory.
#[derive(Drop)]
pub struct MemFiles {
    /// The calls of `take` and `put`.
    pub calls: Calls,
    files: Vec<(String, Vec<u8>)>,
    asked: Vec<String>,
    take_faults: u64,
    put_faults: u64,
}

impl MemFiles {
    /// These files, whose calls with these numbers fail.
    pub fn new(files: Vec<(String, Vec<u8>)>, fails: Vec<u64>) -> Self
        ensures disk { ⟦<MemFiles as Files>⟧.disk result ≡ Some (newest_in files.items) }
        ensures asked { ⟦<MemFiles as Files>⟧.asked result ≡ Some [] }
        ensures calls { result.calls ≡ (record { fails = fails; count = 0 }) }
        ensures take_faults { ⟦<MemFiles as Files>⟧.take_faults result ≡ Some 0 }
        ensures put_faults { ⟦<MemFiles as Files>⟧.put_faults result ≡ Some 0 }
    {
        let alloc = *files.allocator();
        MemFiles {
            calls: Calls { fails, count: 0 },
            files,
            asked: Vec::new(alloc),
            take_faults: 0,
            put_faults: 0,
        }
    }

    /// The bytes of the file with this name, or `None` where there is no such file.
    pub fn file(&self, name: &str) -> Option<&[u8]>
        ensures { ForSome (⟦<MemFiles as Files>⟧.disk self.now) (λ disk. option_copied result ≡ disk name.now) }
    {
        newest(&self.files, name)
    }
}

// The bytes of the last file with this name.
fn newest<'a>(files: &'a [(String, Vec<u8>)], name: &str) -> Option<&'a [u8]>
    ensures { option_copied result ≡ newest_in files.now name.now }
{
    let mut found: Option<&'a [u8]> = None;
    for file in files {
        if file.0.as_str() == name {
            found = Some(&file.1);
        }
    }
    found
}

// Adds a name to those that were asked for.
fn note(asked: &mut Vec<String>, name: &str) -> Result<(), NoMemory>
    ensures ok { OnOk result (map string_bytes asked.new.items ≡ map string_bytes asked.old.items ++ name.now ∷ []) }
    ensures err { OnErr result (asked.new.items ≡ asked.old.items) }
{
    let alloc = *asked.allocator();
    let Ok(text) = String::from_str(alloc, name) else {
        return Err(NoMemory);
    };
    let Ok(()) = asked.push(text) else {
        return Err(NoMemory);
    };
    Ok(())
}

// Adds a file, which then is the last of its name.
fn set(files: &mut Vec<(String, Vec<u8>)>, name: &str, bytes: &[u8]) -> Result<(), NoMemory>
    ensures ok { OnOk result (newest_in files.new.items name.now ≡ Some bytes.now) }
    ensures others { (other : List ℕ) → (other ≡ name.now → ⊥) → newest_in files.new.items other ≡ newest_in files.old.items other }
{
    let alloc = *files.allocator();
    let Ok(text) = String::from_str(alloc, name) else {
        return Err(NoMemory);
    };
    let Ok(copy) = Vec::from_slice(alloc, bytes) else {
        return Err(NoMemory);
    };
    let Ok(()) = files.push((text, copy)) else {
        return Err(NoMemory);
    };
    Ok(())
}

impl Files for MemFiles {
    ghost disk = { λ s. Some (newest_in s.files.items) };

    ghost asked = { λ s. Some (map string_bytes s.asked.items) };

    ghost take_faults = { λ s. Some s.take_faults };

    ghost put_faults = { λ s. Some s.put_faults };

    fn take(&mut self, alloc: Global, name: &str, limit: usize) -> Result<Vec<u8>, TakeFault>
        ensures fails { result ≡ Err TakeFault.Failed → (fails_next self.old.calls ≡ true) ⊎ LacksFile (⟦<MemFiles as Files>⟧.disk self.old) name.now }
        ensures listed { fails_next self.old.calls ≡ true → (result ≡ Err TakeFault.Failed) ⊎ (result ≡ Err TakeFault.NoMemory) }
        ensures calls { self.new.calls ≡ called self.old.calls }
        ensures bytes { IfOk result (λ bytes. HasFile (⟦<MemFiles as Files>⟧.disk self.old) name.now bytes.items) }
        ensures within { IfOk result (λ bytes. length bytes.items ≤ limit) }
        ensures too_long { result ≡ Err TakeFault.TooLong → IsLonger (⟦<MemFiles as Files>⟧.disk self.old) name.now limit }
        ensures kept { ⟦<MemFiles as Files>⟧.disk self.new ≡ ⟦<MemFiles as Files>⟧.disk self.old }
        ensures asked { Asks TakeFault.NoMemory (⟦<MemFiles as Files>⟧.asked self.old) (⟦<MemFiles as Files>⟧.asked self.new) name.now result }
        ensures cause { HasCauseAt TakeFault.Failed (⟦<MemFiles as Files>⟧.take_faults self.old) (⟦<MemFiles as Files>⟧.take_faults self.new) result }
        ensures puts { ⟦<MemFiles as Files>⟧.put_faults self.new ≡ ⟦<MemFiles as Files>⟧.put_faults self.old }
    {
        let failing = self.calls.next_fails();
        let Ok(()) = note(&mut self.asked, name) else {
            return Err(TakeFault::NoMemory);
        };
        if failing {
            self.take_faults = self.take_faults.saturating_add(1);
            return Err(TakeFault::Failed);
        }
        let Some(bytes) = newest(&self.files, name) else {
            self.take_faults = self.take_faults.saturating_add(1);
            return Err(TakeFault::Failed);
        };
        if bytes.len() > limit {
            return Err(TakeFault::TooLong);
        }
        let Ok(copy) = Vec::from_slice(alloc, bytes) else {
            return Err(TakeFault::NoMemory);
        };
        Ok(copy)
    }

    fn put(&mut self, name: &str, bytes: &[u8]) -> Result<(), Failed>
        ensures fails { fails_next self.old.calls ≡ true → IsErr result }
        ensures calls { self.new.calls ≡ called self.old.calls }
        ensures bytes { OnOk result (HasNow (⟦<MemFiles as Files>⟧.disk self.old) (⟦<MemFiles as Files>⟧.disk self.new) name.now bytes.now) }
        ensures others { SameElsewhere (⟦<MemFiles as Files>⟧.disk self.old) (⟦<MemFiles as Files>⟧.disk self.new) name.now }
        ensures asked { AsksOrFails (⟦<MemFiles as Files>⟧.asked self.old) (⟦<MemFiles as Files>⟧.asked self.new) name.now result }
        ensures cause { HasCause (⟦<MemFiles as Files>⟧.put_faults self.old) (⟦<MemFiles as Files>⟧.put_faults self.new) result }
        ensures takes { ⟦<MemFiles as Files>⟧.take_faults self.new ≡ ⟦<MemFiles as Files>⟧.take_faults self.old }
    {
        let failing = self.calls.next_fails();
        let Ok(()) = note(&mut self.asked, name) else {
            self.put_faults = self.put_faults.saturating_add(1);
            return Err(Failed);
        };
        if failing {
            self.put_faults = self.put_faults.saturating_add(1);
            return Err(Failed);
        }
        let Ok(()) = set(&mut self.files, name, bytes) else {
            self.put_faults = self.put_faults.saturating_add(1);
            return Err(Failed);
        };
        Ok(())
    }
}
