//! Memory in ordered maps.
ghost use Rattle.std.specs.Prelude.{◌≡◌, ◌-◌, ◌+◌, ◌^◌, ◌≤◌, IfOk};
ghost use Rattle.std.specs.Ordering.{nat_cmp};
ghost use Rattle.std.specs.BTreeMap.{IsOrdered};
ghost use Rattle.finite.specs.Maps.{contains, contains_all, nowhere, within};
ghost use Rattle.guest_mem.specs.Memory.{blank};
ghost use Rattle.guest_mem.specs.Flat.{flat_rights, gives, flat_links, AllLow};

use crate::bytes::{copied, number};
use crate::fault::{Access, StoreFault};
use crate::store::GuestStore;
use crate::words::{Right, Word, WordStore};
use crate::{access, clearing, transfer};
use link_tags::origins::Origins;
use link_tags::value::{Tag, Value};
use oc_base::fault::NoMemory;
use oc_base::range::Range;
use rv_isa::instr::Width;
use std::alloc::Global;
use std::collections::{BTreeMap, VecDeque};
use std::marker::Model;

/// Bytes that were given the same rights, up to but not with `to`.
#[derive(Clone, Copy, Debug)]
pub struct Span {
    from: u64,
    to: u64,
    read: bool,
    write: bool,
}

/// Memory in ordered maps: the words that were written, by their numbers, and the spans of rights, of which the newest
/// that covers a byte decides.
#[derive(Drop)]
pub struct FlatMem {
    words: BTreeMap<u64, Word>,
    rights: VecDeque<Span>,
}

impl Model for FlatMem {
    ghost use Rattle.guest_mem.specs.Store.{Store, store_code};
    ghost use Rattle.guest_mem.specs.Flat.{flat_store, IsFlat};

    ghost Value = { Store };

    ghost coded = { store_code };

    ghost view = { flat_store };

    ghost invariant = { IsFlat };
}

impl FlatMem {
    /// A memory of zero Plain bytes without rights. It takes no memory.
    pub fn new(alloc: Global) -> FlatMem
        ensures { result ≡ record { contents = blank; room = nowhere } }
    {
        FlatMem {
            words: BTreeMap::new(alloc),
            rights: VecDeque::new(alloc),
        }
    }
}

impl WordStore for FlatMem {
    ghost contents = { λ s. s.contents };

    ghost room = { λ s. s.room };

    fn word(&self, w: u64) -> Word {
        match self.words.get(&w) {
            Some(word) => Word {
                bytes: copied(&word.bytes),
                tag: word.tag,
            },
            None => Word {
                bytes: [0; 8],
                tag: Tag::Plain,
            },
        }
    }

    fn set_word(&mut self, w: u64, word: Word) -> Result<(), NoMemory> {
        let Ok(_) = self.words.insert(w, word) else {
            return Err(NoMemory);
        };
        Ok(())
    }

    fn make_room(&mut self, w: u64) -> Result<(), NoMemory> {
        let word = WordStore::word(self, w);
        let Ok(_) = self.words.insert(w, word) else {
            return Err(NoMemory);
        };
        Ok(())
    }

    fn has_room(&self, w: u64) -> bool {
        self.words.contains_key(&w)
    }

    fn has_right(&self, right: Right, at: u64) -> bool {
        has_right(&self.rights, right, at)
    }

    fn have_rights(&self, right: Right, at: u64, n: u64) -> bool {
        WordStore::bounded(self);
        have_rights(&self.rights, right, at, n)
    }

    fn bounded(&self) {
        // A look at a field brings what the type keeps into the proof.
        let _ = self.words.len();
    }
}

impl GuestStore for FlatMem {
    ghost contents = { λ s. s.contents };

    ghost room = { λ s. s.room };

    fn load<O: Origins>(&self, at: u64, width: Width, origins: &O) -> Result<Value, Access> {
        access::load(self, at, width, origins)
    }

    fn store<O: Origins>(
        &mut self,
        at: u64,
        width: Width,
        v: Value,
        origins: &O,
    ) -> Result<(), StoreFault> {
        access::store(self, at, width, v, origins)
    }

    fn take_bytes<O: Origins>(
        &self,
        alloc: Global,
        at: u64,
        len: u64,
        origins: &O,
    ) -> Result<Vec<u8>, StoreFault> {
        transfer::take_bytes(alloc, self, at, len, origins)
    }

    fn put_bytes<O: Origins>(
        &mut self,
        at: u64,
        bytes: &[u8],
        origins: &O,
    ) -> Result<(), StoreFault> {
        transfer::put_bytes(self, at, bytes, origins)
    }

    fn make_room(&mut self, range: Range) -> Result<(), NoMemory> {
        transfer::make_room(self, range)
    }

    fn map(&mut self, range: Range, read: bool, write: bool) -> Result<(), NoMemory> {
        let Ok(()) = GuestStore::set_rights(self, range, read, write) else {
            return Err(NoMemory);
        };
        clearing::clear(self, range);
        Ok(())
    }

    fn unmap(&mut self, range: Range) -> Result<(), NoMemory> {
        GuestStore::map(self, range, false, false)
    }

    fn set_rights(&mut self, range: Range, read: bool, write: bool) -> Result<(), NoMemory> {
        let span = Span {
            from: range.from,
            to: range.to,
            read,
            write,
        };
        let Ok(()) = self.rights.push_front(span) else {
            return Err(NoMemory);
        };
        Ok(())
    }

    fn links(&self, alloc: Global) -> Result<Vec<(u64, u64)>, NoMemory> {
        links_in(alloc, &self.words)
    }

    fn set_link(&mut self, at: u64, number: u64) {
        access::set_link(self, at, number);
    }

    fn may_read(&self, at: u64, len: u64) -> bool {
        WordStore::bounded(self);
        access::all_have_right(self, Right::Read, at, len)
    }

    fn may_write(&self, at: u64, len: u64) -> bool {
        WordStore::bounded(self);
        access::all_have_right(self, Right::Write, at, len)
    }

    fn is_link(&self, at: u64) -> bool {
        WordStore::word(self, at / 8).tag == Tag::Link
    }
}

impl Span {
    fn gives(&self, right: Right) -> bool
        ensures { result ≡ gives right self.now }
    {
        match right {
            Right::Read => self.read,
            Right::Write => self.write,
        }
    }

    fn covers(&self, at: u64) -> bool
        ensures { result ≡ within self.now.from (self.now.to - self.now.from) at }
    {
        self.from <= at && at < self.to
    }
}

/// Whether the newest span that covers a byte gives a right.
fn has_right(rights: &VecDeque<Span>, right: Right, at: u64) -> bool
    ensures { result ≡ contains (flat_rights (gives right) rights.now.items) at }
{
    for span in rights {
        if span.covers(at) {
            return span.gives(right);
        }
    }
    false
}

/// Whether each of the `n` bytes at `at` has a right.
fn have_rights(rights: &VecDeque<Span>, right: Right, at: u64, n: u64) -> bool
    requires { at + n ≤ 2 ^ 64 }
    ensures { result ≡ contains_all (flat_rights (gives right) rights.now.items) at n }
{
    for k in 0..n {
        if !has_right(rights, right, at + k) {
            return false;
        }
    }
    true
}

/// The links among words, with their addresses and numbers.
fn links_in(alloc: Global, words: &BTreeMap<u64, Word>) -> Result<Vec<(u64, u64)>, NoMemory>
    requires { AllLow words.now.entries }
    ensures links { IfOk result (λ v. v.items ≡ flat_links words.now.entries) }
    ensures ordered { IsOrdered nat_cmp words.now }
{
    let mut found = Vec::new(alloc);
    for (w, word) in words {
        if word.tag == Tag::Link {
            let Ok(()) = found.push((8 * *w, number(word.bytes))) else {
                return Err(NoMemory);
            };
        }
    }
    Ok(found)
}
