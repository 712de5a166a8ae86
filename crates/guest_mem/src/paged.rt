//! Memory in a table of pages.
ghost use Rattle.std.specs.Prelude.{◌≡◌, ℕ, ◌+◌, ◌-◌, ◌*◌, ◌/◌, ◌<◌, ◌≤◌, true, length, IfOk, OnOk, OnErr};
ghost use Rattle.finite.specs.Maps.{contains, nowhere};
ghost use Rattle.guest_mem.specs.Memory.{blank};
ghost use Rattle.guest_mem.specs.Access.{KeepsRoom};
ghost use Rattle.guest_mem.specs.Paged.{paged_memory, part_from, part_to, AreReady, changed, paged_links, paged_room};

use crate::fault::{Access, StoreFault};
use crate::page::{Page, Rights};
use crate::store::GuestStore;
use crate::words::{Right, Word, WordStore};
use crate::{PAGE, access, transfer};
use link_tags::origins::Origins;
use link_tags::value::{Tag, Value};
use oc_base::fault::NoMemory;
use oc_base::range::Range;
use rv_isa::instr::Width;
use std::alloc::Global;
use std::marker::Model;

/// The words of a page.
const PAGE_WORDS: u64 = 512;

/// The pages of all guest addresses.
const PAGES: u64 = 65536;

/// Memory in a table that has an entry for each 4096 bytes of the guest addresses.
#[derive(Drop)]
pub struct PagedMem {
    alloc: Global,
    pages: Vec<Page>,
}

impl Model for PagedMem {
    ghost use Rattle.guest_mem.specs.Store.{Store, store_code};
    ghost use Rattle.guest_mem.specs.Paged.{paged_store, HasAllPages};

    ghost Value = { Store };

    ghost coded = { store_code };

    ghost view = { paged_store };

    ghost invariant = { HasAllPages };
}

impl PagedMem {
    /// A memory of zero Plain bytes without rights.
    pub fn new(alloc: Global) -> Result<PagedMem, NoMemory>
        ensures { IfOk result (λ m. m ≡ record { contents = blank; room = nowhere }) }
    {
        let Ok(mut pages) = Vec::with_capacity(alloc, PAGES as usize) else {
            return Err(NoMemory);
        };
        for _ in 0..PAGES {
            let none = Rights {
                read: false,
                write: false,
            };
            let Ok(()) = pages.push(Page::Zero(none)) else {
                return Err(NoMemory);
            };
        }
        Ok(PagedMem { alloc, pages })
    }

    /// Gives the bytes of a range these rights and, if they are to be cleared, makes them zero and Plain.
    fn change(&mut self, range: Range, rights: Rights, cleared: bool) -> Result<(), NoMemory>
        requires { range.to ≤ 0x1000_0000 }
        ensures ok { OnOk result (self.new.contents ≡ changed cleared self.old.contents range.from (range.to - range.from) rights) }
        ensures err { OnErr result (self.new.contents ≡ self.old.contents) }
    {
        if range.from >= range.to {
            return Ok(());
        }
        let Ok(()) = make_ready(self.alloc, &mut self.pages, range, rights) else {
            return Err(NoMemory);
        };
        change(&mut self.pages, range, rights, cleared);
        Ok(())
    }
}

/// The part of a range that lies in the page `i`.
fn part(range: Range, i: u64) -> Range
    requires { i < 65536 }
    ensures { result ≡ record { from = part_from range.from i; to = part_to range.to i } }
{
    Range {
        from: range.from.saturating_sub(PAGE * i),
        to: range.to.saturating_sub(PAGE * i).min(PAGE),
    }
}

/// Sees to it that the change of a range takes no memory, and changes nothing else.
fn make_ready(
    alloc: Global,
    pages: &mut [Page],
    range: Range,
    rights: Rights,
) -> Result<(), NoMemory>
    requires table { length pages.old ≡ 65536 }
    requires end { range.to ≤ 0x1000_0000 }
    ensures same { paged_memory pages.new ≡ paged_memory pages.old }
    ensures ready { OnOk result (AreReady pages.new (range.from / 4096) ((range.to + 4095) / 4096) range.from range.to rights) }
    ensures table { length pages.new ≡ 65536 }
{
    for i in range.from / PAGE..(range.to + (PAGE - 1)) / PAGE {
        let part = part(range, i);
        let page = &mut pages[i as usize];
        let Ok(()) = page.make_ready(alloc, part.from as usize, part.to as usize, rights) else {
            return Err(NoMemory);
        };
    }
    Ok(())
}

/// Changes the rights of a range page by page, and its bytes and tags if they are to be cleared.
fn change(pages: &mut [Page], range: Range, rights: Rights, cleared: bool)
    requires table { length pages.old ≡ 65536 }
    requires order { range.from < range.to }
    requires end { range.to ≤ 0x1000_0000 }
    requires ready { AreReady pages.old (range.from / 4096) ((range.to + 4095) / 4096) range.from range.to rights }
    ensures changed { paged_memory pages.new ≡ changed cleared (paged_memory pages.old) range.from (range.to - range.from) rights }
    ensures table { length pages.new ≡ 65536 }
{
    for i in range.from / PAGE..(range.to + (PAGE - 1)) / PAGE {
        let part = part(range, i);
        let page = &mut pages[i as usize];
        page.change(part.from as usize, part.to as usize, rights, cleared);
    }
}

/// Makes the pages from `first` up to `end` full, and changes nothing else.
fn make_full(alloc: Global, pages: &mut [Page], first: usize, end: usize) -> Result<(), NoMemory>
    requires { end ≤ length pages.old }
    ensures same { paged_memory pages.new ≡ paged_memory pages.old }
    ensures made { OnOk result ((w : ℕ) → 512 * first ≤ w → w < 512 * end → contains (paged_room pages.new) w ≡ true) }
    ensures room { KeepsRoom (paged_room pages.old) (paged_room pages.new) }
    ensures table { length pages.new ≡ length pages.old }
{
    for i in first..end {
        let page = &mut pages[i];
        let Ok(()) = page.make_full(alloc) else {
            return Err(NoMemory);
        };
    }
    Ok(())
}

impl WordStore for PagedMem {
    ghost contents = { λ s. s.contents };

    ghost room = { λ s. s.room };

    #[inline]
    fn word(&self, w: u64) -> Word {
        let pages = &self.pages;
        if w >= PAGES * PAGE_WORDS {
            return Word {
                bytes: [0; 8],
                tag: Tag::Plain,
            };
        }
        pages[(w / PAGE_WORDS) as usize].word((w % PAGE_WORDS) as usize)
    }

    #[inline]
    fn set_word(&mut self, w: u64, word: Word) -> Result<(), NoMemory> {
        let page = &mut self.pages[(w / PAGE_WORDS) as usize];
        let Ok(()) = page.set_word(self.alloc, (w % PAGE_WORDS) as usize, word) else {
            return Err(NoMemory);
        };
        Ok(())
    }

    fn has_room(&self, w: u64) -> bool {
        w < PAGES * PAGE_WORDS && self.pages[(w / PAGE_WORDS) as usize].is_full()
    }

    fn make_room(&mut self, w: u64) -> Result<(), NoMemory> {
        let page = &mut self.pages[(w / PAGE_WORDS) as usize];
        let Ok(()) = page.make_full(self.alloc) else {
            return Err(NoMemory);
        };
        Ok(())
    }

    #[inline]
    fn has_right(&self, right: Right, at: u64) -> bool {
        at < PAGES * PAGE && self.pages[(at / PAGE) as usize].has_right(right, (at % PAGE) as usize)
    }

    #[inline]
    fn have_rights(&self, right: Right, at: u64, n: u64) -> bool {
        at < PAGES * PAGE
            && self.pages[(at / PAGE) as usize].have_rights(right, (at % PAGE) as usize, n as usize)
    }

    #[inline]
    fn bounded(&self) {
        // A look at a field brings what the type keeps into the proof.
        let _ = self.pages.len();
    }
}

impl GuestStore for PagedMem {
    ghost contents = { λ s. s.contents };

    ghost room = { λ s. s.room };

    #[inline]
    fn load<O: Origins>(&self, at: u64, width: Width, origins: &O) -> Result<Value, Access> {
        access::load(self, at, width, origins)
    }

    #[inline]
    fn store<O: Origins>(
        &mut self,
        at: u64,
        width: Width,
        v: Value,
        origins: &O,
    ) -> Result<(), StoreFault> {
        access::store(self, at, width, v, origins)
    }

    fn take_bytes<O: Origins>(
        &self,
        alloc: Global,
        at: u64,
        len: u64,
        origins: &O,
    ) -> Result<Vec<u8>, StoreFault> {
        transfer::take_bytes(alloc, self, at, len, origins)
    }

    fn put_bytes<O: Origins>(
        &mut self,
        at: u64,
        bytes: &[u8],
        origins: &O,
    ) -> Result<(), StoreFault> {
        transfer::put_bytes(self, at, bytes, origins)
    }

    fn make_room(&mut self, range: Range) -> Result<(), NoMemory> {
        if range.from >= range.to {
            return Ok(());
        }
        let first = (range.from / PAGE) as usize;
        let end = ((range.to + (PAGE - 1)) / PAGE) as usize;
        let Ok(()) = make_full(self.alloc, &mut self.pages, first, end) else {
            return Err(NoMemory);
        };
        Ok(())
    }

    fn map(&mut self, range: Range, read: bool, write: bool) -> Result<(), NoMemory> {
        self.change(range, Rights { read, write }, true)
    }

    fn unmap(&mut self, range: Range) -> Result<(), NoMemory> {
        GuestStore::map(self, range, false, false)
    }

    fn set_rights(&mut self, range: Range, read: bool, write: bool) -> Result<(), NoMemory> {
        self.change(range, Rights { read, write }, false)
    }

    fn links(&self, alloc: Global) -> Result<Vec<(u64, u64)>, NoMemory> {
        links_in(alloc, &self.pages)
    }

    fn set_link(&mut self, at: u64, number: u64) {
        access::set_link(self, at, number);
    }

    fn may_read(&self, at: u64, len: u64) -> bool {
        WordStore::bounded(self);
        access::all_have_right(self, Right::Read, at, len)
    }

    fn may_write(&self, at: u64, len: u64) -> bool {
        WordStore::bounded(self);
        access::all_have_right(self, Right::Write, at, len)
    }

    fn is_link(&self, at: u64) -> bool {
        WordStore::word(self, at / 8).tag == Tag::Link
    }
}

/// The links in pages, with their addresses and numbers.
fn links_in(alloc: Global, pages: &[Page]) -> Result<Vec<(u64, u64)>, NoMemory>
    requires { length pages.now ≡ 65536 }
    ensures { IfOk result (λ v. v.items ≡ paged_links pages.now 0 0x0200_0000) }
{
    let mut found = Vec::new(alloc);
    for i in 0..PAGES {
        let Ok(()) = pages[i as usize].add_links(&mut found, PAGE_WORDS * i) else {
            return Err(NoMemory);
        };
    }
    Ok(found)
}
