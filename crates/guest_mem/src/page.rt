//! A page: 4096 bytes, the tags of its 512 words, and the rights of each byte.
ghost use Rattle.std.specs.Prelude.{◌≡◌, ℕ, ◌-◌, ◌*◌, ◌+◌, ◌%◌, ◌<◌, ◌≤◌, OnOk, OnErr, true, false, cond, nat_eq, length, get_or, ◌++◌};
ghost use Rattle.finite.specs.Maps.{within};
ghost use Rattle.link_tags.specs.Values.{is_link};
ghost use Rattle.guest_mem.specs.Bits.{bit_in, all_bits_in};
ghost use Rattle.guest_mem.specs.Memory.{bytes_of, no_word};
ghost use Rattle.guest_mem.specs.Pages.{right_of, full_byte, full_right, page_byte, page_link, page_right, page_rights, is_full, full_links, page_links, IsPageWith, IsSamePage, IsFullChanged, IsPageChanged, IsReady};

use crate::PAGE;
use crate::bits::{all_set, bit, no_bits, same_bits, set_bit, set_bits};
use crate::bytes::{bytes, number};
use crate::clearing::zeroed;
use crate::words::{Right, Word};
use link_tags::value::Tag;
use oc_base::fault::NoMemory;
use oc_base::range::Range;
use std::alloc::Global;

/// What may be done with each byte of a page.
#[derive(Clone, Copy, Debug, PartialEq, Eq)]
pub struct Rights {
    pub read: bool,
    pub write: bool,
}

/// The numbers of the words of a page, a bit for each word that is a link, and a bit for each byte and right.
#[derive(Drop)]
pub struct Full {
    words: [u64; 512],
    links: [u64; 8],
    read: [u64; 64],
    write: [u64; 64],
}

/// The entry of a page.
#[derive(Drop)]
pub enum Page {
    /// Zero Plain bytes that have the same rights. It takes no memory.
    Zero(Rights),
    /// Any bytes, tags and rights.
    Full(Box<Full>),
}

impl Rights {
    #[inline]
    fn gives(&self, right: Right) -> bool
        ensures { result ≡ right_of right self.now }
    {
        match right {
            Right::Read => self.read,
            Right::Write => self.write,
        }
    }
}

fn is_zero(word: Word) -> bool
    ensures bytes { result ≡ true → (j : ℕ) → j < 8 → get_or word.bytes j 0 ≡ 0 }
    ensures tag { result ≡ true → is_link word.tag ≡ false }
{
    word.tag == Tag::Plain && number(word.bytes) == 0
}

fn zero_words() -> [u64; 512]
    ensures { (k : ℕ) → get_or result k 0 ≡ 0 }
{
    [0; 512]
}

impl Full {
    /// A page of zero Plain bytes that have the same rights.
    fn blank(rights: Rights) -> Full
        ensures words { (k : ℕ) → get_or result.words k 0 ≡ 0 }
        ensures links { (k : ℕ) → bit_in result.links k ≡ false }
        ensures rights { (right : Right) (j : ℕ) → j < 4096 → full_right right result j ≡ right_of right rights }
    {
        Full {
            words: zero_words(),
            links: no_bits(),
            read: same_bits(rights.read),
            write: same_bits(rights.write),
        }
    }

    #[inline]
    fn word(&self, k: usize) -> Word
        requires { k < 512 }
        ensures full { length result.bytes ≡ 8 }
        ensures bytes { result.bytes ≡ bytes_of (get_or self.now.words k 0) }
        ensures tag { is_link result.tag ≡ bit_in self.now.links k }
    {
        Word {
            bytes: bytes(self.words[k]),
            tag: if bit(&self.links, k) {
                Tag::Link
            } else {
                Tag::Plain
            },
        }
    }

    #[inline]
    fn set_word(&mut self, k: usize, word: Word)
        requires { k < 512 }
        ensures bytes { (v j : ℕ) → j < 8 → full_byte self.new v j ≡ cond (nat_eq v k) (get_or word.bytes j 0) (full_byte self.old v j) }
        ensures links { (v : ℕ) → bit_in self.new.links v ≡ cond (nat_eq v k) (is_link word.tag) (bit_in self.old.links v) }
        ensures rights { (right : Right) (j : ℕ) → full_right right self.new j ≡ full_right right self.old j }
    {
        self.words[k] = number(word.bytes);
        set_bit(&mut self.links, k, word.tag == Tag::Link);
    }

    #[inline]
    fn has_right(&self, right: Right, j: usize) -> bool
        requires { j < 4096 }
        ensures { result ≡ full_right right self.now j }
    {
        match right {
            Right::Read => bit(&self.read, j),
            Right::Write => bit(&self.write, j),
        }
    }

    #[inline]
    fn have_rights(&self, right: Right, j: usize, n: usize) -> bool
        requires place { j < 4096 }
        requires byte { j % 8 + n ≤ 8 }
        ensures read { right ≡ Right.Read → result ≡ all_bits_in self.now.read j n }
        ensures write { right ≡ Right.Write → result ≡ all_bits_in self.now.write j n }
    {
        match right {
            Right::Read => all_set(&self.read, j, n),
            Right::Write => all_set(&self.write, j, n),
        }
    }

    /// Gives the bytes from `lo` up to `hi` these rights.
    fn set_rights(&mut self, lo: usize, hi: usize, rights: Rights)
        requires order { lo ≤ hi }
        requires end { hi ≤ 4096 }
        ensures words { self.new.words ≡ self.old.words }
        ensures links { self.new.links ≡ self.old.links }
        ensures rights { (right : Right) (j : ℕ) → j < 4096 → full_right right self.new j ≡ cond (within lo (hi - lo) j) (right_of right rights) (full_right right self.old j) }
    {
        if lo == 0 && hi == PAGE as usize {
            self.read = same_bits(rights.read);
            self.write = same_bits(rights.write);
        } else {
            set_bits(&mut self.read, lo, hi, rights.read);
            set_bits(&mut self.write, lo, hi, rights.write);
        }
    }

    /// Makes the bytes from `lo` up to `hi` zero and Plain.
    fn clear(&mut self, lo: usize, hi: usize)
        requires order { lo < hi }
        requires end { hi ≤ 4096 }
        ensures changed { IsFullChanged true lo (hi - lo) self.old self.new }
        ensures rights { (right : Right) (j : ℕ) → full_right right self.new j ≡ full_right right self.old j }
    {
        let range = Range {
            from: lo as u64,
            to: hi as u64,
        };
        for k in lo / 8..(hi + 7) / 8 {
            let word = zeroed(self.word(k), k as u64, range);
            self.set_word(k, word);
        }
    }
}

impl Full {
    fn add_links(&self, found: &mut Vec<(u64, u64)>, first: u64) -> Result<(), NoMemory>
        requires { first + 512 ≤ 0x0200_0000 }
        ensures { OnOk result (found.new.items ≡ found.old.items ++ full_links self.now first first 512) }
    {
        for row in 0..8 {
            if self.links[row] != 0 {
                let Ok(()) = self.add_row(found, first, row) else {
                    return Err(NoMemory);
                };
            }
        }
        Ok(())
    }

    /// Adds the links among the 64 words of a row.
    fn add_row(&self, found: &mut Vec<(u64, u64)>, first: u64, row: usize) -> Result<(), NoMemory>
        requires first { first + 512 ≤ 0x0200_0000 }
        requires row { row < 8 }
        ensures { OnOk result (found.new.items ≡ found.old.items ++ full_links self.now first (first + 64 * row) 64) }
    {
        for k in 64 * row..64 * row + 64 {
            if bit(&self.links, k) {
                let number = number(self.word(k).bytes);
                let Ok(()) = found.push((8 * (first + k as u64), number)) else {
                    return Err(NoMemory);
                };
            }
        }
        Ok(())
    }
}

impl Page {
    #[inline]
    pub fn word(&self, k: usize) -> Word
        requires { k < 512 }
        ensures full { length result.bytes ≡ 8 }
        ensures bytes { (j : ℕ) → j < 8 → get_or result.bytes j 0 ≡ page_byte self.now k j }
        ensures tag { is_link result.tag ≡ page_link self.now k }
    {
        match self {
            Page::Zero(_) => Word {
                bytes: [0; 8],
                tag: Tag::Plain,
            },
            Page::Full(full) => full.word(k),
        }
    }

    #[inline]
    pub fn has_right(&self, right: Right, j: usize) -> bool
        requires { j < 4096 }
        ensures { result ≡ page_right right self.now j }
    {
        match self {
            Page::Zero(rights) => rights.gives(right),
            Page::Full(full) => full.has_right(right, j),
        }
    }

    /// Whether the `n` bytes from `j` on, which lie in one word, have a right.
    #[inline]
    pub fn have_rights(&self, right: Right, j: usize, n: usize) -> bool
        requires some { 0 < n }
        requires place { j < 4096 }
        requires byte { j % 8 + n ≤ 8 }
        ensures { result ≡ page_rights right self.now j n }
    {
        match self {
            Page::Zero(rights) => rights.gives(right),
            Page::Full(full) => full.have_rights(right, j, n),
        }
    }

    #[inline]
    pub fn is_full(&self) -> bool
        ensures { result ≡ is_full self.now }
    {
        matches!(self, Page::Full(_))
    }

    /// Makes the page full, and changes nothing else.
    pub fn make_full(&mut self, alloc: Global) -> Result<(), NoMemory>
        ensures same { IsSamePage self.old self.new }
        ensures full { OnOk result (is_full self.new ≡ true) }
        ensures kept { is_full self.old ≡ true → is_full self.new ≡ true }
        ensures err { OnErr result (self.new ≡ self.old) }
        ensures roomy { OnErr result (is_full self.old ≡ false) }
    {
        let Page::Zero(rights) = *self else {
            return Ok(());
        };
        let Ok(full) = Box::new(alloc, Full::blank(rights)) else {
            return Err(NoMemory);
        };
        *self = Page::Full(full);
        Ok(())
    }

    /// Sets the word `k`. It takes no memory where the page is full or the word stays as it is.
    #[inline]
    pub fn set_word(&mut self, alloc: Global, k: usize, word: Word) -> Result<(), NoMemory>
        requires { k < 512 }
        ensures ok { OnOk result (IsPageWith self.old k word self.new) }
        ensures kept { is_full self.old ≡ true → is_full self.new ≡ true }
        ensures err { OnErr result (self.new ≡ self.old) }
        ensures roomy { OnErr result (is_full self.old ≡ false) }
    {
        if let Page::Full(full) = self {
            full.set_word(k, word);
            return Ok(());
        }
        self.set_first_word(alloc, k, word)
    }

    /// Sets the word `k` of a page that isn't full.
    #[inline(never)]
    fn set_first_word(&mut self, alloc: Global, k: usize, word: Word) -> Result<(), NoMemory>
        requires place { k < 512 }
        requires zero { is_full self.old ≡ false }
        ensures ok { OnOk result (IsPageWith self.old k word self.new) }
        ensures err { OnErr result (self.new ≡ self.old) }
    {
        if is_zero(word) {
            return Ok(());
        }
        let Page::Zero(rights) = *self else {
            return Ok(());
        };
        let Ok(mut full) = Box::new(alloc, Full::blank(rights)) else {
            return Err(NoMemory);
        };
        full.set_word(k, word);
        *self = Page::Full(full);
        Ok(())
    }

    /// Adds the links of the page, whose first word is the word `first`, with their addresses and numbers.
    pub fn add_links(&self, found: &mut Vec<(u64, u64)>, first: u64) -> Result<(), NoMemory>
        requires { first + 512 ≤ 0x0200_0000 }
        ensures { OnOk result (found.new.items ≡ found.old.items ++ page_links self.now first first 512) }
    {
        match self {
            Page::Zero(_) => Ok(()),
            Page::Full(full) => full.add_links(found, first),
        }
    }

    /// Whether `change` of the bytes from `lo` up to `hi` takes no memory.
    fn is_ready(&self, lo: usize, hi: usize, rights: Rights) -> bool
        ensures { result ≡ true → IsReady self.now lo (hi - lo) rights }
    {
        match self {
            Page::Zero(old) => lo == 0 && hi == PAGE as usize || *old == rights,
            Page::Full(_) => true,
        }
    }

    /// Sees to it that `change` of the bytes from `lo` up to `hi` takes no memory, and changes nothing else.
    pub fn make_ready(
        &mut self,
        alloc: Global,
        lo: usize,
        hi: usize,
        rights: Rights,
    ) -> Result<(), NoMemory>
        ensures same { IsSamePage self.old self.new }
        ensures ready { OnOk result (IsReady self.new lo (hi - lo) rights) }
        ensures err { OnErr result (self.new ≡ self.old) }
    {
        if self.is_ready(lo, hi, rights) {
            return Ok(());
        }
        self.make_full(alloc)
    }

    /// Gives the bytes from `lo` up to `hi` these rights and, if they are to be cleared, makes them zero and Plain.
    /// It takes no memory, and gives back that of a page all of which is cleared.
    pub fn change(&mut self, lo: usize, hi: usize, rights: Rights, cleared: bool)
        requires order { lo < hi }
        requires end { hi ≤ 4096 }
        requires ready { IsReady self.old lo (hi - lo) rights }
        ensures { IsPageChanged cleared lo (hi - lo) rights self.old self.new }
    {
        let whole = lo == 0 && hi == PAGE as usize;
        match self {
            Page::Full(full) => {
                if whole && cleared {
                    *self = Page::Zero(rights);
                } else {
                    full.set_rights(lo, hi, rights);
                    if cleared {
                        full.clear(lo, hi);
                    }
                }
            }
            Page::Zero(_) => *self = Page::Zero(rights),
        }
    }
}
