//! The parts of an executable.

ghost use Rattle.std.specs.Prelude.{◌≡◌, ◌==◌, ◌<◌, nat_eq, map, position, slice_get, slice_index_or, length, IfSome, false};
ghost use Rattle.std.specs.List.{before_first, list_any, starts_with};
ghost use Rattle.elf_read.specs.Names.{symbol};
ghost use Rattle.elf_read.specs.Whole.{IsWhole};

use crate::relocs::Relocs;
use crate::tables::SymbolEntry;
use oc_base::items::Items;
use std::marker::Model;

/// A loaded segment, with its bytes in the file.
#[derive(Debug, Drop)]
pub struct Segment {
    pub flags: u32,
    pub offset: u64,
    pub at: u64,
    pub memsize: u64,
    pub bytes: Items<u8>,
}

#[derive(Clone, Copy, Debug)]
pub struct Section {
    pub kind: u32,
    pub flags: u64,
    pub at: u64,
    pub offset: u64,
    pub size: u64,
}

/// The bytes from a place of the strings on up to the next zero byte, which is not looked for.
#[derive(Debug, Drop)]
pub struct Name<'a> {
    rest: &'a [u8],
}

impl<'a> Model for Name<'a> {
    ghost use Rattle.std.specs.Prelude.{ℕ, List, ◌==◌};
    ghost use Rattle.std.specs.List.{before_first};

    ghost Value = { List ℕ };

    ghost view = { λ n. before_first (λ b. b == 0) n.rest.now };
}

impl<'a> Name<'a> {
    /// Whether the name begins with these bytes, none of them zero. A long name takes no longer.
    pub fn starts_with(&self, head: &[u8]) -> bool
        requires { list_any (λ b. b == 0) head.now ≡ false }
        ensures { result ≡ starts_with nat_eq self.now head.now }
    {
        self.rest.starts_with(head)
    }

    /// The bytes of the name. It takes time by their number.
    pub fn bytes(&self) -> &'a [u8]
        ensures { result.now ≡ self.now }
    {
        up_to_zero(self.rest)
    }
}

fn zero_place(bytes: &[u8]) -> Option<usize>
    ensures first { result ≡ position (λ b. b == 0) bytes.now }
    ensures within { IfSome result (λ i. i < length bytes.now) }
{
    bytes.iter().position(|b| *b == 0)
}

// The bytes before the first zero byte, or all where none is zero.
#[tactic(auto, using(finite::proofs::Finding::before_found, finite::proofs::Finding::before_none))]
fn up_to_zero(bytes: &[u8]) -> &[u8]
    ensures { result.now ≡ before_first (λ b. b == 0) bytes.now }
{
    match zero_place(bytes) {
        Some(end) => &bytes[..end],
        None => bytes,
    }
}

#[derive(Debug, Drop)]
pub struct Symbol<'a> {
    pub name: Name<'a>,
    pub info: u8,
    pub section: u16,
    pub value: u64,
    pub size: u64,
}

/// Symbols as the file has them: entries, and the strings of which each names one by its place.
#[derive(Debug, Drop)]
pub struct Symbols {
    strings: Items<u8>,
    entries: Vec<SymbolEntry>,
}

impl Model for Symbols {
    ghost use Rattle.std.specs.Prelude.{List, map};
    ghost use Rattle.elf_read.specs.declared.elf.Symbol.{Symbol};
    ghost use Rattle.elf_read.specs.Names.{symbol};

    ghost Value = { List Symbol };

    ghost view = { λ s. map (symbol s.strings) s.entries.items };
}

impl Symbols {
    /// The symbols of entries. It takes no memory.
    pub fn of(strings: Items<u8>, entries: Vec<SymbolEntry>) -> Symbols
        ensures { result ≡ map (symbol strings) entries.items }
    {
        Symbols { strings, entries }
    }

    pub fn len(&self) -> usize
        ensures { result ≡ length self.now }
    {
        self.entries.len()
    }

    pub fn at(&self, i: usize) -> Symbol<'_>
        requires { i < length self.now }
        ensures { result ≡ slice_index_or self.now i result }
    {
        named(self.strings.as_slice(), &self.entries[i])
    }

    pub fn get(&self, i: usize) -> Option<Symbol<'_>>
        ensures { result ≡ slice_get self.now i }
    {
        let entry = self.entries.get(i)?;
        Some(named(self.strings.as_slice(), entry))
    }
}

#[tactic(auto, unfolding(crate::specs::Names::symbol, crate::specs::Names::name_at))]
fn named<'a>(strings: &'a [u8], e: &SymbolEntry) -> Symbol<'a>
    ensures { result ≡ symbol strings.now e.now }
{
    let at = (e.name as usize).min(strings.len());
    Symbol {
        name: Name {
            rest: &strings[at..],
        },
        info: e.info,
        section: e.section,
        value: e.value,
        size: e.size,
    }
}

/// The parts of an executable, in the order of the file.
#[derive(Debug, Drop)]
pub struct Elf {
    pub entry: u64,
    pub phoff: u64,
    pub phnum: u16,
    pub segments: Items<Segment>,
    pub sections: Items<Section>,
    pub symbols: Symbols,
    pub relocs: Relocs,
}

/// The parts of a file without a fault, which fit and lie apart.
#[derive(Debug, Drop)]
pub struct Executable {
    elf: Elf,
}

impl Model for Executable {
    ghost use Rattle.elf_read.specs.declared.elf.Elf.{Elf};
    ghost use Rattle.elf_read.specs.Whole.{IsWhole};

    ghost Value = { Elf };

    ghost view = { λ e. e.elf };

    ghost invariant = { λ e. IsWhole e.elf };
}

impl Executable {
    pub fn of(elf: Elf) -> Executable
        requires { IsWhole elf }
        ensures { result ≡ elf }
    {
        Executable { elf }
    }

    pub fn parts(&self) -> &Elf
        ensures { result.now ≡ self.now }
    {
        &self.elf
    }

    /// What each executable keeps, for a caller's proof. It does nothing.
    pub fn kept(&self)
        ensures { IsWhole self.now }
    {
        let _ = &self.elf;
    }
}
