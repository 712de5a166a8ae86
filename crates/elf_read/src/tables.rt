//! Tables of entries of one size.

ghost use Rattle.std.specs.Prelude.{◌≡◌, ℕ, ◌+◌, ◌*◌, ◌<◌, ◌≤◌, List, length, vec_len, IfOk};
ghost use Rattle.elf_read.specs.Tables.{table};

use crate::fields::{i64_at, u16_at, u32_at, u64_at};
use oc_base::fault::NoMemory;
use std::alloc::Global;

/// An entry of a table.
pub trait Entry: Copy {
    ghost SIZE: { ℕ };

    ghost entry_at: { List ℕ → ℕ → Self };

    const SIZE: usize;

    fn read(bytes: &[u8], at: usize) -> Self
        requires { at + SIZE ≤ length bytes.now }
        ensures { result ≡ entry_at bytes.now at };
}

#[derive(Clone, Copy, Debug)]
pub struct ProgramHeader {
    pub kind: u32,
    pub flags: u32,
    pub offset: u64,
    pub address: u64,
    pub file_size: u64,
    pub memory_size: u64,
}

impl Entry for ProgramHeader {
    ghost use Rattle.elf_read.specs.Tables.{program_header};

    ghost SIZE = { 56 };

    ghost entry_at = { program_header };

    const SIZE: usize = 56;

    #[tactic(auto, unfolding(crate::specs::Tables::program_header))]
    fn read(bytes: &[u8], at: usize) -> Self {
        ProgramHeader {
            kind: u32_at(bytes, at),
            flags: u32_at(bytes, at + 4),
            offset: u64_at(bytes, at + 8),
            address: u64_at(bytes, at + 16),
            file_size: u64_at(bytes, at + 32),
            memory_size: u64_at(bytes, at + 40),
        }
    }
}

#[derive(Clone, Copy, Debug)]
pub struct SectionHeader {
    pub kind: u32,
    pub flags: u64,
    pub address: u64,
    pub offset: u64,
    pub size: u64,
    pub link: u32,
}

impl Entry for SectionHeader {
    ghost use Rattle.elf_read.specs.Tables.{section_header};

    ghost SIZE = { 64 };

    ghost entry_at = { section_header };

    const SIZE: usize = 64;

    #[tactic(auto, unfolding(crate::specs::Tables::section_header))]
    fn read(bytes: &[u8], at: usize) -> Self {
        SectionHeader {
            kind: u32_at(bytes, at + 4),
            flags: u64_at(bytes, at + 8),
            address: u64_at(bytes, at + 16),
            offset: u64_at(bytes, at + 24),
            size: u64_at(bytes, at + 32),
            link: u32_at(bytes, at + 40),
        }
    }
}

/// A symbol as it stands in the table: its name is an offset of the strings.
#[derive(Clone, Copy, Debug)]
pub struct SymbolEntry {
    pub name: u32,
    pub info: u8,
    pub section: u16,
    pub value: u64,
    pub size: u64,
}

impl Entry for SymbolEntry {
    ghost use Rattle.elf_read.specs.Tables.{symbol_entry};

    ghost SIZE = { 24 };

    ghost entry_at = { symbol_entry };

    const SIZE: usize = 24;

    #[tactic(auto, unfolding(crate::specs::Tables::symbol_entry))]
    fn read(bytes: &[u8], at: usize) -> Self {
        SymbolEntry {
            name: u32_at(bytes, at),
            info: bytes[at + 4],
            section: u16_at(bytes, at + 6),
            value: u64_at(bytes, at + 8),
            size: u64_at(bytes, at + 16),
        }
    }
}

/// A relocation: where, by which symbol, of which kind, with what to add.
#[derive(Clone, Copy, Debug)]
pub struct Reloc {
    pub at: u64,
    pub symbol: u32,
    pub kind: u32,
    pub addend: i64,
}

impl Entry for Reloc {
    ghost use Rattle.elf_read.specs.Tables.{reloc};

    ghost SIZE = { 24 };

    ghost entry_at = { reloc };

    const SIZE: usize = 24;

    #[tactic(auto, unfolding(crate::specs::Tables::reloc))]
    fn read(bytes: &[u8], at: usize) -> Self {
        let info = u64_at(bytes, at + 8);
        Reloc {
            at: u64_at(bytes, at),
            symbol: (info >> 32) as u32,
            kind: (info % (1 << 32)) as u32,
            addend: i64_at(bytes, at + 16),
        }
    }
}

/// The entries of a table.
#[tactic(auto, using(crate::proofs::Loops::table_more, crate::proofs::Loops::table_none))]
pub fn read_table<E: Entry>(
    alloc: Global,
    bytes: &[u8],
    from: usize,
    count: usize,
) -> Result<Vec<E>, NoMemory>
    requires { 0 < count → from + E.SIZE * count ≤ length bytes.now }
    ensures items { IfOk result (λ v. v.items ≡ table E.SIZE E.entry_at bytes.now from count) }
    ensures len { IfOk result (λ v. vec_len v ≡ count) }
{
    let mut entries = Vec::new(alloc);
    for i in 0..count {
        let entry = E::read(bytes, from + E::SIZE * i);
        entries.push(entry)?;
    }
    Ok(entries)
}
