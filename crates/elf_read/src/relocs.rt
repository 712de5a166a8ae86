//! The relocations of a file.

ghost use Rattle.std.specs.Prelude.{◌≡◌, ◌++◌, ◌+◌, ◌*◌, ◌/◌, ◌≤◌, ◌<◌, ℕ, List, length, All, false, IfOk, OnOk};
ghost use Rattle.std.specs.List.{flat_map};
ghost use Rattle.std.specs.List.Sorted.{IsPermutation};
ghost use Rattle.elf_read.specs.declared.tables.Reloc.{Reloc as RelocData};
ghost use Rattle.elf_read.specs.Faults.{is_outside};
ghost use Rattle.elf_read.specs.Relocs.{entries_from, relocs_of, AreSame, AreAmong};

use crate::tables::{Entry, Reloc, SectionHeader};
use oc_base::fault::NoMemory;
use oc_base::items::Items;
use std::alloc::Global;
use std::marker::Model;

/// Relocations as the file has them: its bytes, and sections of entries, which may share their places.
#[derive(Debug, Drop)]
pub struct Relocs {
    bytes: Items<u8>,
    sections: Vec<SectionHeader>,
    symbols: u64,
}

impl Model for Relocs {
    ghost use Rattle.std.specs.Prelude.{◌≡◌, List, length, All, false};
    ghost use Rattle.std.specs.List.{flat_map};
    ghost use Rattle.elf_read.specs.declared.tables.Reloc.{Reloc};
    ghost use Rattle.elf_read.specs.Faults.{is_outside};
    ghost use Rattle.elf_read.specs.Relocs.{relocs_of};

    ghost Value = { List Reloc };

    ghost view = { λ r. flat_map (relocs_of r.bytes r.symbols) r.sections.items };

    ghost invariant = { λ r. All (λ s. is_outside (length r.bytes) s.offset s.size ≡ false) r.sections.items };
}

impl Relocs {
    /// The relocations of sections whose symbol is one of the first. It takes no memory.
    pub fn of(bytes: Items<u8>, sections: Vec<SectionHeader>, symbols: u64) -> Relocs
        requires { All (λ s. is_outside (length bytes) s.offset s.size ≡ false) sections.items }
        ensures { result ≡ flat_map (relocs_of bytes symbols) sections.items }
    {
        Relocs {
            bytes,
            sections,
            symbols,
        }
    }

    /// The relocations in another order, the entry at one place of the file once.
    pub fn distinct(&self, alloc: Global) -> Result<Vec<Reloc>, NoMemory>
        ensures { IfOk result (λ v. AreSame v.items self.now) }
    {
        let sections = by_place(alloc, &self.sections)?;
        let all = distinct_in(alloc, self.bytes.as_slice(), &sections, self.symbols)?;
        Ok(all)
    }
}

/// Sections in an order where of those that share a place one follows another.
fn by_place(alloc: Global, sections: &[SectionHeader]) -> Result<Vec<SectionHeader>, NoMemory>
    ensures { IfOk result (λ v. IsPermutation sections.now v.items) }
{
    let mut sorted = Vec::from_slice(alloc, sections)?;
    sorted.sort_unstable_by_key(|s| (s.offset % 24, s.offset));
    Ok(sorted)
}

/// How many entries of a section stand among so many from another place on.
fn known(last: (u64, u64), s: &SectionHeader) -> u64
    ensures within { result ≤ s.now.size / 24 }
    ensures among { (bytes : List ℕ) (n : ℕ) → AreAmong (entries_from bytes n s.now.offset result) (entries_from bytes n last.0 last.1) }
{
    if s.offset < last.0 {
        return 0;
    }
    let past = s.offset - last.0;
    if past % 24 != 0 || past / 24 >= last.1 {
        return 0;
    }
    (s.size / 24).min(last.1 - past / 24)
}

fn push_entries(
    out: &mut Vec<Reloc>,
    bytes: &[u8],
    from: usize,
    count: usize,
    symbols: u64,
) -> Result<(), NoMemory>
    requires { 0 < count → from + 24 * count ≤ length bytes.now }
    ensures { OnOk result (out.new.items ≡ out.old.items ++ entries_from bytes.now symbols from count) }
{
    for i in 0..count {
        let r = Reloc::read(bytes, from + 24 * i);
        if (r.symbol as u64) < symbols {
            out.push(r)?;
        }
    }
    Ok(())
}

/// Adds the entries of a section that aren't among the last ones, and answers which are the last ones now.
fn push_section(
    out: &mut Vec<Reloc>,
    last: (u64, u64),
    bytes: &[u8],
    s: &SectionHeader,
    symbols: u64,
) -> Result<(u64, u64), NoMemory>
    requires { is_outside (length bytes.now) s.now.offset s.now.size ≡ false }
    ensures { IfOk result (λ next. (all : List RelocData) → AreSame out.old.items all → AreAmong (entries_from bytes.now symbols last.0 last.1) all → AreSame out.new.items (all ++ relocs_of bytes.now symbols s.now) × AreAmong (entries_from bytes.now symbols next.0 next.1) (all ++ relocs_of bytes.now symbols s.now)) }
{
    let count = s.size / 24;
    let known = known(last, s);
    if known >= count {
        return Ok(last);
    }
    let from = s.offset + 24 * known;
    push_entries(out, bytes, from as usize, (count - known) as usize, symbols)?;
    Ok((s.offset, count))
}

fn distinct_in(
    alloc: Global,
    bytes: &[u8],
    sections: &[SectionHeader],
    symbols: u64,
) -> Result<Vec<Reloc>, NoMemory>
    requires { All (λ s. is_outside (length bytes.now) s.offset s.size ≡ false) sections.now }
    ensures { IfOk result (λ v. AreSame v.items (flat_map (relocs_of bytes.now symbols) sections.now)) }
{
    let mut all = Vec::new(alloc);
    let mut last = (0, 0);
    for s in sections {
        last = push_section(&mut all, last, bytes, s, symbols)?;
    }
    Ok(all)
}
