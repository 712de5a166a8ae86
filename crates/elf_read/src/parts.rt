//! The parts, read one by one.

ghost use Rattle.std.specs.Prelude.{◌≡◌, ◌/◌, ◌++◌, ◌==◌, ◌&&◌, ◌<◌, length, map, filter, position, Some, None, IfSome, IfOk, OnOk, false};
ghost use Rattle.elf_read.specs.Tables.{table};
ghost use Rattle.elf_read.specs.Faults.{is_outside, is_loaded, first_outside_segment, first_outside_section, is_table, is_symbols};
ghost use Rattle.elf_read.specs.Parts.{segment, segments, section, strings, symbols, relocs};

use crate::checks::is_loaded;
use crate::elf::{Section, Segment, Symbols};
use crate::fields::range_of;
use crate::relocs::Relocs;
use crate::tables::{Entry, ProgramHeader, SectionHeader, SymbolEntry, read_table};
use oc_base::fault::NoMemory;
use oc_base::items::Items;
use std::alloc::Global;

#[tactic(auto, unfolding(crate::specs::Parts::segment))]
fn segment(alloc: Global, bytes: &[u8], h: &ProgramHeader) -> Result<Segment, NoMemory>
    requires { is_outside (length bytes.now) h.now.offset h.now.file_size ≡ false }
    ensures { IfOk result (λ s. s ≡ segment bytes.now h.now) }
{
    Ok(Segment {
        flags: h.flags,
        offset: h.offset,
        at: h.address,
        memsize: h.memory_size,
        bytes: Items::from_slice(alloc, range_of(bytes, h.offset, h.file_size))?,
    })
}

pub fn sections(alloc: Global, headers: &[SectionHeader]) -> Result<Items<Section>, NoMemory>
    ensures { IfOk result (λ v. v ≡ map section headers.now) }
{
    let mut all = Vec::new(alloc);
    for s in headers {
        all.push(Section {
            kind: s.kind,
            flags: s.flags,
            at: s.address,
            offset: s.offset,
            size: s.size,
        })?;
    }
    Ok(Items::from_vec(all))
}

/// The loaded segments, with their bytes.
#[tactic(auto, unfolding(crate::specs::Parts::segments), using(finite::proofs::Filtered::map_filter_more, crate::proofs::Loops::segment_inside))]
pub fn segments(
    alloc: Global,
    bytes: &[u8],
    headers: &[ProgramHeader],
) -> Result<Items<Segment>, NoMemory>
    requires { first_outside_segment (length bytes.now) headers.now ≡ None }
    ensures { IfOk result (λ v. v ≡ segments bytes.now headers.now) }
{
    let mut all = Vec::new(alloc);
    for h in headers {
        if is_loaded(h) {
            all.push(segment(alloc, bytes, h)?)?;
        }
    }
    Ok(Items::from_vec(all))
}

/// The entries of a table that one section holds.
#[tactic(auto, using(crate::proofs::Loops::table_none))]
fn entries_of<E: Entry>(alloc: Global, bytes: &[u8], s: &SectionHeader) -> Result<Vec<E>, NoMemory>
    requires size { 0 < E.SIZE }
    requires inside { is_outside (length bytes.now) s.now.offset s.now.size ≡ false }
    ensures { IfOk result (λ v. v.items ≡ table E.SIZE E.entry_at bytes.now s.now.offset (s.now.size / E.SIZE)) }
{
    let count = s.size as usize / E::SIZE;
    if count == 0 {
        return read_table(alloc, bytes, 0, 0);
    }
    read_table(alloc, bytes, s.offset as usize, count)
}

fn reloc_sections(
    alloc: Global,
    sections: &[SectionHeader],
    place: usize,
) -> Result<Vec<SectionHeader>, NoMemory>
    ensures { IfOk result (λ v. v.items ≡ filter (λ s. s.kind == 4 && s.link == place) sections.now) }
{
    let mut all = Vec::new(alloc);
    for s in sections {
        if s.kind == 4 && s.link as usize == place {
            all.push(*s)?;
        }
    }
    Ok(all)
}

/// The relocations of the sections that name the symbol table.
#[tactic(auto, unfolding(crate::specs::Parts::relocs))]
pub fn relocs(
    alloc: Global,
    bytes: &[u8],
    sections: &[SectionHeader],
    place: usize,
    n: u64,
) -> Result<Relocs, NoMemory>
    requires { first_outside_section (length bytes.now) sections.now ≡ None }
    ensures { IfOk result (λ v. v ≡ relocs bytes.now sections.now place n) }
{
    let tables = reloc_sections(alloc, sections, place)?;
    let bytes = Items::from_slice(alloc, bytes)?;
    Ok(Relocs::of(bytes, tables, n))
}

/// The strings that a section names.
#[tactic(auto, unfolding(crate::specs::Parts::strings), using(crate::proofs::Loops::section_inside))]
fn strings<'a>(bytes: &'a [u8], sections: &[SectionHeader], link: u32) -> &'a [u8]
    requires { first_outside_section (length bytes.now) sections.now ≡ None }
    ensures { result.now ≡ strings bytes.now sections.now link }
{
    let link = link as usize;
    if link < sections.len() && sections[link].kind == 3 {
        range_of(bytes, sections[link].offset, sections[link].size)
    } else {
        &[]
    }
}

/// The symbols of the first symbol table.
#[tactic(auto, unfolding(crate::specs::Parts::symbols), using(crate::proofs::Loops::symbols_inside, finite::proofs::Finding::found_at))]
pub fn symbols(
    alloc: Global,
    bytes: &[u8],
    sections: &[SectionHeader],
    place: usize,
) -> Result<Symbols, NoMemory>
    requires sections { first_outside_section (length bytes.now) sections.now ≡ None }
    requires place { position is_symbols sections.now ≡ Some place }
    ensures { IfOk result (λ v. v ≡ symbols bytes.now sections.now) }
{
    let s = sections[place];
    let strings = Items::from_slice(alloc, strings(bytes, sections, s.link))?;
    let entries: Vec<SymbolEntry> = entries_of(alloc, bytes, &s)?;
    Ok(Symbols::of(strings, entries))
}
