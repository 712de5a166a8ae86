//! The segments and the sections of a program.

ghost use Rattle.std.specs.Prelude.{◌≡◌, ◌+◌, ◌<◌, ◌^◌, ◌++◌, length, IfOk, OnOk};
ghost use Rattle.elf_make.specs.File.{text_size, has_data, data_address, data_offset, segment, segments, later_names, symbols_number, no_section, loaded_section, strings_section, table_section, text_and_data, tables, sections};
ghost use Rattle.elf_make.specs.Places.{places};

use crate::rows::{Place, Places, SectionRow};
use elf_read::tables::{ProgramHeader, SectionHeader};
use oc_base::fault::NoMemory;
use rv_asm::program::Program;
use std::alloc::Global;

/// The bytes of text.
pub fn text_size(p: &Program) -> u64
    ensures value { result ≡ text_size p.now }
    ensures small { result < 2 ^ 25 }
{
    4 * p.text.len() as u64
}

pub fn has_data(p: &Program) -> bool
    ensures { result ≡ has_data p.now }
{
    p.bytes.len() > 0
}

/// The address of data.
pub fn data_address(p: &Program) -> u64
    ensures { result ≡ data_address p.now }
{
    (0x10000 + text_size(p) + 4095) / 4096 * 4096
}

/// Where data stand in the file.
pub fn data_offset(p: &Program) -> u64
    ensures value { result ≡ data_offset p.now }
    ensures small { result < 2 ^ 26 }
{
    let end = 0x1000 + text_size(p);
    if has_data(p) {
        (end + 4095) / 4096 * 4096
    } else {
        end
    }
}

fn segment(flags: u32, offset: u64, address: u64, size: u64) -> ProgramHeader
    ensures { result ≡ segment flags offset address size }
{
    ProgramHeader {
        kind: 1,
        flags,
        offset,
        address,
        file_size: size,
        memory_size: size,
    }
}

#[tactic(auto, unfolding(crate::specs::File::segments))]
pub fn segments(alloc: Global, p: &Program) -> Result<Vec<ProgramHeader>, NoMemory>
    ensures { IfOk result (λ v. v.items ≡ segments p.now) }
{
    let mut all = Vec::new(alloc);
    all.push(segment(5, 0x1000, 0x10000, text_size(p)))?;
    if has_data(p) {
        let size = p.bytes.len() as u64;
        all.push(segment(6, data_offset(p), data_address(p), size))?;
    }
    Ok(all)
}

fn no_section() -> SectionRow
    ensures { result ≡ no_section }
{
    SectionRow {
        name: 0,
        header: SectionHeader {
            kind: 0,
            flags: 0,
            address: 0,
            offset: 0,
            size: 0,
            link: 0,
        },
        info: 0,
        align: 0,
        entry_size: 0,
    }
}

fn loaded_section(name: u32, flags: u64, address: u64, place: Place, align: u64) -> SectionRow
    ensures { result ≡ loaded_section name flags address place.offset place.size align }
{
    SectionRow {
        name,
        header: SectionHeader {
            kind: 1,
            flags,
            address,
            offset: place.offset,
            size: place.size,
            link: 0,
        },
        info: 0,
        align,
        entry_size: 0,
    }
}

/// A section of strings.
fn strings_section(name: u32, place: Place) -> SectionRow
    ensures { result ≡ strings_section name place.offset place.size }
{
    SectionRow {
        name,
        header: SectionHeader {
            kind: 3,
            flags: 0,
            address: 0,
            offset: place.offset,
            size: place.size,
            link: 0,
        },
        info: 0,
        align: 1,
        entry_size: 0,
    }
}

/// A section of symbols (2) or relocations (4).
fn table_section(name: u32, kind: u32, place: Place, link: u32, info: u32) -> SectionRow
    ensures { result ≡ table_section name kind place.offset place.size link info }
{
    SectionRow {
        name,
        header: SectionHeader {
            kind,
            flags: 0,
            address: 0,
            offset: place.offset,
            size: place.size,
            link,
        },
        info,
        align: 8,
        entry_size: 24,
    }
}

/// How many symbols there are.
#[tactic(auto, using(crate::proofs::Lengths::few))]
fn symbol_count(p: &Program) -> u32
    ensures { result ≡ 1 + length p.now.funcs + length p.now.objects }
{
    1 + p.funcs.len() as u32 + p.objects.len() as u32
}

/// The sections of text and data.
fn push_loaded(all: &mut Vec<SectionRow>, p: &Program) -> Result<(), NoMemory>
    ensures { OnOk result (all.new.items ≡ all.old.items ++ text_and_data p.now) }
{
    let text = Place {
        offset: 0x1000,
        size: text_size(p),
    };
    all.push(loaded_section(1, 6, 0x10000, text, 4))?;
    if has_data(p) {
        let data = Place {
            offset: data_offset(p),
            size: p.bytes.len() as u64,
        };
        all.push(loaded_section(7, 3, data_address(p), data, 8))?;
    }
    Ok(())
}

/// The sections of the tables.
#[tactic(auto, unfolding(crate::specs::Places::places))]
fn push_tables(all: &mut Vec<SectionRow>, p: &Program, at: &Places) -> Result<(), NoMemory>
    requires { at.now ≡ places p.now }
    ensures { OnOk result (all.new.items ≡ all.old.items ++ tables p.now) }
{
    let (names, symbols, data) = if has_data(p) { (13, 3, 2) } else { (7, 2, 0) };
    let count = symbol_count(p);
    all.push(table_section(names, 2, at.symbols, symbols + 1, count))?;
    all.push(strings_section(names + 8, at.names))?;
    all.push(table_section(names + 16, 4, at.text_relocations, symbols, 1))?;
    all.push(table_section(names + 27, 4, at.data_relocations, symbols, data))?;
    all.push(strings_section(names + 38, at.section_names))?;
    Ok(())
}

/// The sections of the file, whose tables stand at these places.
#[tactic(auto, unfolding(crate::specs::File::sections))]
pub fn sections(alloc: Global, p: &Program, at: &Places) -> Result<Vec<SectionRow>, NoMemory>
    requires { at.now ≡ places p.now }
    ensures { IfOk result (λ v. v.items ≡ sections p.now) }
{
    let mut all = Vec::new(alloc);
    all.push(no_section())?;
    push_loaded(&mut all, p)?;
    push_tables(&mut all, p, at)?;
    Ok(all)
}
