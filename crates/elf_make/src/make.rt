//! The file of a program.

ghost use Rattle.std.specs.Prelude.{◌≡◌, ◌+◌, ◌^◌, ◌<◌, ◌≤◌, ◌++◌, [], length, drop, replicate, IfOk, OnOk, Some, None};
ghost use Rattle.std.specs.List.{All, filter, flat_map};
ghost use Rattle.elf_read.specs.Faults.{fault_of};
ghost use Rattle.elf_read.specs.Parts.{parts_of};
ghost use Rattle.elf_read.specs.declared.fault.ElfFault.TheVariants.{NoText};
ghost use Rattle.elf_make.specs.Bytes.{laid};
ghost use Rattle.elf_make.specs.Rows.{file_header, program_header, section_header, relocation};
ghost use Rattle.elf_make.specs.File.{text_bytes, text_size, data_offset, segments, sections, sections_at, header_of, symbol_table, names, is_of, section_names, section_names_at, loaded_parts, table_parts, elf_of};
ghost use Rattle.elf_make.specs.Parts.{elf_parts};
ghost use Rattle.elf_make.specs.Places.{places};
ghost use Rattle.elf_make.specs.Ranges.{IsInRange, IsFixupInRange, IsProgramInRange};

use crate::bytes::{fill, place, place_next};
use crate::entries::{push_file_header, push_symbol};
use crate::rows::{FileHeader, Places};
use crate::sections::{data_offset, has_data, sections, segments};
use crate::tables::{
    push_names, push_program_headers, push_relocations, push_section_headers, push_symbols,
    push_text,
};
use elf_read::tables::SymbolEntry;
use oc_base::fault::NoMemory;
use oc_base::items::Items;
use rv_asm::program::Program;
use std::alloc::Global;

#[tactic(auto, unfolding(crate::specs::File::text_bytes), using(crate::proofs::Lengths::text_length))]
fn text_bytes(alloc: Global, p: &Program) -> Result<Vec<u8>, NoMemory>
    ensures bytes { IfOk result (λ v. v.items ≡ text_bytes p.now) }
    ensures len { IfOk result (λ v. length v.items ≡ text_size p.now) }
{
    let mut out = Vec::new(alloc);
    push_text(&mut out, p.text.as_slice())?;
    Ok(out)
}

/// Room for the header, and what is loaded.
#[tactic(auto, unfolding(crate::specs::File::loaded_parts, crate::specs::Bytes::laid, crate::specs::File::segments))]
fn loaded(alloc: Global, p: &Program) -> Result<Vec<u8>, NoMemory>
    ensures parts { IfOk result (λ file. file.items ≡ laid (replicate 64 0) (loaded_parts p.now)) }
    ensures len { IfOk result (λ file. length file.items ≡ data_offset p.now + length p.now.bytes) }
    ensures room { IfOk result (λ file. 64 ≤ length file.items) }
{
    let headers = program_headers(alloc, p)?;
    let text = text_bytes(alloc, p)?;
    let mut file = Vec::new(alloc);
    fill(&mut file, 64)?;
    place(&mut file, 64, &headers)?;
    place(&mut file, 0x1000, &text)?;
    place(&mut file, data_offset(p) as usize, p.bytes.as_slice())?;
    Ok(file)
}

#[tactic(auto, unfolding(crate::specs::File::segments), using(crate::proofs::Lengths::headers_size))]
fn program_headers(alloc: Global, p: &Program) -> Result<Vec<u8>, NoMemory>
    ensures bytes { IfOk result (λ v. v.items ≡ flat_map program_header (segments p.now)) }
    ensures small { IfOk result (λ v. length v.items < 256) }
{
    let headers = segments(alloc, p)?;
    let mut out = Vec::new(alloc);
    push_program_headers(&mut out, &headers)?;
    Ok(out)
}

#[tactic(auto, unfolding(crate::specs::File::symbol_table, crate::specs::File::symbol_entries))]
fn symbol_table(alloc: Global, p: &Program) -> Result<Vec<u8>, NoMemory>
    ensures bytes { IfOk result (λ v. v.items ≡ symbol_table p.now) }
    ensures funcs { OnOk result (All IsInRange p.now.funcs) }
    ensures objects { OnOk result (All IsInRange p.now.objects) }
{
    let mut out = Vec::new(alloc);
    let none = SymbolEntry {
        name: 0,
        info: 0,
        section: 0,
        value: 0,
        size: 0,
    };
    push_symbol(&mut out, &none)?;
    let next = push_symbols(&mut out, p.funcs.as_slice(), 2, 1, 1)?;
    push_symbols(&mut out, p.objects.as_slice(), 1, 2, next)?;
    Ok(out)
}

#[tactic(auto, unfolding(crate::specs::File::names, crate::specs::Bytes::string_table))]
fn names(alloc: Global, p: &Program) -> Result<Vec<u8>, NoMemory>
    ensures { IfOk result (λ v. v.items ≡ names p.now) }
{
    let mut out = Vec::new(alloc);
    out.push(0)?;
    push_names(&mut out, p.funcs.as_slice())?;
    push_names(&mut out, p.objects.as_slice())?;
    Ok(out)
}

/// The relocations of text, or those of slots.
#[tactic(auto, using(crate::proofs::Lengths::few))]
fn relocations(alloc: Global, p: &Program, slots: bool) -> Result<Vec<u8>, NoMemory>
    ensures bytes { IfOk result (λ v. v.items ≡ flat_map relocation (filter (is_of slots) p.now.fixups)) }
    ensures range { OnOk result (All IsFixupInRange p.now.fixups) }
{
    let mut out = Vec::new(alloc);
    push_relocations(&mut out, p.fixups.as_slice(), slots)?;
    Ok(out)
}

#[tactic(auto, unfolding(crate::specs::File::section_names, crate::specs::Bytes::string_table))]
fn section_names(alloc: Global, p: &Program) -> Result<Vec<u8>, NoMemory>
    ensures { IfOk result (λ v. v.items ≡ section_names p.now) }
{
    let mut out = Vec::from_slice(alloc, b"\0.text\0")?;
    if has_data(p) {
        out.extend_from_slice(b".data\0")?;
    }
    out.extend_from_slice(b".symtab\0.strtab\0.rela.text\0.rela.data\0.shstrtab\0")?;
    Ok(out)
}

/// Adds the tables that aren't loaded, and answers where they stand.
#[tactic(auto, unfolding(crate::specs::Places::places, crate::specs::File::table_parts, crate::specs::Bytes::laid, crate::specs::File::symbols_at, crate::specs::File::names_at, crate::specs::File::text_relocations_at, crate::specs::File::data_relocations_at, crate::specs::File::section_names_at, crate::specs::File::text_relocations, crate::specs::File::data_relocations))]
fn place_tables(file: &mut Vec<u8>, alloc: Global, p: &Program) -> Result<Places, NoMemory>
    requires { length file.old.items ≡ data_offset p.now + length p.now.bytes }
    ensures parts { OnOk result (file.new.items ≡ laid file.old.items (table_parts p.now)) }
    ensures places { IfOk result (λ at. at ≡ places p.now) }
    ensures len { OnOk result (length file.new.items ≡ section_names_at p.now + length (section_names p.now)) }
    ensures grows { OnOk result (length file.old.items ≤ length file.new.items) }
    ensures funcs { OnOk result (All IsInRange p.now.funcs) }
    ensures objects { OnOk result (All IsInRange p.now.objects) }
    ensures fixups { OnOk result (All IsFixupInRange p.now.fixups) }
{
    let symbols = symbol_table(alloc, p)?;
    let names = names(alloc, p)?;
    let text_relocations = relocations(alloc, p, false)?;
    let data_relocations = relocations(alloc, p, true)?;
    let section_names = section_names(alloc, p)?;
    let symbols = place_next(file, &symbols)?;
    let names = place_next(file, &names)?;
    let text_relocations = place_next(file, &text_relocations)?;
    let data_relocations = place_next(file, &data_relocations)?;
    let section_names = place_next(file, &section_names)?;
    Ok(Places {
        symbols,
        names,
        text_relocations,
        data_relocations,
        section_names,
    })
}

fn section_headers(alloc: Global, p: &Program, at: &Places) -> Result<Vec<u8>, NoMemory>
    requires { at.now ≡ places p.now }
    ensures { IfOk result (λ v. v.items ≡ flat_map section_header (sections p.now)) }
{
    let rows = sections(alloc, p, at)?;
    let mut out = Vec::new(alloc);
    push_section_headers(&mut out, &rows)?;
    Ok(out)
}

fn entry(p: &Program) -> u64
    ensures value { result ≡ p.now.entry }
    ensures fits { result < 2 ^ 64 }
{
    p.entry
}

/// The file's header, with the program's entry and the place of the section headers.
#[tactic(auto, unfolding(crate::specs::File::sections, crate::specs::File::segments), using(crate::proofs::Lengths::header_size))]
fn header(alloc: Global, p: &Program, entry: u64, sections: u64) -> Result<Vec<u8>, NoMemory>
    requires entry { entry ≡ p.now.entry }
    requires sections { sections ≡ sections_at p.now }
    ensures bytes { IfOk result (λ v. v.items ≡ file_header (header_of p.now)) }
    ensures len { IfOk result (λ v. length v.items ≡ 64) }
{
    let header = FileHeader {
        entry,
        section_headers: sections,
        program_header_count: if has_data(p) { 2 } else { 1 },
        section_header_count: if has_data(p) { 8 } else { 7 },
    };
    let mut out = Vec::new(alloc);
    push_file_header(&mut out, &header)?;
    Ok(out)
}

/// Writes the header into the room that is left for it.
fn put_header(file: &mut [u8], header: &[u8])
    requires header { length header.now ≡ 64 }
    requires room { 64 ≤ length file.old }
    ensures { file.new ≡ header.now ++ drop 64 file.old }
{
    file[..64].copy_from_slice(header);
}

/// All of the file.
#[tactic(auto, unfolding(crate::specs::File::sections_at), using(crate::proofs::Wholly::whole_is))]
fn whole(alloc: Global, p: &Program) -> Result<Vec<u8>, NoMemory>
    ensures file { IfOk result (λ v. v.items ≡ elf_of p.now) }
    ensures range { OnOk result (IsProgramInRange p.now) }
{
    let mut file = loaded(alloc, p)?;
    let at = place_tables(&mut file, alloc, p)?;
    let last = place_next(&mut file, &section_headers(alloc, p, &at)?)?;
    let header = header(alloc, p, entry(p), last.offset)?;
    put_header(&mut file, &header);
    Ok(file)
}

/// The file of a program. Where the program has a word of text, reading the file gives the program's parts, and
/// where it has none, that there is no text.
pub fn make_elf(alloc: Global, p: &Program) -> Result<Items<u8>, NoMemory>
    ensures file { IfOk result (λ bytes. bytes ≡ elf_of p.now) }
    ensures no_fault { IfOk result (λ bytes. 0 < length p.now.text → fault_of bytes ≡ None) }
    ensures read_back { IfOk result (λ bytes. 0 < length p.now.text → parts_of bytes ≡ elf_parts p.now) }
    ensures no_text { IfOk result (λ bytes. p.now.text ≡ [] → fault_of bytes ≡ Some NoText) }
{
    let file = whole(alloc, p)?;
    Ok(Items::from_vec(file))
}
