//! The tables of a file, or the first fault.

ghost use Rattle.std.specs.Prelude.{◌≡◌, ◌≢◌, ◌*◌, ◌<◌, ◌^◌, length, IfOk, IfErr, OnOk, position, Some, None, false};
ghost use Rattle.finite.specs.First.{first_of};
ghost use Rattle.elf_read.specs.declared.fault.ElfFault.TheVariants.{NoMemory};
ghost use Rattle.elf_read.specs.Header.{header_of};
ghost use Rattle.elf_read.specs.Faults.{fault_of, header_faults, table_faults, program_headers, section_headers, is_outside, is_symbols, first_outside_segment, first_outside_section, first_bad_segment, is_too_large};

use crate::bad::first_bad_segment;
use crate::checks::{
    first_outside_section, first_outside_segment, has_text, is_outside, is_too_large, symbol_table,
};
use crate::fault::ElfFault;
use crate::header::{Header, header_of, is_elf, is_riscv64_exec};
use crate::tables::{ProgramHeader, SectionHeader, read_table};
use std::alloc::Global;

/// The header of a file, which holds the two tables that it names.
#[tactic(auto, unfolding(crate::specs::Faults::header_faults))]
fn checked_header(bytes: &[u8]) -> Result<Header, ElfFault>
    ensures none { OnOk result (first_of (header_faults bytes.now) ≡ None) }
    ensures header { IfOk result (λ h. h ≡ header_of bytes.now) }
    ensures headers_inside { IfOk result (λ h. is_outside (length bytes.now) h.program_headers (56 * h.program_header_count) ≡ false) }
    ensures sections_inside { IfOk result (λ h. is_outside (length bytes.now) h.section_headers (64 * h.section_header_count) ≡ false) }
    ensures fault { IfErr result (λ e. first_of (header_faults bytes.now) ≡ Some e) }
{
    if !is_elf(bytes) {
        return Err(ElfFault::NotElf);
    }
    let len = bytes.len();
    if len < 64 {
        return Err(ElfFault::Truncated(0));
    }
    let header = header_of(bytes);
    if !is_riscv64_exec(&header) {
        return Err(ElfFault::NotRiscv64Exec);
    }
    if header.flags & 1 != 0 {
        return Err(ElfFault::Compressed);
    }
    if header.flags & 6 != 0 {
        return Err(ElfFault::FloatAbi);
    }
    let size = 56 * header.program_header_count as u64;
    if is_outside(len, header.program_headers, size) {
        return Err(ElfFault::Truncated(header.program_headers));
    }
    let size = 64 * header.section_header_count as u64;
    if is_outside(len, header.section_headers, size) {
        return Err(ElfFault::Truncated(header.section_headers));
    }
    Ok(header)
}

/// The place of the symbol table among the sections of a file of this length.
#[tactic(auto, unfolding(crate::specs::Faults::table_faults))]
fn checked_tables(
    alloc: Global,
    len: usize,
    headers: &[ProgramHeader],
    sections: &[SectionHeader],
) -> Result<usize, ElfFault>
    requires few_headers { length headers.now < 2 ^ 16 }
    requires few_sections { length sections.now < 2 ^ 16 }
    ensures none { OnOk result (first_of (table_faults len headers.now sections.now) ≡ None) }
    ensures symbols { IfOk result (λ i. position is_symbols sections.now ≡ Some i) }
    ensures segments_inside { OnOk result (first_outside_segment len headers.now ≡ None) }
    ensures sections_inside { OnOk result (first_outside_section len sections.now ≡ None) }
    ensures segments_good { OnOk result (first_bad_segment headers.now ≡ None) }
    ensures room { OnOk result (is_too_large headers.now sections.now ≡ false) }
    ensures fault { IfErr result (λ e. e ≢ NoMemory → first_of (table_faults len headers.now sections.now) ≡ Some e) }
{
    if let Some(offset) = first_outside_segment(len, headers) {
        return Err(ElfFault::Truncated(offset));
    }
    if let Some(offset) = first_outside_section(len, sections) {
        return Err(ElfFault::Truncated(offset));
    }
    if let Some(i) = first_bad_segment(alloc, headers)? {
        return Err(ElfFault::BadSegment(i as u16));
    }
    if is_too_large(headers, sections) {
        return Err(ElfFault::TooLarge);
    }
    if !has_text(sections) {
        return Err(ElfFault::NoText);
    }
    let Some(symbols) = symbol_table(sections) else {
        return Err(ElfFault::NoSymbols);
    };
    Ok(symbols)
}

/// The tables of a file without a fault.
#[derive(Drop)]
pub struct Tables {
    pub header: Header,
    pub headers: Vec<ProgramHeader>,
    pub sections: Vec<SectionHeader>,
    /// The place of the symbol table.
    pub symbols: usize,
}

#[tactic(auto, unfolding(crate::specs::Faults::fault_of, crate::specs::Faults::program_headers, crate::specs::Faults::section_headers), using(finite::proofs::FirstOf::first_passes, finite::proofs::FirstOf::first_stops))]
pub fn tables_of(alloc: Global, bytes: &[u8]) -> Result<Tables, ElfFault>
    ensures none { OnOk result (fault_of bytes.now ≡ None) }
    ensures header { IfOk result (λ t. t.header ≡ header_of bytes.now) }
    ensures headers { IfOk result (λ t. t.headers.items ≡ program_headers bytes.now) }
    ensures sections { IfOk result (λ t. t.sections.items ≡ section_headers bytes.now) }
    ensures symbols { IfOk result (λ t. position is_symbols t.sections.items ≡ Some t.symbols) }
    ensures segments_inside { IfOk result (λ t. first_outside_segment (length bytes.now) t.headers.items ≡ None) }
    ensures sections_inside { IfOk result (λ t. first_outside_section (length bytes.now) t.sections.items ≡ None) }
    ensures segments_good { IfOk result (λ t. first_bad_segment t.headers.items ≡ None) }
    ensures room { IfOk result (λ t. is_too_large t.headers.items t.sections.items ≡ false) }
    ensures fault { IfErr result (λ e. e ≢ NoMemory → fault_of bytes.now ≡ Some e) }
{
    let header = checked_header(bytes)?;
    let headers: Vec<ProgramHeader> = read_table(
        alloc,
        bytes,
        header.program_headers as usize,
        header.program_header_count as usize,
    )?;
    let sections: Vec<SectionHeader> = read_table(
        alloc,
        bytes,
        header.section_headers as usize,
        header.section_header_count as usize,
    )?;
    let symbols = checked_tables(alloc, bytes.len(), &headers, &sections)?;
    Ok(Tables {
        header,
        headers,
        sections,
        symbols,
    })
}
