//! The file's header and the entries of its tables, at the end of a file.

ghost use Rattle.std.specs.Prelude.{◌≡◌, ◌+◌, ◌-◌, ◌*◌, ◌^◌, ◌<◌, ◌≤◌, ◌++◌, length, OnOk};
ghost use Rattle.elf_make.specs.Rows.{identification, file_header, program_header, section_header, symbol_entry, relocation};

use crate::bytes::{push_u8, push_u16, push_u32, push_u64};
use crate::rows::{FileHeader, SectionRow};
use elf_read::tables::{ProgramHeader, SymbolEntry};
use oc_base::fault::NoMemory;
use rv_asm::symbol::Fixup;

pub(crate) fn push_program_header(out: &mut Vec<u8>, h: &ProgramHeader) -> Result<(), NoMemory>
    ensures { OnOk result (out.new.items ≡ out.old.items ++ program_header h.now) }
{
    push_u32(out, h.kind)?;
    push_u32(out, h.flags)?;
    push_u64(out, h.offset)?;
    push_u64(out, h.address)?;
    push_u64(out, h.address)?;
    push_u64(out, h.file_size)?;
    push_u64(out, h.memory_size)?;
    push_u64(out, 4096)?;
    Ok(())
}

#[tactic(auto, unfolding(crate::specs::Rows::relocation))]
pub(crate) fn push_relocation(out: &mut Vec<u8>, f: &Fixup) -> Result<(), NoMemory>
    requires { f.now.func < 2 ^ 31 }
    ensures { OnOk result (out.new.items ≡ out.old.items ++ relocation f.now) }
{
    push_u64(out, f.at)?;
    push_u64(out, (f.func as u64 + 1) * (1 << 32) + f.kind as u64)?;
    push_u64(out, 0)?;
    Ok(())
}

fn push_identification(out: &mut Vec<u8>) -> Result<(), NoMemory>
    ensures { OnOk result (out.new.items ≡ out.old.items ++ identification) }
{
    let bytes = [0x7F, 0x45, 0x4C, 0x46, 2, 1, 1, 0, 0, 0, 0, 0, 0, 0, 0, 0];
    out.extend_from_slice(&bytes)?;
    Ok(())
}

/// Adds the file's header.
pub(crate) fn push_file_header(out: &mut Vec<u8>, h: &FileHeader) -> Result<(), NoMemory>
    requires { 0 < h.now.section_header_count }
    ensures { OnOk result (out.new.items ≡ out.old.items ++ file_header h.now) }
{
    push_identification(out)?;
    push_u16(out, 2)?;
    push_u16(out, 243)?;
    push_u32(out, 1)?;
    push_u64(out, h.entry)?;
    push_u64(out, 64)?;
    push_u64(out, h.section_headers)?;
    push_u32(out, 0)?;
    push_u16(out, 64)?;
    push_u16(out, 56)?;
    push_u16(out, h.program_header_count)?;
    push_u16(out, 64)?;
    push_u16(out, h.section_header_count)?;
    push_u16(out, h.section_header_count - 1)?;
    Ok(())
}

pub(crate) fn push_section_header(out: &mut Vec<u8>, s: &SectionRow) -> Result<(), NoMemory>
    ensures { OnOk result (out.new.items ≡ out.old.items ++ section_header s.now) }
{
    push_u32(out, s.name)?;
    push_u32(out, s.header.kind)?;
    push_u64(out, s.header.flags)?;
    push_u64(out, s.header.address)?;
    push_u64(out, s.header.offset)?;
    push_u64(out, s.header.size)?;
    push_u32(out, s.header.link)?;
    push_u32(out, s.info)?;
    push_u64(out, s.align)?;
    push_u64(out, s.entry_size)?;
    Ok(())
}

pub(crate) fn push_symbol(out: &mut Vec<u8>, e: &SymbolEntry) -> Result<(), NoMemory>
    ensures { OnOk result (out.new.items ≡ out.old.items ++ symbol_entry e.now) }
{
    push_u32(out, e.name)?;
    push_u8(out, e.info)?;
    push_u8(out, 0)?;
    push_u16(out, e.section)?;
    push_u64(out, e.value)?;
    push_u64(out, e.size)?;
    Ok(())
}
