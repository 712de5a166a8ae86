//! The tables of a file, at its end.

ghost use Rattle.std.specs.Prelude.{◌≡◌, ◌+◌, ◌^◌, ◌<◌, ◌++◌, map, IfOk, OnOk};
ghost use Rattle.std.specs.List.{All, filter, flat_map, sum_by};
ghost use Rattle.rv_asm.specs.Kept.{IsSound, symbol_size};
ghost use Rattle.elf_make.specs.Bytes.{number, ended};
ghost use Rattle.elf_make.specs.Rows.{program_header, section_header, symbol_entry, relocation};
ghost use Rattle.elf_make.specs.File.{symbols_of, name_of, is_of};
ghost use Rattle.elf_make.specs.Ranges.{IsInRange, IsFixupInRange};

use crate::bytes::push_u32;
use crate::entries::{push_program_header, push_relocation, push_section_header, push_symbol};
use crate::rows::SectionRow;
use elf_read::tables::{ProgramHeader, SymbolEntry};
use oc_base::fault::NoMemory;
use rv_asm::symbol::{Fixup, Named};

#[tactic(auto, using(crate::proofs::OneMore::flat_more))]
pub(crate) fn push_text(out: &mut Vec<u8>, words: &[u32]) -> Result<(), NoMemory>
    ensures { OnOk result (out.new.items ≡ out.old.items ++ flat_map (number 4) words.now) }
{
    for w in words {
        push_u32(out, *w)?;
    }
    Ok(())
}

#[tactic(auto, using(crate::proofs::OneMore::flat_more))]
pub(crate) fn push_program_headers(
    out: &mut Vec<u8>,
    headers: &[ProgramHeader],
) -> Result<(), NoMemory>
    ensures { OnOk result (out.new.items ≡ out.old.items ++ flat_map program_header headers.now) }
{
    for h in headers {
        push_program_header(out, h)?;
    }
    Ok(())
}

#[tactic(auto, using(crate::proofs::OneMore::flat_more))]
pub(crate) fn push_section_headers(out: &mut Vec<u8>, rows: &[SectionRow]) -> Result<(), NoMemory>
    ensures { OnOk result (out.new.items ≡ out.old.items ++ flat_map section_header rows.now) }
{
    for s in rows {
        push_section_header(out, s)?;
    }
    Ok(())
}

/// Adds the names of functions or objects to a table of strings.
#[tactic(auto, using(crate::proofs::OneMore::names_more))]
pub(crate) fn push_names(out: &mut Vec<u8>, items: &[Named]) -> Result<(), NoMemory>
    ensures { OnOk result (out.new.items ≡ out.old.items ++ flat_map ended (map name_of items.now)) }
{
    for n in items {
        out.extend_from_slice(n.name.as_slice())?;
        out.push(0)?;
    }
    Ok(())
}

fn is_of(f: Fixup, slots: bool) -> bool
    ensures value { result ≡ is_of slots f }
    ensures range { IsFixupInRange f }
{
    if slots { f.kind == 2 } else { f.kind != 2 }
}

/// Adds the relocations of text, or those of slots.
#[tactic(auto, using(finite::proofs::Filtered::flat_map_filter_more))]
pub(crate) fn push_relocations(
    out: &mut Vec<u8>,
    fixups: &[Fixup],
    slots: bool,
) -> Result<(), NoMemory>
    requires { All (λ f. f.func < 2 ^ 31) fixups.now }
    ensures bytes { OnOk result (out.new.items ≡ out.old.items ++ flat_map relocation (filter (is_of slots) fixups.now)) }
    ensures range { OnOk result (All IsFixupInRange fixups.now) }
{
    for f in fixups {
        if is_of(*f, slots) {
            push_relocation(out, f)?;
        }
    }
    Ok(())
}

/// Adds the symbols of functions or objects, whose names stand one after another from a place of the
/// strings on, and answers where the next name stands.
#[tactic(auto, using(crate::proofs::OneMore::symbols_more, crate::proofs::OneMore::size_more))]
pub(crate) fn push_symbols(
    out: &mut Vec<u8>,
    items: &[Named],
    info: u8,
    section: u16,
    name: u32,
) -> Result<u32, NoMemory>
    requires sound { All IsSound items.now }
    requires room { name + sum_by symbol_size items.now < 2 ^ 32 }
    ensures bytes { OnOk result (out.new.items ≡ out.old.items ++ flat_map symbol_entry (symbols_of info section name items.now)) }
    ensures range { OnOk result (All IsInRange items.now) }
    ensures next { IfOk result (λ at. at ≡ name + sum_by symbol_size items.now) }
{
    let mut at = name;
    for n in items {
        let entry = SymbolEntry {
            name: at,
            info,
            section,
            value: n.from,
            size: n.to - n.from,
        };
        push_symbol(out, &entry)?;
        at += n.name.len() as u32 + 1;
    }
    Ok(at)
}
