//! The parts that the tables name.

ghost use Rattle.std.specs.Prelude.{◌≡◌, length, position, IfOk, Some, None};
ghost use Rattle.elf_read.specs.Faults.{is_symbols, program_headers, section_headers, first_outside_segment, first_outside_section};
ghost use Rattle.elf_read.specs.Header.{header_of};
ghost use Rattle.elf_read.specs.Parts.{parts_of};

use crate::elf::Elf;
use crate::parts::{relocs, sections, segments, symbols};
use crate::reading::Tables;
use oc_base::fault::NoMemory;
use std::alloc::Global;

#[tactic(auto, unfolding(crate::specs::Parts::parts_of), using(finite::proofs::Finding::place_of))]
pub fn parts_of(alloc: Global, bytes: &[u8], tables: &Tables) -> Result<Elf, NoMemory>
    requires header { tables.now.header ≡ header_of bytes.now }
    requires headers { tables.now.headers.items ≡ program_headers bytes.now }
    requires sections { tables.now.sections.items ≡ section_headers bytes.now }
    requires symbols { position is_symbols tables.now.sections.items ≡ Some tables.now.symbols }
    requires segments_inside { first_outside_segment (length bytes.now) tables.now.headers.items ≡ None }
    requires sections_inside { first_outside_section (length bytes.now) tables.now.sections.items ≡ None }
    ensures { IfOk result (λ elf. elf ≡ parts_of bytes.now) }
{
    let found = symbols(alloc, bytes, &tables.sections, tables.symbols)?;
    let relocs = relocs(
        alloc,
        bytes,
        &tables.sections,
        tables.symbols,
        found.len() as u64,
    )?;
    Ok(Elf {
        entry: tables.header.entry,
        phoff: tables.header.program_headers,
        phnum: tables.header.program_header_count,
        segments: segments(alloc, bytes, &tables.headers)?,
        sections: sections(alloc, &tables.sections)?,
        symbols: found,
        relocs,
    })
}
