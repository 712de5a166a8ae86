//! What the file's header and its sections say.

use elf_read::tables::SectionHeader;

/// What the file's header says of this file.
#[derive(Clone, Copy, Debug)]
pub struct FileHeader {
    pub entry: u64,
    /// Where the section headers stand.
    pub section_headers: u64,
    pub program_header_count: u16,
    pub section_header_count: u16,
}

/// A section header, with the fields that no reader of this repository needs.
#[derive(Clone, Copy, Debug)]
pub struct SectionRow {
    /// The place of its name in the table of the sections' names.
    pub name: u32,
    pub header: SectionHeader,
    pub info: u32,
    pub align: u64,
    pub entry_size: u64,
}

/// Where a part of the file stands, and its bytes.
#[derive(Clone, Copy, Debug)]
pub struct Place {
    pub offset: u64,
    pub size: u64,
}

/// Where the tables stand that aren't loaded.
#[derive(Clone, Copy, Debug)]
pub struct Places {
    pub symbols: Place,
    pub names: Place,
    pub text_relocations: Place,
    pub data_relocations: Place,
    pub section_names: Place,
}
