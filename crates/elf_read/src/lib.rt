//! Parts of an executable's bytes, or the first fault in them.
#![tactic(auto)]

pub mod bad;
pub mod checks;
pub mod elf;
pub mod fault;
pub mod fields;
pub mod header;
pub mod parts;
pub mod read;
pub mod reading;
pub mod relocs;
pub mod tables;
pub mod whole;

/// The first address that a segment may have.
pub const LOAD_START: u64 = 0x1000;

/// The end of the addresses that a segment may have.
pub const LOAD_END: u64 = 0x0800_0000;

/// The most bytes that all text sections together may have.
pub const TEXT_LIMIT: u128 = 16777216;
