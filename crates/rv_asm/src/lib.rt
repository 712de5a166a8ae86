//! The assembler: from a text to a program, or to the first fault.
#![tactic(auto)]

pub mod assemble;
pub mod code;
pub mod emit;
pub mod fault;
pub mod faults;
pub mod meaning;
pub mod names;
pub mod passes;
pub mod program;
pub mod state;
pub mod step;
pub mod symbol;
#[cfg(test)]
mod tests;

/// The address of the first word of text.
pub const TEXT_START: u64 = 0x10000;

/// The bytes of a page; data start at a multiple of it.
pub const PAGE: u64 = 4096;
