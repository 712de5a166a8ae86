//! The system calls of a guest: what each reads, answers and leaves.
//!
//! `specs/Calls.antt` says what a call does as a value of what it reads, and what that value leaves. `syscall` does it.
#![tactic(auto)]

mod answers;
mod arguments;
pub mod call;
pub mod effect;
mod files;
mod flags;
mod mapping;
mod ranges;
pub mod service;
pub mod state;
#[cfg(test)]
mod tests;
mod threads;
mod waiting;

/// The end of the addresses at which mappings are made, where the stack begins.
pub const MAP_END: u64 = 0x0f80_0000;

/// The most bytes of an output.
pub const OUTPUT_LIMIT: usize = 16_777_216;

/// The most harts that a run makes.
pub const HART_LIMIT: u32 = 64;
