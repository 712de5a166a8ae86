//! One hart, and what an instruction does to it and to memory.
//!
//! `specs/Effects.antt` says what an instruction does, as a value, and what that value leaves. `act` does it.
#![tactic(auto)]

pub mod act;
pub mod hart;
mod memory;
#[cfg(test)]
mod tests;
mod words;
