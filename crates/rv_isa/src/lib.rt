//! The instructions of RV64IMA as values.
//!
//! `specs/Reads.antt` says which instruction a word reads as.
#![tactic(auto)]

pub mod fields;
pub mod instr;
