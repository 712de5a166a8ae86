//! The call behind `ocolos_look`: it reads a program and writes what is to be seen of it, or of a run.
#![tactic(auto)]

pub mod about;
pub mod answer;
pub mod call;
pub mod decision;
mod meaning;
mod opened;
mod run;
mod show;

/// The most bytes of a program's file.
pub const PROGRAM_LIMIT: usize = 67108864;

/// The most bytes of a script's file.
pub const SCRIPT_LIMIT: usize = 536870912;
