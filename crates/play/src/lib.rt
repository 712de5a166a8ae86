//! The call behind `ocolos_play`: it reads a program, a script and an input, runs the program as the script says,
//! and writes what the run delivers.
#![tactic(auto)]

pub mod call;
mod generated;
mod run;
pub mod schedule;

/// The most bytes of a program's file.
pub const PROGRAM_LIMIT: usize = 67108864;

/// The most bytes of a script's file.
pub const SCRIPT_LIMIT: usize = 536870912;

#[cfg(test)]
mod tests;
