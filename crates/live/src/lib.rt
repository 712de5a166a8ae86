//! The call behind `ocolos`: it reads a program and an input, runs the program by threads, and writes what the run delivers, with a
//! record from which the run can be had again.
#![tactic(auto)]

pub mod call;
pub mod life;
pub mod lived;
mod run;
mod telling;
mod writing;

/// The most bytes of a program's file.
pub const PROGRAM_LIMIT: usize = 67108864;
