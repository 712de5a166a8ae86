//! The call behind `ocolos_asm`: it assembles a text and writes the program's file.
#![tactic(auto)]

pub mod answer;
pub mod call;
pub mod decision;
pub mod generate;
pub mod guest;
pub mod instruction;
pub mod words;

/// The most bytes of a text.
pub const TEXT_LIMIT: usize = 67108864;

#[cfg(test)]
mod tests;
