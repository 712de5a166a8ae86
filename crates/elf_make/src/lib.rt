//! The file of a program: an executable that holds its words, bytes, symbols and relocations.
#![tactic(auto)]

pub mod bytes;
pub mod entries;
pub mod make;
pub mod read_back;
pub mod rows;
pub mod sections;
pub mod tables;
#[cfg(test)]
mod tests;
