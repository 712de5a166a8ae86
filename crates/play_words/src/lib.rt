//! The words of `ocolos_play`: two names of files or a guest to generate, and options, read as one simple command.
#![tactic(auto)]

mod command;
pub mod words;

/// The most thousands of rounds of a generated guest.
pub const LARGEST_COUNT: u32 = 1000;

#[cfg(test)]
mod tests;
