//! The words of `ocolos`: the name of a program and options, read as one simple command.
#![tactic(auto)]

mod command;
pub mod words;

/// The most workers.
pub const MOST_WORKERS: u32 = 16;

/// The workers where no option says how many.
pub const USUAL_WORKERS: u32 = 2;

/// The most real steps that an option may name.
pub const MOST_STEPS: u32 = 100000000;

/// The real steps up to a snapshot where no option says how many.
pub const USUAL_EVERY: u32 = 100000;

/// The real steps of a run where no option says how many.
pub const USUAL_LIMIT: u32 = 20000000;

#[cfg(test)]
mod tests;
