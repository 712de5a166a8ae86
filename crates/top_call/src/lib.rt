//! What every top call shares: what it reads, why it refuses, and what it has written by the time that it answers.
#![tactic(auto)]

pub mod reading;
pub mod words;
pub mod writing;

/// The most bytes of an input.
pub const INPUT_LIMIT: usize = 16777216;
