//! How a call that runs a program ends: what it reads, why it refuses, what it answers, and what it writes.
#![tactic(auto)]

pub mod answer;
pub mod line;
#[cfg(test)]
mod tests;
pub mod text;
pub mod writing;
