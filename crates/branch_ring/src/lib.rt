//! Records of transfers: the last pairs of each hart, and how often each pair stands there.
#![tactic(auto)]

pub mod counted;
pub mod laws;
pub mod profile;
pub mod ring;
pub mod tally;
#[cfg(test)]
mod tests;
