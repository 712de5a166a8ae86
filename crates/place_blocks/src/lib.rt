//! The order of a function's blocks for a profile: blocks that run one after another come to lie so.
#![tactic(auto)]

pub mod chain;
mod edge;
mod find;
pub mod laws;
mod lay;
mod linked;
mod slots;
#[cfg(test)]
mod tests;
mod weigh;
