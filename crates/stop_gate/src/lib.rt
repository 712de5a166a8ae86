//! Which harts are away from the shared state, and whether a stop is wanted.
#![tactic(auto)]

pub mod fault;
pub mod gate;
#[cfg(test)]
mod tests;
