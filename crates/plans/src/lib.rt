//! Plans: which functions move, and in which order their blocks then stand.
#![tactic(auto)]

pub mod laws;
pub mod order;
pub mod plan;
