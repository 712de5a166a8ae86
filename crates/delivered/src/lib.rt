//! What a run under events delivers, and that it is what the original machine delivers.
#![tactic(auto)]

pub mod build;
pub mod deliver;
pub mod laws;
