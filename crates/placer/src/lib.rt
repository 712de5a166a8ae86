//! The plan that a profile asks for.
#![tactic(auto)]

mod blocks_of;
mod choose;
pub mod laws;
mod order;
mod parts;
pub mod place;
pub mod placed;
pub mod plan;
mod rows;
mod share;
mod spread;
