//! The emitter: the layout of a plan at a base.
#![tactic(auto)]

mod calls;
pub mod draft;
pub mod emit;
pub mod entry;
pub mod fault;
mod lists;
mod place;
mod plan;
mod starts;
mod unplaced;
