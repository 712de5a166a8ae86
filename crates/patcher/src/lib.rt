//! The patcher: when a new layout is placed, the calls of text and of the live layouts are aimed anew.
#![tactic(auto)]

pub mod aims;
mod apply;
mod calls;
pub mod fault;
pub mod goal;
pub mod laws;
pub mod patches;
mod tally;
pub mod text;
pub mod work;
