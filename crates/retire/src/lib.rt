//! Which layouts of moved code nothing refers to any more.
#![tactic(auto)]

pub mod aims;
mod index;
pub mod laws;
mod marks;
pub mod unreferenced;
