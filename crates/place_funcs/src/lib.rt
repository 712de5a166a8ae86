//! The order of functions that a profile asks for.
#![tactic(auto)]

pub mod closest;
mod count;
mod grouped;
mod groups;
mod join;
pub mod laws;
mod link;
mod merge;
mod order;
mod rows;
mod start;
mod table;
