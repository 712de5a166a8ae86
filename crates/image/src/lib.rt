//! An executable as the machine sees it: its words, its data, and the places that name its functions.
#![tactic(auto)]

pub mod funcs;
pub mod picture;
pub mod ranges;
pub mod targets;
pub mod texts;
