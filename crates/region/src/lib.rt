//! The free ranges of the region in which moved code lies.
#![tactic(auto)]

pub mod ranges;
pub mod space;
