//! Lists of the members of a set, searches in them, ranges that lie apart, and the lemmas on lists that several crates need.
#![tactic(auto)]

pub mod lists;
pub mod search;
pub mod spans;
