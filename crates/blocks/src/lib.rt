//! The basic blocks of a function.
#![tactic(auto)]

mod cut;
pub mod fault;
pub mod index;
pub mod laws;
mod read;
pub mod recover;
pub mod run;
pub mod word;
