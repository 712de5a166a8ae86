//! Scripts: what the harts of a run are asked to do, read from lines and written to them.
#![tactic(auto)]

pub mod event;
pub mod facts;
pub mod fault;
pub mod line;
mod parts;
mod plan_line;
pub mod read;
#[cfg(test)]
mod tests;
pub mod write;
