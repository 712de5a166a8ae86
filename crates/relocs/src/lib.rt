//! An executable's image, from the tables of its file and a region for moved code.
#![tactic(auto)]

pub mod aims;
pub mod build;
pub mod checks;
pub mod cover;
pub mod fault;
pub mod functions;
pub mod holders;
pub mod jumps;
pub mod one;
pub mod parts;
pub mod region;
pub mod rules;
pub mod sections;
pub mod slots;
pub mod targets;
pub mod texts;
