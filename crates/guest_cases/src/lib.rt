//! Tests of guests as text: assembled by `guest_gen`, and run by `play`; and calls over devices in memory that can't fail.
#![tactic(auto)]

pub mod asked;
#[cfg(test)]
mod asked_tests;
#[cfg(test)]
mod run_tests;
pub mod sure;
