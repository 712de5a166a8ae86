//! Tests of worlds: guests as text, whose code is moved while they run.
#![tactic(auto)]

#[cfg(test)]
mod replacement_tests;
#[cfg(test)]
mod telling;
