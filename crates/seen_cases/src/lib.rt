//! Tests of what is told of a run in words and as a drawing: guests as text, whose code is moved while they run.
#![tactic(auto)]

#[cfg(test)]
mod listing;
#[cfg(test)]
mod picture_tests;
#[cfg(test)]
mod story_tests;
#[cfg(test)]
mod telling;
