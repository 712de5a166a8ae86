//! Tests of layouts that nothing refers to.
#![tactic(auto)]

#[cfg(test)]
mod retire_tests;
