//! Tests of calls that are aimed anew.
#![tactic(auto)]

#[cfg(test)]
mod patch_tests;
