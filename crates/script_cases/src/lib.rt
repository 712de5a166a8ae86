//! Tests of scripts: what they are read as for the image of a guest.
#![tactic(auto)]

#[cfg(test)]
mod script_tests;
