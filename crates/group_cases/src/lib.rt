//! Tests of the order of functions: profiles with the order that they ask for.
#![tactic(auto)]

#[cfg(test)]
mod order_tests;
