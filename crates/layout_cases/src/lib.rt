//! Tests of moved code: the blocks of guests, plans of them, layouts; and free ranges.
#![tactic(auto)]

#[cfg(test)]
mod block_tests;
#[cfg(test)]
mod layout_tests;
#[cfg(test)]
mod plan_tests;
#[cfg(test)]
mod region_tests;
