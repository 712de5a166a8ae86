//! Tests of logs: what worlds were asked for, and what is due; and of harts that leave and come home.
#![tactic(auto)]

#[cfg(test)]
mod tests;
#[cfg(test)]
mod visit_tests;
