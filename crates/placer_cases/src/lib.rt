//! Tests of plans of profiles: guests with the transfers of a run, and the plan of these.
#![tactic(auto)]

#[cfg(test)]
mod plan_tests;
#[cfg(test)]
mod runs;
#[cfg(test)]
mod thread_tests;
