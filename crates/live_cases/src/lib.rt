//! Tests of `live`: guests run by threads of the host, over devices in memory; and the records of such runs, played again.
#![tactic(auto)]

#[cfg(test)]
mod calls;
#[cfg(test)]
mod count_tests;
#[cfg(test)]
mod end_tests;
#[cfg(test)]
mod looking;
#[cfg(test)]
mod meeting;
#[cfg(test)]
mod meeting_tests;
#[cfg(test)]
mod record_tests;
#[cfg(test)]
mod stranger_tests;
