//! Worker threads and a placer thread over one book behind a lock.
//!
//! `specs/Ran.antt` says what a run gives: a world that is the run of its own log, which keeps the pace and serves in turn, why the run has
//! ended, and how many real steps the threads counted.
#![tactic(auto)]

mod crew;
mod desk;
mod ending;
mod placing;
pub mod run;
mod working;
