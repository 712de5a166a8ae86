//! The book behind the lock of a threaded run, with its counts on a watch.
//!
//! `specs/Boarded.antt` says what is shown of a run while it goes on.
#![tactic(auto)]

pub mod board;
