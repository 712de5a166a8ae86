//! What the log of a threaded run is as a script: events that make the same run, in range, whose text reads back and isn't too long.
#![tactic(auto)]

pub mod laws;
