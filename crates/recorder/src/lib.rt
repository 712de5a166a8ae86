//! A world that keeps a log of what it is asked for, and that harts leave and come home to.
//!
//! `specs/Journals.antt` says what becomes of the log at each call, and what a log asks for; `specs/Marking.antt` when a snapshot or an
//! attempt is due; `specs/Recording.antt` what a recorded world is, and that it is what its own log makes; `specs/Numbers.antt` how its code
//! and the steps of its harts are numbered; `specs/Leaving.antt` what a hart takes with it, and what it brings home.
#![tactic(auto)]

pub mod fault;
mod journal;
pub mod laws;
pub mod marks;
pub mod recorder;
pub mod stopped;
