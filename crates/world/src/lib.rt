//! A machine whose code is moved while it runs.
//!
//! `specs/Worlds.antt` says what it is and keeps, what a step makes of it, and when it stands for a state of the original machine;
//! `specs/Replacing.antt` what a replacement makes of it, and why one is refused; `specs/Retiring.antt` what a retirement does;
//! `specs/Records.antt` what is recorded of a run and what a snapshot is; `specs/Runs.antt` what runs are, and which steps of
//! the original machine they make; `specs/Adopting.antt` what a hart does out of the world, and how the world takes it in.
#![tactic(auto)]

mod adopting;
mod code;
pub mod counts;
mod giving_up;
pub mod laws;
mod live;
mod place;
mod points;
mod rings;
pub mod shared;
mod slots;
mod told;
pub mod world;
