//! Steps of one hart outside the world's lock.
//!
//! `specs/Notes.antt` says what is compared of a note; `specs/Flown.antt` what a hart that is away has, what its notes are good for, and the
//! list of comparisons that lets it come home; `specs/Going.antt` where it stops; `specs/Making.antt` how steps are made, for the crate's own use.
#![tactic(auto)]

pub mod ahead;
pub mod away;
mod comparing;
mod course;
mod going;
pub mod home;
pub mod note;
