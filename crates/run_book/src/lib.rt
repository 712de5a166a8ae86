//! The book behind the lock of a threaded run.
//!
//! `specs/Told.antt` says what a log makes of a world, `specs/Sections.antt` what is kept of a run inside a lock section and between two,
//! and `specs/Booked.antt` what the book's type keeps, out of memory too, and how a run ends.
#![tactic(auto)]

pub mod attempt;
pub mod book;
pub mod ended;
pub mod hand;
pub mod laws;
pub mod next;
pub mod running;
pub mod settle;
pub mod turn;
