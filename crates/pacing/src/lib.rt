//! Which logs of a threaded run keep the pace and serve each hart in turn, and what is kept of a log as it grows.
//!
//! `specs/Pacing.antt` says when a log keeps the pace, `specs/Serving.antt` when it serves the harts in rotation; `specs/Keeping.antt` and
//! `specs/Bounds.antt` say what is kept of it inside a lock section and between two. All are told of the original machine: a log's real
//! steps are its steps, so no machine whose code has been moved is asked.
#![tactic(auto)]

pub mod laws;
