//! When the machine whose code has been moved stands for the original one, and the laws that keep it so.
//!
//! `specs/Origins.antt` says what an address stands for and which steps the original machine doesn't make; `specs/Related.antt` when a
//! state stands for an original one. The laws speak of code as functions of an address: of one word and its row at a time, of no
//! list of layouts.
#![tactic(auto)]

pub mod laws;
pub mod stepped;
