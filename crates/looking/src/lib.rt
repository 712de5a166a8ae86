//! What a person sees of an executable: its functions, and the blocks and instructions of one of them, as text.
#![tactic(auto)]

mod ending;
pub mod func;
pub mod listing;
pub mod overview;
pub mod piece;
