//! What a run whose code is moved did to its program, in words and as a drawing.
#![tactic(auto)]

mod moved;
pub mod picture;
mod profile;
mod refused;
mod sent;
mod spot;
pub mod story;
