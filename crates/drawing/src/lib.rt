//! A picture of a program's code and of where it moved, as SVG.
#![tactic(auto)]

mod function;
mod layout;
mod mark;
pub mod parts;
pub mod picture;
pub mod strip;
#[cfg(test)]
mod tests;
