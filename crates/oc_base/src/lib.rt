//! The outside as Marangdeck sees it: sources, sinks and files whose meaning contracts can name,
//! and the small types that every crate above shares.
#![tactic(auto)]

pub mod calls;
pub mod fault;
pub mod files;
pub mod items;
pub mod memory;
pub mod pace;
pub mod range;
pub mod real;
pub mod sink;
pub mod source;
#[cfg(test)]
mod tests;
pub mod text;
