//! Numbers with tags, and what the monitor forbids of a link.
//!
//! A value is a number that is `Plain`, or a `Link`: a return address, or a code pointer of a table of virtual functions.
//! A link may be moved and jumped through; any other use would tell the program where its code stands.
#![tactic(auto)]

pub mod monitor;
pub mod origins;
#[cfg(test)]
mod tests;
pub mod value;
