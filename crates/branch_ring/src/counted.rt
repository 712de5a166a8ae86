//! A line of a profile.

/// How often a program went from one address to another.
#[derive(Clone, Copy, Debug, PartialEq, Eq)]
pub struct Counted {
    pub from: u64,
    pub to: u64,
    pub count: u64,
}
