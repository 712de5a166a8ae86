//! Edges between blocks.

/// From one block to another, by their numbers, and how often a profile saw it.
#[derive(Clone, Copy, Debug, PartialEq, Eq)]
pub struct WeighedEdge {
    pub from: u32,
    pub to: u32,
    pub weight: u64,
}
