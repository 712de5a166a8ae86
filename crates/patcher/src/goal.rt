//! What a call becomes.

use rv_isa::fields::Reg;

/// What the word of a call becomes.
#[derive(Clone, Copy, Debug, PartialEq, Eq)]
pub enum Goal {
    /// A JAL to an address.
    Jump { rd: Reg, to: u64 },
    /// The original word.
    Same(u32),
}

/// A call, and what its word becomes.
#[derive(Clone, Copy, Debug, PartialEq, Eq)]
pub struct Call {
    pub at: u64,
    pub goal: Goal,
}

/// A call that is out of reach of its target.
#[derive(Clone, Copy, Debug, PartialEq, Eq)]
pub struct Out {
    pub at: u64,
    pub target: u64,
}
