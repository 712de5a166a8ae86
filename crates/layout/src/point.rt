//! What a word of a layout stands for.

/// What a word of a layout stands for, by an address of the original program.
#[derive(Clone, Copy, Debug, PartialEq, Eq)]
pub enum Point {
    /// The first word for the original word at this address.
    Start(u64),
    /// A jump that was added, to a Start of this address.
    Hop(u64),
    /// The second word for an AUIPC that was moved from this address.
    Mid(u64),
}
