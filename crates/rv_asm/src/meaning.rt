//! What names stand for.

/// What a name stands for. A label and a function have an address.
#[derive(Clone, Copy, Debug, PartialEq, Eq)]
pub enum Meaning {
    Label { at: u64 },
    /// A function and its number: how many functions were ended before it.
    Function { number: u32, at: u64 },
    Object,
}
