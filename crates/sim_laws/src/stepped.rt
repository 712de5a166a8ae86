//! What a step was.

/// What a step of a machine whose code has been moved was for the original one.
#[derive(Clone, Copy, Debug, PartialEq, Eq, Drop)]
pub enum Stepped {
    /// One step of the original machine. So is an idle one.
    Real,
    /// No step of it: a jump that was added, or the first of the two words that make an address.
    Layout,
    /// None was made, since the run had ended.
    Over,
}
