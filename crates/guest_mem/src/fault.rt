//! Why memory refuses an access.

/// Why a load is refused.
#[derive(Clone, Copy, Debug, PartialEq, Eq)]
pub enum Access {
    /// The address is no multiple of the width.
    Misaligned,
    /// A byte lacks the right.
    NoAccess,
}

/// Why a store or a transfer of bytes is refused.
#[derive(Clone, Copy, Debug, PartialEq, Eq)]
pub enum StoreFault {
    /// The address is no multiple of the width.
    Misaligned,
    /// A byte lacks the right.
    NoAccess,
    /// There was no room in memory.
    NoMemory,
}
