use std::alloc::{AllocError, AllocFailed};

/// A device refused a call.
#[derive(Clone, Copy, Debug, PartialEq, Eq)]
pub struct Failed;

/// There was no room in memory.
#[derive(Clone, Copy, Debug, PartialEq, Eq)]
pub struct NoMemory;

impl From<AllocError> for NoMemory {
    fn from(_error: AllocError) -> Self {
        NoMemory
    }
}

impl<T: Drop> From<AllocFailed<T>> for NoMemory {
    fn from(_error: AllocFailed<T>) -> Self {
        NoMemory
    }
}

/// Why a whole file or source was not read.
#[derive(Clone, Copy, Debug, PartialEq, Eq)]
pub enum TakeFault {
    /// The device failed; a missing file is such a failure.
    Failed,
    /// There are more bytes than were allowed.
    TooLong,
    /// There was no room in memory.
    NoMemory,
}
