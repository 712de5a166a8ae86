//! Why words say nothing.

use thiserror::Error;

/// Why words say nothing.
#[derive(Clone, Copy, Debug, PartialEq, Eq, Error)]
pub enum WordsFault {
    /// The words don't have the form that the program asks for.
    #[error("usage")]
    Usage,
    #[error("out of memory")]
    NoMemory,
}
