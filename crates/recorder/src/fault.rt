//! Why a hart doesn't leave.

use thiserror::Error;

/// Why a hart isn't let go.
#[derive(Clone, Copy, Debug, PartialEq, Eq, Error)]
pub enum AwayFault {
    #[error("a stop is wanted")]
    Held,
    /// It isn't live, or the run has ended.
    #[error("the hart can't make a step")]
    NotLive,
    #[error("out of memory")]
    NoMemory,
}
