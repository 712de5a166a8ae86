//! Why a gate refuses.

use thiserror::Error;

/// A stop is wanted, so no hart may leave.
#[derive(Clone, Copy, Debug, PartialEq, Eq, Error)]
#[error("a stop is wanted")]
pub struct Held;

/// A hart is away: the least that is.
#[derive(Clone, Copy, Debug, PartialEq, Eq, Error)]
#[error("hart {h} is still away")]
pub struct StillAway {
    pub h: u32,
}
