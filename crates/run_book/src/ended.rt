//! Why a run has ended.

use machine::outcome::Outcome;

/// Why a run has ended.
#[derive(Clone, Copy, Debug, PartialEq, Eq)]
pub enum Ended {
    /// By the guest, or by what it did.
    Outcome(Outcome),
    /// At the limit of real steps, or of entries of the log.
    Limit,
}
