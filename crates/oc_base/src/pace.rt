//! Places where threads can be held back.

/// What the threads of a run call at some places, while they hold no lock. The calls have no meaning: they may hold a thread back, as a
/// test of two that meet does. `A` is what a thread takes with it out of the lock. By default nothing is done.
pub trait Pace<A> {
    /// Before round number `round` of a worker.
    fn before(&self, _worker: u32, _round: u64) {}

    /// A worker has made its steps out of the lock, and has yet to bring them home.
    fn away(&self, _worker: u32, _round: u64, _away: &A) {}

    /// The plan of a job was worked out, and lies where the workers find it.
    fn placed(&self, _job: u64) {}
}

/// Holds nothing back.
pub struct NoPace;

impl<A> Pace<A> for NoPace {}
