//! The counts of a run.

ghost use Rattle.std.specs.Prelude.{◌≡◌};
ghost use Rattle.world.specs.Worlds.{more, counted};

use sim_laws::stepped::Stepped;

/// Counts of a run. Each stays at the greatest number of 64 bits once it is there.
#[derive(Clone, Copy, Debug, PartialEq, Eq)]
pub struct Counts {
    /// Steps of the original machine, idle ones included.
    pub real: u64,
    /// Steps of layouts alone.
    pub layout: u64,
    /// Snapshots of the last transfers.
    pub snaps: u64,
    /// Attempts to replace code.
    pub attempts: u64,
    /// Attempts that weren't refused.
    pub done: u64,
    /// Layouts that were made.
    pub placed: u64,
}

/// One more.
pub fn more(n: u64) -> u64
    ensures { result ≡ more n }
{
    n.saturating_add(1)
}

impl Counts {
    pub fn zero() -> Counts
        ensures { result ≡ record { real = 0; layout = 0; snaps = 0; attempts = 0; done = 0; placed = 0 } }
    {
        Counts {
            real: 0,
            layout: 0,
            snaps: 0,
            attempts: 0,
            done: 0,
            placed: 0,
        }
    }

    /// Counts a snapshot.
    pub fn snap(&mut self)
        ensures { self.new ≡ record self.old { snaps = more self.old.snaps } }
    {
        self.snaps = more(self.snaps);
    }

    /// Counts an attempt.
    pub fn attempt(&mut self)
        ensures { self.new ≡ record self.old { attempts = more self.old.attempts } }
    {
        self.attempts = more(self.attempts);
    }

    /// Counts an attempt that wasn't refused.
    pub fn finish(&mut self)
        ensures { self.new ≡ record self.old { attempts = more self.old.attempts; done = more self.old.done } }
    {
        self.attempts = more(self.attempts);
        self.done = more(self.done);
    }

    /// Counts a step.
    pub fn count(&mut self, kind: Stepped)
        ensures { self.new ≡ counted kind self.old }
    {
        match kind {
            Stepped::Real => self.real = more(self.real),
            Stepped::Layout => self.layout = more(self.layout),
            Stepped::Over => {}
        }
    }
}
