//! When the last snapshot and the last attempt to replace code were made, and what is due.

ghost use Rattle.std.specs.Prelude.{◌≡◌, ◌≤◌, false, if◌then◌else◌};
ghost use Rattle.recorder.specs.Marking.{AreReached, unmarked, is_past, due_of, snapped, attempted};

/// The real steps by then, 0 before the first. A snapshot is pending until the next attempt.
#[derive(Clone, Copy, Debug, PartialEq, Eq)]
pub struct Marks {
    pub attempted_at: u64,
    pub snapped_at: u64,
    pub pending: bool,
}

/// What is due.
#[derive(Clone, Copy, Debug, PartialEq, Eq)]
pub enum Due {
    Nothing,
    Snap,
    /// The attempt that the last snapshot is for.
    Pending,
    /// The same, and late.
    Overdue,
}

/// Whether so many real steps or more were made since a mark.
fn is_past(every: u64, mark: u64, real: u64) -> bool
    requires { mark ≤ real }
    ensures { result ≡ is_past every mark real }
{
    every <= real - mark
}

impl Marks {
    pub fn none() -> Marks
        ensures { result ≡ unmarked }
    {
        Marks {
            attempted_at: 0,
            snapped_at: 0,
            pending: false,
        }
    }

    /// Marks a snapshot.
    pub fn snap(&mut self, real: u64)
        ensures { self.new ≡ snapped false real self.old }
    {
        self.snapped_at = real;
        self.pending = true;
    }

    /// Marks an attempt.
    pub fn attempt(&mut self, real: u64)
        ensures { self.new ≡ attempted false real self.old }
    {
        self.attempted_at = real;
        self.pending = false;
    }

    fn overdue_or_pending(self, every: u64, real: u64) -> Due
        requires { self.snapped_at ≤ real }
        ensures { result ≡ (if is_past every self.snapped_at real then Due.Overdue else Due.Pending) }
    {
        if is_past(every, self.snapped_at, real) {
            Due::Overdue
        } else {
            Due::Pending
        }
    }

    /// What is due after so many real steps.
    pub fn due(self, every: u64, real: u64) -> Due
        requires { AreReached real self }
        ensures { result ≡ due_of every real self }
    {
        if self.pending {
            return self.overdue_or_pending(every, real);
        }
        if is_past(every, self.attempted_at, real) {
            return Due::Snap;
        }
        Due::Nothing
    }
}
