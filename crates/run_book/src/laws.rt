//! The law of a log as it is told, for callers' proofs. The function does nothing.

ghost use Rattle.std.specs.Prelude.{◌≡◌, ℕ, List, length, map};
ghost use Rattle.sched_log.specs.declared.event.Event.{Event};
ghost use Rattle.pacing.specs.Clocks.{reals};
ghost use Rattle.pacing.specs.Logs.{steps_of};
ghost use Rattle.recorder.specs.Recording.{Recorded};
ghost use Rattle.run_book.specs.Told.{told};

/// The law of a told log: it has as many entries as were recorded, and the same real steps.
pub fn told_law()
    ensures length { (r : Recorded) → length (told r) ≡ length r.journal.entries }
    ensures steps { (r : Recorded) → steps_of (told r) ≡ steps_of r.journal.entries }
    ensures reals { (r : Recorded) → reals (told r) ≡ reals r.journal.entries }
{}
