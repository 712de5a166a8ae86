//! What a log of steps looks like, for callers' proofs. The function does nothing.

ghost use Rattle.std.specs.Prelude.{◌≡◌, ◌<◌, ◌+◌, ◌++◌, ◌∷◌, [], ℕ, List, true, false};
ghost use Rattle.sched_log.specs.declared.event.Event.{Event as EventData};
ghost use Rattle.recorder.specs.declared.journal.Asked.{Asked};
ghost use Rattle.recorder.specs.Journals.{Journal, count_limit, entry_of, noted};

/// The law of steps in a log: the first after an entry that is ended has an entry of its own, and each further one of its kind and hart
/// is counted there, below the greatest count.
pub fn steps_law()
    ensures first { (a : Asked) (es : List EventData) → noted false a (record { entries = es; is_open = false }) ≡ record { entries = es ++ entry_of a 1 ∷ []; is_open = true } }
    ensures further { (a : Asked) (n : ℕ) (es : List EventData) → n < count_limit → noted false a (record { entries = es ++ entry_of a n ∷ []; is_open = true }) ≡ record { entries = es ++ entry_of a (n + 1) ∷ []; is_open = true } }
{}
