//! The laws of a log as a script, for callers' proofs. The functions do nothing.
ghost use Rattle.std.specs.Prelude.{ℕ, ◌+◌, ◌*◌, ◌≤◌, List, length};
ghost use Rattle.image.specs.Picture.{Picture, IsKept};
ghost use Rattle.guest_sys.specs.Limits.{hart_limit};
ghost use Rattle.machine.specs.States.{State};
ghost use Rattle.sched_log.specs.declared.event.Event.{Event};
ghost use Rattle.sched_log.specs.Printed.{printed, ReadsAs};
ghost use Rattle.sched_log.specs.Ranges.{AreInRange};
ghost use Rattle.sched_log.specs.Limits.{count_limit};
ghost use Rattle.pacing.specs.Logs.{steps_of, state_at};
ghost use Rattle.pacing.specs.Clocks.{reals};
ghost use Rattle.pacing.specs.Pacing.{Paced};
ghost use Rattle.world.specs.Worlds.{Replaced};
ghost use Rattle.run_book.specs.Told.{MakesAll};
ghost use Rattle.delivered.specs.Events.{Plays};

/// The law of a log as events: what its entries make of a world is what they make as the events of a script, by the log's own real steps.
pub fn plays_law()
    ensures { (log : List Event) (w v : Replaced) → MakesAll log w v → Plays log (steps_of log) w v }
{}

/// The law of a record: a log that keeps the pace, of no more harts and real steps than a script may speak of, asks for what a script can ask
/// for; its text reads back as the log; and the text has at most 11 bytes an entry, and four for its end.
pub fn record_law()
    ensures range { (p : Picture) (start : State) (every : ℕ) (log : List Event) → Paced p start every log → length (state_at p start log).harts ≤ hart_limit → reals log ≤ count_limit
        → AreInRange p log }
    ensures back { (p : Picture) (start : State) (every : ℕ) (log : List Event) → IsKept p → Paced p start every log → length (state_at p start log).harts ≤ hart_limit → reals log ≤ count_limit
        → ReadsAs p log (printed log) }
    ensures text { (p : Picture) (start : State) (every : ℕ) (log : List Event) → Paced p start every log → length (state_at p start log).harts ≤ hart_limit
        → length (printed log) ≤ 11 * length log + 4 }
{}
