//! What a run of events from the start delivers, for callers' proofs. Each function does nothing.

ghost use Rattle.std.specs.Prelude.{◌≡◌, ℕ, Bool, List};
ghost use Rattle.image.specs.Picture.{Picture, IsKept};
ghost use Rattle.machine.specs.Start.{start_of};
ghost use Rattle.machine.specs.declared.outcome.Outcome.{Outcome as OutcomeData};
ghost use Rattle.sched_log.specs.declared.event.Event.{Event as EventData};
ghost use Rattle.world.specs.Worlds.{Replaced, started};
ghost use Rattle.delivered.specs.Deliveries.{delivery_of};
ghost use Rattle.delivered.specs.Events.{Plays};
ghost use Rattle.delivered.specs.Headline.{Headline};

use placer::laws::one_plan;

/// Says that what a run of events delivers is what the original machine delivers by the same real steps.
pub fn headline_law()
    ensures { (image : Picture) (events : List EventData) (ring : ℕ) (input harts : List ℕ) (world : Replaced) (unended : OutcomeData) (shown : Bool)
        → IsKept image → Plays events harts (started image ring input) world
        → Headline image events ring (start_of image input) harts (started image ring input) world unended (delivery_of unended shown world) }
{
    one_plan();
}

/// Says that events make of the start one world, and that it is by the real steps of the same harts.
pub fn one_run_law()
    ensures world { (image : Picture) (events : List EventData) (ring : ℕ) (input hs gs : List ℕ) (u v : Replaced)
        → IsKept image → Plays events hs (started image ring input) u → Plays events gs (started image ring input) v → u ≡ v }
    ensures harts { (image : Picture) (events : List EventData) (ring : ℕ) (input hs gs : List ℕ) (u v : Replaced)
        → IsKept image → Plays events hs (started image ring input) u → Plays events gs (started image ring input) v → hs ≡ gs }
{
    one_plan();
}
