//! What is due after an entry of the log.

ghost use Rattle.std.specs.Prelude.{◌≡◌, true, false, OnOk, IfSome, is_some, ℕ, List, Option};
ghost use Rattle.pacing.specs.Clocks.{clock_of};
ghost use Rattle.pacing.specs.Pacing.{owes_snap};
ghost use Rattle.run_book.specs.Sections.{FitsNow, IsRunOf, IsAmid, IsAtRest, AreLast};
ghost use Rattle.run_book.specs.Terms.{Terms, AreFair, state_in};
ghost use Rattle.run_book.specs.Told.{told};

use crate::attempt::attempt;
use oc_base::fault::NoMemory;
use placer::plan::plan_of;
use plans::plan::Plan;
use recorder::marks::Due;
use recorder::recorder::Recorder;
use std::alloc::Global;

/// What was due.
#[derive(Clone, Copy, Debug, PartialEq, Eq)]
pub enum Settled {
    Snapped,
    Other,
}

/// Works the plan of the last snapshot out and makes its attempt, if no hart is away. Otherwise a stop is wanted.
fn attempt_late(world: &mut Recorder, alloc: Global) -> Result<(), NoMemory>
    requires goes_on { is_some world.old.at.machine.outcome ≡ false }
    requires pending { world.old.marks.pending ≡ true }
    ensures run { (t : Terms) → IsRunOf t world.old → IsRunOf t world.new }
    ensures real { world.new.at.counts.real ≡ world.old.at.counts.real }
    ensures rests { OnOk result ((t : Terms) (spare : ℕ) → AreFair t → IsRunOf t world.old → owes_snap t.every (state_in t (told world.old)) (clock_of (told world.old)) ≡ false → IsAmid t spare world.old.gate (told world.old) → IsAtRest t world.new.gate (told world.new)) }
    ensures last { (t : Terms) (last : List (Option ℕ)) → IsRunOf t world.old → AreLast t last (told world.old) → AreLast t last (told world.new) }
{
    let plan = plan_of(alloc, world.world().image(), world.world().snapshot())?;
    attempt(world, &plan)?;
    Ok(())
}

/// Makes the attempt whose plan has come, or that is overdue. Where a hart is away, a stop is wanted instead.
pub fn catch_up(
    world: &mut Recorder,
    alloc: Global,
    every: u64,
    plan: Option<&Plan>,
) -> Result<(), NoMemory>
    requires goes_on { is_some world.old.at.machine.outcome ≡ false }
    requires fits { IfSome plan (λ m. FitsNow m.now world.old) }
    ensures run { (t : Terms) → IsRunOf t world.old → IsRunOf t world.new }
    ensures real { world.new.at.counts.real ≡ world.old.at.counts.real }
    ensures rests { OnOk result ((t : Terms) (spare : ℕ) → every ≡ t.every → AreFair t → IsRunOf t world.old → owes_snap t.every (state_in t (told world.old)) (clock_of (told world.old)) ≡ false → IsAmid t spare world.old.gate (told world.old) → IsAtRest t world.new.gate (told world.new)) }
    ensures last { (t : Terms) (last : List (Option ℕ)) → IsRunOf t world.old → AreLast t last (told world.old) → AreLast t last (told world.new) }
{
    if let Some(plan) = plan {
        return attempt(world, plan);
    }
    match world.due(every) {
        Due::Overdue => attempt_late(world, alloc),
        Due::Nothing | Due::Snap | Due::Pending => Ok(()),
    }
}

/// Makes the snapshot or the attempt that is due after a visit. After the run's end nothing is.
pub fn settle(
    world: &mut Recorder,
    alloc: Global,
    every: u64,
    plan: Option<&Plan>,
) -> Result<Settled, NoMemory>
    requires fits { IfSome plan (λ m. FitsNow m.now world.old) }
    ensures run { (t : Terms) → IsRunOf t world.old → IsRunOf t world.new }
    ensures real { world.new.at.counts.real ≡ world.old.at.counts.real }
    ensures rests { OnOk result ((t : Terms) → every ≡ t.every → AreFair t → IsRunOf t world.old → IsAmid t 3 world.old.gate (told world.old) → IsAtRest t world.new.gate (told world.new)) }
    ensures last { (t : Terms) (last : List (Option ℕ)) → IsRunOf t world.old → AreLast t last (told world.old) → AreLast t last (told world.new) }
{
    if world.world().outcome().is_some() {
        return Ok(Settled::Other);
    }
    match world.due(every) {
        Due::Snap => {
            world.snap()?;
            Ok(Settled::Snapped)
        }
        _ => {
            catch_up(world, alloc, every, plan)?;
            Ok(Settled::Other)
        }
    }
}
