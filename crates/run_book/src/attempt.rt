//! Attempts to replace code.

ghost use Rattle.std.specs.Prelude.{◌≡◌, false, true, Err, OnOk, OnErr, is_some, ℕ, List, Option};
ghost use Rattle.recorder.specs.Journals.{is_left_out};
ghost use Rattle.pacing.specs.Clocks.{clock_of};
ghost use Rattle.pacing.specs.Pacing.{owes_snap};
ghost use Rattle.run_book.specs.Sections.{FitsNow, IsRunOf, IsAmid, IsAtRest, AreLast};
ghost use Rattle.run_book.specs.Terms.{Terms, AreFair, state_in};
ghost use Rattle.run_book.specs.Told.{told};

use oc_base::fault::NoMemory;
use plans::plan::Plan;
use recorder::recorder::Recorder;
use recorder::stopped::Stopped;
use sched_log::facts::Refusal;

/// An attempt was made, refused or not, unless memory ran out.
fn made(answer: &Result<(), Refusal>) -> Result<(), NoMemory>
    ensures ok { OnOk result (is_left_out false answer.now ≡ false) }
    ensures err { OnErr result (answer.now ≡ Err Refusal.NoMemory) }
{
    match answer {
        Err(Refusal::NoMemory) => Err(NoMemory),
        _ => Ok(()),
    }
}

/// Gives up layouts, and then moves code by the plan of the snapshot that is pending. A refusal is an attempt like any other.
fn attempt_stopped(world: &mut Stopped<'_>, plan: &Plan) -> Result<(), NoMemory>
    requires goes_on { is_some world.old.world.now.at.machine.outcome ≡ false }
    requires fits { FitsNow plan.now world.old.world.now }
    ensures same_reference { world.new.world.ghost_name ≡ world.old.world.ghost_name }
    ensures gate { world.new.world.now.gate ≡ world.old.world.now.gate }
    ensures run { (t : Terms) → IsRunOf t world.old.world.now → IsRunOf t world.new.world.now }
    ensures real { world.new.world.now.at.counts.real ≡ world.old.world.now.at.counts.real }
    ensures rests { OnOk result ((t : Terms) (spare : ℕ) → world.old.world.now.gate.wanted ≡ false → AreFair t → IsRunOf t world.old.world.now → IsAmid t spare world.old.world.now.gate (told world.old.world.now) → IsAtRest t world.new.world.now.gate (told world.new.world.now)) }
    ensures last { (t : Terms) (last : List (Option ℕ)) → IsRunOf t world.old.world.now → AreLast t last (told world.old.world.now) → AreLast t last (told world.new.world.now) }
{
    world.retire()?;
    let answer = world.replace(plan);
    made(&answer)?;
    Ok(())
}

/// Makes the attempt of the snapshot that is pending, if no hart is away. Otherwise a stop is wanted, and a later section makes it.
pub fn attempt(world: &mut Recorder, plan: &Plan) -> Result<(), NoMemory>
    requires goes_on { is_some world.old.at.machine.outcome ≡ false }
    requires fits { FitsNow plan.now world.old }
    ensures run { (t : Terms) → IsRunOf t world.old → IsRunOf t world.new }
    ensures real { world.new.at.counts.real ≡ world.old.at.counts.real }
    ensures rests { OnOk result ((t : Terms) (spare : ℕ) → AreFair t → IsRunOf t world.old → owes_snap t.every (state_in t (told world.old)) (clock_of (told world.old)) ≡ false → IsAmid t spare world.old.gate (told world.old) → IsAtRest t world.new.gate (told world.new)) }
    ensures last { (t : Terms) (last : List (Option ℕ)) → IsRunOf t world.old → AreLast t last (told world.old) → AreLast t last (told world.new) }
{
    match world.stopped() {
        Ok(stopped) => {
            let mut stopped = stopped;
            attempt_stopped(&mut stopped, plan)
        }
        Err(_) => Ok(()),
    }
}
