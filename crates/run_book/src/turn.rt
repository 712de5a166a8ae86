//! Visits.

ghost use Rattle.std.specs.Prelude.{◌≡◌, ◌≤◌, ◌<◌, ◌+◌, ◌^◌, ◌==◌, ◌||◌, not, true, false};
ghost use Rattle.machine.specs.Steps.{can_step};
ghost use Rattle.pacing.specs.Limits.{visit_limit};
ghost use Rattle.recorder.specs.Recording.{Recorded};
ghost use Rattle.run_book.specs.Visits.{IsPart};

use recorder::recorder::Recorder;
use world::world::World;

/// The most real steps of a visit.
const VISIT_LIMIT: u64 = 64;

/// How many real steps were made, and whether memory sufficed.
#[derive(Clone, Copy, Debug)]
pub struct Turned {
    pub made: u64,
    pub whole: bool,
}

/// Whether a hart is live and the run goes on.
fn can_step(world: &World, h: u32) -> bool
    ensures { result ≡ can_step h world.now.machine }
{
    if world.outcome().is_some() {
        return false;
    }
    world.is_live(h)
}

fn steps(world: &mut Recorder, h: u32, from: u64) -> Turned
    requires { from ≤ visit_limit }
    ensures most { result.made ≤ visit_limit }
    ensures part { (w : Recorded) → w.journal.is_open ≡ false → w.at.counts.real + 64 < 2 ^ 64 → IsPart true from h w world.old → IsPart true result.made h w world.new }
    ensures full { result.whole ≡ true → (result.made == visit_limit || not (can_step h world.new.at.machine)) ≡ true }
    ensures gate { world.new.gate ≡ world.old.gate }
{
    for made in from..VISIT_LIMIT {
        if !can_step(world.world(), h) {
            return Turned { made, whole: true };
        }
        let Ok(_kind) = world.real_step(h) else {
            return Turned { made, whole: false };
        };
    }
    Turned {
        made: VISIT_LIMIT,
        whole: true,
    }
}

/// Real steps of hart `h`, after `from` of the same visit, until the visit is full or the hart can't go on. They are one entry of the log,
/// which is ended, also where memory runs out on the way. It says how many steps the visit has.
pub fn turn(world: &mut Recorder, h: u32, from: u64) -> Turned
    requires { from ≤ visit_limit }
    ensures most { result.made ≤ visit_limit }
    ensures part { (w : Recorded) → w.journal.is_open ≡ false → w.at.counts.real + 64 < 2 ^ 64 → IsPart true from h w world.old → IsPart false result.made h w world.new }
    ensures full { result.whole ≡ true → (result.made == visit_limit || not (can_step h world.new.at.machine)) ≡ true }
    ensures gate { world.new.gate ≡ world.old.gate }
{
    let turned = steps(world, h, from);
    world.end_visit();
    turned
}
