//! Steps outside the lock.

ghost use Rattle.std.specs.Prelude.{◌≡◌, ◌<◌, ◌≤◌, ◌+◌, length, take, drop, false};
ghost use Rattle.world.specs.Adopting.{adopted, shown_of};
ghost use Rattle.world.specs.Runs.{real_steps_of};
ghost use Rattle.world.specs.Worlds.{Replaced, IsWorld, code_of};
ghost use Rattle.ahead.specs.Flown.{IsAt, Leads, flight_to};
ghost use Rattle.ahead.specs.Going.{before_real, goes_alone};

use crate::away::Away;
use crate::course::run;

/// The most real steps that one hart makes away from the lock.
const MOST: u32 = 64;

/// Real steps on instructions that read and write registers and pc alone, each with the steps of layouts alone before it, and how many:
/// `most` at most, and 64 at most of one hart that is away. It takes no memory.
pub fn ahead(away: &mut Away, most: u32) -> u32
    ensures count { (result ≤ most) × (away.new.made ≡ away.old.made + result) × (away.new.made ≤ 64) }
    ensures rest { away.new ≡ record away.old { now = away.new.now; made = away.new.made; notes = away.new.notes } }
    ensures notes { take (length away.old.notes) away.new.notes ≡ away.old.notes }
    ensures leads { Leads away.old.hart result away.old.now away.new.now (drop (length away.old.notes) away.new.notes) }
    ensures steps { (w : Replaced) → IsWorld w → shown_of w ≡ away.old.shared → IsAt away.old.hart away.old.now w
        → real_steps_of result away.old.hart w ≡ adopted away.old.hart (flight_to (code_of w) away.new.now result (drop (length away.old.notes) away.new.notes)) w }
    ensures stops { result < most → away.new.made < 64 → (w : Replaced) → IsWorld w → shown_of w ≡ away.new.shared → IsAt away.new.hart away.new.now w
        → goes_alone away.new.hart (before_real 2 away.new.hart w) ≡ false }
{
    let left = MOST - away.made;
    let made = run(
        &mut away.course,
        &mut away.memory,
        &away.shared,
        most.min(left),
    );
    away.made += made;
    made
}
