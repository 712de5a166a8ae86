//! Whose turn it is.

ghost use Rattle.std.specs.Prelude.{◌≡◌, ◌≤◌, ◌<◌, ◌%◌, ℕ, true, false, is_none, IfSome};
ghost use Rattle.machine.specs.Harts.{is_live, hart_in};
ghost use Rattle.run_book.specs.Booked.{NoneOut};
ghost use Rattle.run_book.specs.Sections.{begins_at, IsChosen};

use recorder::recorder::Recorder;
use world::world::World;

/// The first live hart of a worker in a range.
fn first_live(world: &World, workers: u32, worker: u32, from: u32, to: u32) -> Option<u32>
    requires { 0 < workers }
    ensures there { IfSome result (λ h. (from ≤ h) × (h < to) × (h % workers ≡ worker) × (is_live (hart_in world.now.machine.harts h).status ≡ true)) }
    ensures first { IfSome result (λ h. (j : ℕ) → from ≤ j → j < h → j % workers ≡ worker → is_live (hart_in world.now.machine.harts j).status ≡ false) }
    ensures none { is_none result ≡ true → ((j : ℕ) → from ≤ j → j < to → j % workers ≡ worker → is_live (hart_in world.now.machine.harts j).status ≡ false) }
{
    for h in from..to {
        if h % workers == worker && world.is_live(h) {
            return Some(h);
        }
    }
    None
}

/// Where the rotation begins after a hart.
fn begins_at(served: Option<u32>) -> u32
    ensures { result ≡ begins_at served }
{
    match served {
        Some(g) => g.saturating_add(1),
        None => 0,
    }
}

/// The live hart of a worker that comes first in the rotation after the one that it served last.
pub fn next(world: &World, workers: u32, worker: u32, served: Option<u32>) -> Option<u32>
    requires { 0 < workers }
    ensures chosen { IfSome result (λ h. IsChosen workers worker served h world.now.machine) }
{
    let made = world.made();
    let from = begins_at(served).min(made);
    match first_live(world, workers, worker, from, made) {
        Some(h) => Some(h),
        None => first_live(world, workers, worker, 0, from),
    }
}

/// Whether one of a worker's harts is away.
pub fn has_out(recorder: &Recorder, workers: u32, worker: u32) -> bool
    requires { 0 < workers }
    ensures { result ≡ false → NoneOut workers worker recorder.now.gate }
{
    recorder.kept();
    for h in 0..recorder.world().made() {
        if h % workers == worker && recorder.is_away(h) {
            return true;
        }
    }
    false
}
