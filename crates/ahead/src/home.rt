//! Coming home.

ghost use Rattle.std.specs.Prelude.{◌≡◌, ◌&&◌, ◌≤◌, ◌++◌, ℕ, List, [], length, filter, drop, replicate, false, IfNone, is_some, option_map};
ghost use Rattle.std.specs.Vec.{vec_capacity};
ghost use Rattle.machine.specs.Harts.{is_live, hart_in};
ghost use Rattle.machine.specs.States.{State};
ghost use Rattle.machine.specs.Steps.{original_run};
ghost use Rattle.sim_laws.specs.Origins.{origin};
ghost use Rattle.world.specs.Adopting.{adopted};
ghost use Rattle.world.specs.Records.{Records};
ghost use Rattle.world.specs.Runs.{a_real_step, IsRun, real_steps_of};
ghost use Rattle.world.specs.Worlds.{Related, code_of};
ghost use Rattle.ahead.specs.Notes.{first_apart};
ghost use Rattle.ahead.specs.Flown.{is_layout_note, first_place, transfers_to, flight_of, compared, stranger_of, MayComeHome};

use crate::away::Away;
use crate::comparing::{apart_notes, apart_values, differ};
use crate::note::{Note, Sort, original_of};
use thiserror::Error;
use world::world::World;

/// Two numbers that differ: what stands, and what was brought.
#[derive(Clone, Copy, Debug, PartialEq, Eq, Error)]
#[error("{kept} stands, and {brought} was brought")]
pub struct Stranger {
    pub kept: u64,
    pub brought: u64,
}

/// Whether a hart is away and live.
#[inline]
fn is_there(world: &World, h: u32, is_away: bool) -> bool
    ensures { result ≡ (is_away && is_live (hart_in world.now.machine.harts h).status) }
{
    is_away && world.is_live(h)
}

/// The first two of the values compared that differ: what stands now, where the hart is away or not, the code has this number and the
/// hart has made so many events, and what was brought.
pub fn apart(away: &Away, world: &World, is_away: bool, code: u64, steps: u64) -> Option<Stranger>
    ensures is { result ≡ option_map stranger_of (first_apart (compared is_away code steps world.now away.now)) }
    ensures home { IfNone result (MayComeHome world.now away.now) }
{
    if !is_there(world, away.hart, is_away) {
        return Some(Stranger {
            kept: 0,
            brought: 1,
        });
    }
    let hart = world.hart(away.hart);
    differ(code, away.code)
        .or(differ(steps, away.steps))
        .or(differ(hart.pc, away.from_pc))
        .or(apart_values(&hart.regs, &away.from_regs))
        .or(apart_notes(world, &away.course.notes))
}

/// The original address of an address, by the code of a world.
#[tactic(auto, unfolding(sim_laws::specs::Origins::origin))]
fn original_at(world: &World, at: u64) -> u64
    ensures { result ≡ origin (code_of world.now) at }
{
    let mut recent = 0;
    original_of(at, world.look(&mut recent, at).point)
}

/// The original place of the note at a position, or else the one that all notes lead to.
#[inline]
fn first_place(notes: &[Note], k: usize, last: u64) -> u64
    ensures { result ≡ first_place (drop k notes.now) last }
{
    match notes.get(k) {
        Some(note) => original_of(note.at, Some(note.point)),
        None => last,
    }
}

/// Writes the transfers of notes that lead to an original place, and counts the steps of layouts alone.
fn made_transfers(transfers: &mut Vec<(u64, u64)>, notes: &[Note], last: u64) -> u64
    requires empty { transfers.old.items ≡ [] }
    requires room { length notes.now ≤ vec_capacity transfers.old }
    ensures transfers { transfers.new.items ≡ transfers_to last notes.now }
    ensures layouts { result ≡ length (filter is_layout_note notes.now) }
{
    let mut layouts: u64 = 0;
    for k in 0..notes.len() {
        match notes[k].sort {
            Sort::Layout => layouts += 1,
            Sort::Transfer => {
                let from = original_of(notes[k].at, Some(notes[k].point));
                transfers.push_reserved((from, first_place(notes, k + 1, last)));
            }
            Sort::Other => {}
        }
    }
    layouts
}

/// The hart comes home: the world takes in what it did. It takes no memory.
pub fn bring(away: Away, world: &mut World)
    requires going { is_some world.old.machine.outcome ≡ false }
    requires home { MayComeHome world.old away }
    ensures is { world.new ≡ real_steps_of away.made away.hart world.old }
    ensures adopted { world.new ≡ adopted away.hart (flight_of (code_of world.old) away) world.old }
    ensures run { IsRun (replicate away.made (a_real_step away.hart)) (replicate away.made away.hart) world.old world.new }
    ensures follows { (o : State) → Related world.old o → Related world.new (original_run world.old.image (replicate away.made away.hart) o) }
    ensures records { (ring : ℕ) (o : State) (hs : List ℕ) → Related world.old (original_run world.old.image hs o) → Records ring world.old o hs
        → Records ring world.new o (hs ++ replicate away.made away.hart) }
{
    world.kept();
    let mut transfers = away.transfers;
    let pc = away.course.hart.pc;
    let last = original_at(world, pc);
    let layouts = made_transfers(&mut transfers, &away.course.notes, last);
    world.adopt(
        away.hart,
        away.course.hart.regs,
        pc,
        u64::from(away.made),
        layouts,
        &transfers,
    );
}
