//! The watch and its passes.

ghost use Rattle.std.specs.Prelude.{◌≡◌, ◌++◌, ◌∷◌, [], true, false, IfOk};
ghost use Rattle.watch.specs.Shown.{StartsWith, last_of, longer, seen};

use atomic_table::{Join, Split};
use crossbeam_utils::atomic::seq_cell::{Pass as Seat, RuledSeqCell};
use crossbeam_utils::rule::{Outcome, Protocol};
use oc_base::fault::NoMemory;
use std::alloc::Global;
use std::collections::LinkedList;
use std::marker::Model;
use std::sync::Wait;

/// The real steps made, the replacements done and the layouts retired.
#[derive(Clone, Copy, Debug, PartialEq, Eq)]
pub struct Counts {
    pub real: u64,
    pub done: u64,
    pub retired: u64,
}

/// What a pass has seen shown, and whether it is the writer's. No value of it is made.
pub struct View {
    pub shown: LinkedList<[u64; 3]>,
    pub writes: bool,
}

/// The words are the last that were shown.
pub struct InOrder;

impl Protocol<[u64; 3], View> for InOrder {
    ghost use Rattle.std.specs.Prelude.{[], ◌∷◌, true};
    ghost use Rattle.watch.specs.Shown.{Kept, view};

    ghost holds = { Kept };

    ghost first = { view ((0 ∷ 0 ∷ 0 ∷ []) ∷ []) true };
}

/// The step of `show`.
pub struct ShowStep;

impl Outcome<[u64; 3], View> for ShowStep {
    ghost use Rattle.watch.specs.Shown.{Shows};

    ghost then = { Shows };
}

/// The step of `look`.
pub struct LookStep;

impl Outcome<[u64; 3], View> for LookStep {
    ghost use Rattle.watch.specs.Shown.{Looks};

    ghost then = { Looks };
}

/// A pass that only looks.
pub struct Reader;

impl Split<View> for Reader {
    ghost use Rattle.watch.specs.Shown.{reader};

    ghost left = { λ v. v };

    ghost right = { reader };
}

impl Join<View> for Reader {
    ghost use Rattle.std.specs.Prelude.{[], false};
    ghost use Rattle.watch.specs.Shown.{both, view};

    ghost both = { both };

    ghost spent = { view [] false };
}

/// A cell with the counts shown last. Contracts see it as its table.
#[derive(Drop)]
pub struct Watch {
    cell: RuledSeqCell<[u64; 3], View, InOrder, 3>,
}

impl Model for Watch {
    ghost use Rattle.atomic_table.specs.Seated.{TableId};

    ghost Value = { TableId };

    ghost view = { λ w. w.cell.table.shared.table_id };
}

/// The leave to look at a watch, and the writer's to show. Contracts see it as a `Seen`.
#[derive(Drop)]
pub struct Pass {
    seat: Seat<[u64; 3], View>,
}

impl Model for Pass {
    ghost use Rattle.crossbeam_utils.specs.Seq.{cell_view};
    ghost use Rattle.watch.specs.Shown.{Seen, seen};

    ghost Value = { Seen };

    ghost view = { λ p. seen p.seat.table_id (cell_view p.seat).shown (cell_view p.seat).writes };
}

impl Watch {
    /// A watch on which the zero counts were shown, and the writer's pass.
    pub fn new(alloc: Global) -> Result<(Watch, Pass), NoMemory>
        ensures { IfOk result (λ c. c.1 ≡ seen c.0 ((0 ∷ 0 ∷ 0 ∷ []) ∷ []) true) }
    {
        let (cell, seat) = RuledSeqCell::ruled(alloc, [0, 0, 0])?;
        Ok((Watch { cell }, Pass { seat }))
    }

    /// Shows counts.
    pub fn show<R: Wait>(&self, rt: &R, pass: &mut Pass, counts: Counts)
        requires own { pass.old.cell ≡ self.now }
        requires writer { pass.old.writes ≡ true }
        ensures { pass.new ≡ seen pass.old.cell (pass.old.shown ++ (counts.real ∷ counts.done ∷ counts.retired ∷ []) ∷ []) true }
    {
        let words = [counts.real, counts.done, counts.retired];
        self.cell.swap_as::<ShowStep, R>(rt, &mut pass.seat, words);
    }

    /// Counts that were shown, no earlier than any that the pass has seen.
    pub fn look<R: Wait>(&self, rt: &R, pass: &mut Pass) -> Counts
        requires own { pass.old.cell ≡ self.now }
        ensures own { pass.new.cell ≡ pass.old.cell }
        ensures later { StartsWith pass.new.shown pass.old.shown }
        ensures last { last_of pass.new.shown ≡ result.real ∷ result.done ∷ result.retired ∷ [] }
        ensures writes { pass.new.writes ≡ pass.old.writes }
    {
        let words = self.cell.load_as::<LookStep, R>(rt, &mut pass.seat);
        Counts {
            real: words[0],
            done: words[1],
            retired: words[2],
        }
    }

    /// A reader's pass that has seen what this one has.
    pub fn split<R: Wait>(&self, _rt: &R, pass: &mut Pass) -> Pass
        requires own { pass.old.cell ≡ self.now }
        ensures kept { pass.new ≡ pass.old }
        ensures given { result ≡ seen pass.old.cell pass.old.shown false }
    {
        let seat = self.cell.split_pass::<Reader>(&mut pass.seat);
        Pass { seat }
    }

    /// Makes a pass have seen what both have.
    pub fn join<R: Wait>(&self, _rt: &R, pass: &mut Pass, mut other: Pass)
        requires own { pass.old.cell ≡ self.now }
        requires other { other.cell ≡ self.now }
        ensures { pass.new ≡ seen pass.old.cell (longer pass.old.shown other.shown) pass.old.writes }
    {
        // a part cut off anew can be joined, whatever the pass did before
        let part = self.cell.split_pass::<Reader>(&mut other.seat);
        self.cell.join_pass::<Reader>(&mut pass.seat, part);
    }
}
