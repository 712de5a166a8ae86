//! A hart that has left the lock.

ghost use Rattle.std.specs.Prelude.{◌≡◌, [], IfOk};
ghost use Rattle.std.specs.Arc.{arc_value};
ghost use Rattle.ahead.specs.Flown.{IsFlight};

use crate::course::Course;
use guest_mem::flat::FlatMem;
use hart::hart::{Hart, Status};
use link_tags::value::Value;
use oc_base::fault::NoMemory;
use std::alloc::Global;
use std::marker::Model;
use std::sync::Arc;
use world::shared::CodeNow;

/// Room for the notes of 64 real steps, with two steps of layouts alone before each.
const NOTES: usize = 192;

/// A hart that has left the lock, with its registers and pc, the code that it goes by, and a note of each of its steps.
#[derive(Drop)]
pub struct Away {
    pub(crate) hart: u32,
    pub(crate) code: u64,
    pub(crate) steps: u64,
    pub(crate) from_regs: [Value; 32],
    pub(crate) from_pc: u64,
    pub(crate) made: u32,
    pub(crate) course: Course,
    /// Empty, with room for the transfers of all notes.
    pub(crate) transfers: Vec<(u64, u64)>,
    /// What instructions are given as memory. None that is made here reads it.
    pub(crate) memory: FlatMem,
    pub(crate) shared: Arc<CodeNow>,
}

impl Model for Away {
    ghost use Rattle.std.specs.Prelude.{◌≡◌, ◌≤◌, ◌*◌, [], length};
    ghost use Rattle.std.specs.Arc.{arc_value};
    ghost use Rattle.std.specs.Vec.{vec_capacity};
    ghost use Rattle.ahead.specs.Flown.{Flown, IsFlight, place_of};

    ghost Value = { Flown };

    ghost view = { λ a. record {
      hart = a.hart;
      code = a.code;
      steps = a.steps;
      from = record { regs = a.from_regs; pc = a.from_pc };
      now = place_of a.course.hart;
      made = a.made;
      notes = a.course.notes.items;
      shared = arc_value a.shared;
    } };

    ghost invariant = { λ a. IsFlight (record {
      hart = a.hart;
      code = a.code;
      steps = a.steps;
      from = record { regs = a.from_regs; pc = a.from_pc };
      now = place_of a.course.hart;
      made = a.made;
      notes = a.course.notes.items;
      shared = arc_value a.shared;
    }) × (length a.course.notes.items ≤ 3 * a.made) × (192 ≤ vec_capacity a.course.notes) × (192 ≤ vec_capacity a.transfers) × (a.transfers.items ≡ []) };
}

impl Away {
    /// A hart with these registers and pc leaves, where the code has this number and the hart has made so many events. All memory that
    /// `ahead` and `bring` need is taken here.
    pub fn leave(
        alloc: Global,
        hart: u32,
        code_number: u64,
        steps: u64,
        regs: &[Value; 32],
        pc: u64,
        code: Arc<CodeNow>,
    ) -> Result<Away, NoMemory>
        ensures { IfOk result (λ a. a ≡ record {
          hart = hart;
          code = code_number;
          steps = steps;
          from = record { regs = regs.now; pc = pc };
          now = record { regs = regs.now; pc = pc };
          made = 0;
          notes = [];
          shared = arc_value code;
        }) }
    {
        let notes = Vec::with_capacity(alloc, NOTES)?;
        let transfers = Vec::with_capacity(alloc, NOTES)?;
        Ok(Away {
            hart,
            code: code_number,
            steps,
            from_regs: *regs,
            from_pc: pc,
            made: 0,
            course: Course {
                hart: Hart {
                    regs: *regs,
                    pc,
                    reservation: None,
                    status: Status::Live,
                    clear: 0,
                },
                notes,
                recent: 0,
            },
            transfers,
            memory: FlatMem::new(alloc),
            shared: code,
        })
    }

    /// The hart's number.
    pub fn hart(&self) -> u32
        ensures { result ≡ self.now.hart }
    {
        self.hart
    }

    /// How many real steps it has made.
    pub fn made(&self) -> u32
        ensures { result ≡ self.now.made }
    {
        self.made
    }

    /// What each hart that is away keeps, for a caller's proof. It does nothing.
    pub fn kept(&self)
        ensures { IsFlight self.now }
    {
        let _ = &self.made;
    }
}

// Nothing above speaks of threads: this shows that it may cross them.
fn crosses<T: Send + Sync>(_value: &T) {}

pub fn cross(away: &Away) {
    crosses(away);
}
