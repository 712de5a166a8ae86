//! The patches of calls, and the first call that is out of reach.

ghost use Rattle.std.specs.Prelude.{◌≡◌, ℕ, ◌↔◌, ◌++◌, [], ◌∷◌, Some, IfOk, IfErr, OnOk, IsOk, pos, ◌-ℤ◌};
ghost use Rattle.std.specs.Option.{option_copied};
ghost use Rattle.rv_isa.specs.Decoded.{decoded};
ghost use Rattle.patcher.specs.Goals.{IsMade};
ghost use Rattle.patcher.specs.Reach.{IsOut};
ghost use Rattle.patcher.specs.Calls.{IsTally, IsOneMore, EachTally, EachOut, IsLeastOut, layout_calls, lower};

use crate::aims::Aims;
use crate::calls::layout_calls;
use crate::goal::{Call, Goal, Out};
use crate::patches::Patch;
use layout::layout::Layout;
use oc_base::fault::NoMemory;
use oc_base::items::Items;
use rv_decode::one_reading;
use rv_encode::jal_to;
use std::alloc::Global;

/// The word of a call, or its target where that is out of reach.
fn word_of(call: &Call) -> Result<u32, u64>
    ensures ok { IfOk result (IsMade call.now.at call.now.goal) }
    ensures reach { IfOk result (λ _. (t : ℕ) → IsOut (Some call.now.goal) call.now.at t → ⊥) }
    ensures out { IfErr result (IsOut (Some call.now.goal) call.now.at) }
{
    match call.goal {
        Goal::Jump { rd, to } => match jal_to(rd, call.at, to) {
            Ok(word) => {
                one_reading(word);
                Ok(word)
            }
            Err(_) => Err(to),
        },
        Goal::Same(word) => Ok(word),
    }
}

/// The one at the lower address.
fn lower(a: Option<Out>, b: Option<Out>) -> Option<Out>
    ensures { result ≡ lower a b }
{
    match (a, b) {
        (None, b) => b,
        (Some(a), None) => Some(a),
        (Some(a), Some(b)) => { if b.at < a.at { Some(b) } else { Some(a) } }
    }
}

/// The patches of those calls that are in reach, and the first of the others.
#[derive(Drop)]
pub struct Tally {
    pub patches: Vec<Patch>,
    pub out: Option<Out>,
}

impl Tally {
    /// Notes one call more.
    fn note(&mut self, call: &Call) -> Result<(), NoMemory>
        ensures { OnOk result (IsOneMore call.now self.old.patches.items self.old.out self.new.patches.items self.new.out) }
    {
        match word_of(call) {
            Ok(word) => {
                self.patches.push(Patch { at: call.at, word })?;
                Ok(())
            }
            Err(target) => {
                self.out = lower(
                    self.out,
                    Some(Out {
                        at: call.at,
                        target,
                    }),
                );
                Ok(())
            }
        }
    }
}

pub fn count(alloc: Global, calls: &[Call]) -> Result<Tally, NoMemory>
    ensures { IfOk result (λ t. IsTally calls.now t.patches.items t.out) }
{
    let mut noted = Tally {
        patches: Vec::with_capacity(alloc, calls.len())?,
        out: None,
    };
    for call in calls {
        noted.note(call)?;
    }
    Ok(noted)
}

/// The patches of each live layout, and the first call that is out of reach.
#[derive(Drop)]
pub struct Tallies {
    pub lists: Vec<Items<Patch>>,
    pub out: Option<Out>,
}

fn of_layout(alloc: Global, aims: &Aims, layout: &Layout) -> Result<Tally, NoMemory>
    ensures { IfOk result (λ t. IsTally (layout_calls aims.now.image.now (option_copied aims.now.new) layout.now) t.patches.items t.out) }
{
    let calls = layout_calls(alloc, aims, layout)?;
    count(alloc, &calls)
}

pub fn count_lives(alloc: Global, aims: &Aims, lives: &[Layout]) -> Result<Tallies, NoMemory>
    ensures each { IfOk result (λ t. EachTally aims.now.image.now (option_copied aims.now.new) lives.now t.lists.items) }
    ensures least { IfOk result (λ t. IsLeastOut (EachOut aims.now.image.now (option_copied aims.now.new) lives.now) t.out) }
{
    let mut all = Tallies {
        lists: Vec::with_capacity(alloc, lives.len())?,
        out: None,
    };
    for layout in lives {
        let one = of_layout(alloc, aims, layout)?;
        all.lists.push(Items::from_vec(one.patches))?;
        all.out = lower(all.out, one.out);
    }
    Ok(all)
}
