//! A recorder while no hart is away.

ghost use Rattle.std.specs.Prelude.{◌≡◌, ◌++◌, ℕ, List, None, IfErr, OnOk, OnErr, is_some};
ghost use Rattle.machine.specs.States.{State};
ghost use Rattle.plans.specs.Given.{plan_fault};
ghost use Rattle.sched_log.specs.declared.event.Event.TheVariants.{Given, Retire};
ghost use Rattle.world.specs.Worlds.{Replaced, Related, code_of};
ghost use Rattle.world.specs.Runs.{a_replacement, a_retirement};
ghost use Rattle.world.specs.Records.{Records};
ghost use Rattle.world.specs.Replacing.{Attempts};
ghost use Rattle.world.specs.Retiring.{RetiresAs, LeadsToCode};
ghost use Rattle.recorder.specs.Journals.{entered, is_left_out, unfolded, unless};
ghost use Rattle.recorder.specs.Marking.{attempted};
ghost use Rattle.recorder.specs.Numbers.{replaced_code, retired_code};
ghost use Rattle.recorder.specs.Recording.{IsRunOfLog};

use crate::recorder::Recorder;
use oc_base::fault::NoMemory;
use plans::plan::Plan;
use sched_log::facts::Refusal;

/// The world, borrowed while no hart is away: the one way to change its code while harts leave and come home.
#[derive(Drop)]
pub struct Stopped<'a> {
    pub(crate) world: &'a mut Recorder,
}

impl<'a> Stopped<'a> {
    /// Moves the functions of a plan, as the recorder does.
    pub fn replace(&mut self, plan: &Plan) -> Result<(), Refusal>
        requires plan { plan_fault self.old.world.now.at.image plan.now ≡ None }
        ensures same_reference { self.new.world.ghost_name ≡ self.old.world.ghost_name }
        ensures is { Attempts plan.now self.old.world.now.at (is_some self.old.world.now.at.machine.outcome) result self.new.world.now.at }
        ensures journal { self.new.world.now.journal ≡ entered (is_left_out (is_some self.old.world.now.at.machine.outcome) result) (Given plan.now) self.old.world.now.journal }
        ensures marks { self.new.world.now.marks ≡ attempted (is_left_out (is_some self.old.world.now.at.machine.outcome) result) self.old.world.now.at.counts.real self.old.world.now.marks }
        ensures gate { self.new.world.now.gate ≡ self.old.world.now.gate }
        ensures code { self.new.world.now.code ≡ replaced_code (is_some self.old.world.now.at.machine.outcome) result self.old.world.now.code }
        ensures steps { self.new.world.now.steps ≡ self.old.world.now.steps }
        ensures err { IfErr result (λ why. why ≡ Refusal.NoMemory → self.new.world.now ≡ self.old.world.now) }
        ensures related { (o : State) → Related self.old.world.now.at o → Related self.new.world.now.at o }
        ensures records { (ring : ℕ) (o : State) (hs : List ℕ) → Records ring self.old.world.now.at o hs → Records ring self.new.world.now.at o hs }
        ensures unfolds { unfolded self.new.world.now.journal.entries ≡ unfolded self.old.world.now.journal.entries ++ unless (is_left_out (is_some self.old.world.now.at.machine.outcome) result) (a_replacement plan.now) }
        ensures runs { (start : Replaced) (hs : List ℕ) → IsRunOfLog start hs self.old.world.now → IsRunOfLog start hs self.new.world.now }
    {
        self.world.replace(plan)
    }

    /// Gives up the layouts that nothing refers to, as the recorder does.
    pub fn retire(&mut self) -> Result<u32, NoMemory>
        ensures same_reference { self.new.world.ghost_name ≡ self.old.world.ghost_name }
        ensures is { RetiresAs self.old.world.now.at (is_some self.old.world.now.at.machine.outcome) result self.new.world.now.at }
        ensures journal { OnOk result (self.new.world.now.journal ≡ entered (is_some self.old.world.now.at.machine.outcome) Retire self.old.world.now.journal) }
        ensures marks { self.new.world.now.marks ≡ self.old.world.now.marks }
        ensures gate { self.new.world.now.gate ≡ self.old.world.now.gate }
        ensures code { self.new.world.now.code ≡ retired_code (is_some self.old.world.now.at.machine.outcome) result self.old.world.now.code }
        ensures steps { self.new.world.now.steps ≡ self.old.world.now.steps }
        ensures err { OnErr result (self.new.world.now ≡ self.old.world.now) }
        ensures related { (o : State) → Related self.old.world.now.at o → Related self.new.world.now.at o }
        ensures leads { (o : State) → Related self.old.world.now.at o → LeadsToCode (code_of self.new.world.now.at) self.new.world.now.at.machine }
        ensures records { (ring : ℕ) (o : State) (hs : List ℕ) → Records ring self.old.world.now.at o hs → Records ring self.new.world.now.at o hs }
        ensures unfolds { OnOk result (unfolded self.new.world.now.journal.entries ≡ unfolded self.old.world.now.journal.entries ++ unless (is_some self.old.world.now.at.machine.outcome) a_retirement) }
        ensures runs { (start : Replaced) (hs : List ℕ) → IsRunOfLog start hs self.old.world.now → IsRunOfLog start hs self.new.world.now }
    {
        self.world.retire()
    }
}
