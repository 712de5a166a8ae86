//! A world that keeps a log of what it is asked for.

ghost use Rattle.std.specs.Prelude.{◌≡◌, ◌≢◌, ◌<◌, ◌≤◌, ◌+◌, ◌==◌, ◌++◌, ◌↔◌, ℕ, List, [], true, false, None, Err, if◌then◌else◌, IfOk, IfErr, IfSome, IsOk, OnOk, OnErr, is_some, length, replicate};
ghost use Rattle.std.specs.Arc.{arc_value};
ghost use Rattle.std.specs.Borrow.{sem, RestsIfErr};
ghost use Rattle.std.specs.Option.{option_map};
ghost use Rattle.world.specs.Adopting.{shown_of};
ghost use Rattle.ahead.specs.Flown.{stranger_of};
ghost use Rattle.ahead.specs.Notes.{first_apart};
ghost use Rattle.branch_ring.specs.Profiles.{IsProfile, all_pairs};
ghost use Rattle.machine.specs.States.{State};
ghost use Rattle.machine.specs.Steps.{can_step, original_step, original_run};
ghost use Rattle.plans.specs.Given.{plan_fault};
ghost use Rattle.sched_log.specs.declared.event.Event.TheVariants.{Snap, Given, Retire};
ghost use Rattle.sim_laws.specs.Steps.{original_after};
ghost use Rattle.world.specs.Worlds.{Replaced, Related, code_of, kind_of, step_of, more};
ghost use Rattle.stop_gate.specs.Gates.{is_away, aways, AwayBelow};
ghost use Rattle.world.specs.Runs.{a_step, a_real_step, a_replacement, a_retirement, a_snap, is_over, of_real, real_step_of, real_kind_of, IsRun};
ghost use Rattle.world.specs.Records.{Records, SnapsAs, rings_of};
ghost use Rattle.world.specs.Replacing.{Attempts};
ghost use Rattle.world.specs.Retiring.{RetiresAs, LeadsToCode};
ghost use Rattle.recorder.specs.Journals.{noted, entered, closed, is_left_out, unfolded, unless};
ghost use Rattle.recorder.specs.Marking.{AreReached, unmarked, due_of, snapped, attempted};
ghost use Rattle.recorder.specs.Numbers.{raised, steps_by, with_steps, with_step_by, replaced_code, retired_code};
ghost use Rattle.recorder.specs.Recording.{HasNoEvents, IsRunOfLog, all_here};
ghost use Rattle.recorder.specs.Leaving.{leaving, without, compared_home, TellsStranger, with_back, with_home, with_wanted};
ghost use Rattle.recorder.specs.contracts.recorder.Recorder.{the_row};

use crate::fault::AwayFault;
use crate::journal::{Asked, Journal};
use crate::marks::{Due, Marks};
use crate::stopped::Stopped;
use ahead::away::Away;
use ahead::home::{Stranger, apart, bring};
use image::picture::Image;
use oc_base::fault::NoMemory;
use plans::plan::Plan;
use sched_log::event::Event;
use sched_log::facts::Refusal;
use sim_laws::stepped::Stepped;
use std::alloc::Global;
use std::marker::Model;
use std::sync::Arc;
use stop_gate::fault::StillAway;
use stop_gate::gate::Gate;
use world::shared::CodeNow;
use world::world::World;

/// A world and the log of what it was asked for, in which steps of one kind and hart, one after another, are one entry. Harts leave it and
/// come home.
#[derive(Drop)]
pub struct Recorder {
    alloc: Global,
    world: World,
    image: Arc<Image>,
    journal: Journal,
    marks: Marks,
    gate: Gate,
    /// How many harts are away.
    away: u32,
    code: u64,
    steps: [u64; 64],
    /// The code as it is now, once a hart has left with it.
    shared: Option<Arc<CodeNow>>,
}

impl Model for Recorder {
    ghost use Rattle.std.specs.Prelude.{◌≡◌, IfSome, vec_len, vec_capacity};
    ghost use Rattle.std.specs.Arc.{arc_value};
    ghost use Rattle.std.specs.Coded.{codes};
    ghost use Rattle.world.specs.Adopting.{shown_of};
    ghost use Rattle.guest_mem.specs.Memory.{memory_code};
    ghost use Rattle.recorder.specs.Journals.{journal_of};
    ghost use Rattle.recorder.specs.Recording.{Recorded, IsKept};

    ghost Value = { Recorded };

    ghost coded = { Prim.hlevel (codes, memory_code) };

    ghost view = { λ r. record { at = r.world; journal = journal_of r.journal; marks = r.marks; gate = r.gate; code = r.code; steps = r.steps } };

    ghost invariant = { λ r. (IsKept r.world r.marks r.gate r.steps r.away (vec_len r.journal.entries) (vec_capacity r.journal.entries) (arc_value r.image))
        × (IfSome r.shared (λ code. arc_value code ≡ shown_of r.world)) };
}

fn is_over(kind: Stepped) -> bool
    ensures { result ≡ is_over kind }
{
    matches!(kind, Stepped::Over)
}

fn is_no_memory(answer: &Result<(), Refusal>) -> bool
    ensures { result ≡ is_left_out false answer.now }
{
    matches!(answer, Err(Refusal::NoMemory))
}

/// Whether a hart is live and the run goes on.
fn can_step(world: &World, h: u32) -> bool
    ensures { result ≡ can_step h world.now.machine }
{
    if world.outcome().is_some() {
        return false;
    }
    world.is_live(h)
}

/// The number of the code, another one where it changed.
fn number_after(changed: bool, number: u64) -> u64
    ensures { result ≡ (if changed then raised 1 number else number) }
{
    if changed {
        number.saturating_add(1)
    } else {
        number
    }
}

/// How many steps hart `h` made.
fn steps_of(steps: &[u64; 64], h: u32) -> u64
    ensures { result ≡ steps_by h steps.now }
{
    if h < 64 {
        return steps[h as usize];
    }
    0
}

/// No step of any hart.
fn no_steps() -> [u64; 64]
    ensures is { result ≡ replicate 64 0 }
    ensures harts { length result ≡ 64 }
{
    [0; 64]
}

/// Counts so many more steps of hart `h`.
fn count_steps(steps: &mut [u64; 64], h: u32, n: u64)
    ensures is { steps.new ≡ with_steps h n steps.old }
    ensures harts { length steps.new ≡ 64 }
{
    if h < 64 {
        let at = h as usize;
        steps[at] = steps[at].saturating_add(n);
    }
}

/// Counts one more, unless it is left out.
fn count_step(steps: &mut [u64; 64], left_out: bool, h: u32)
    ensures is { steps.new ≡ with_step_by left_out h steps.old }
    ensures harts { length steps.new ≡ 64 }
{
    if left_out {
        return;
    }
    count_steps(steps, h, 1);
}

/// The code of a world, shared with those who left with it before, or copied.
fn shared_code(
    alloc: Global,
    world: &World,
    image: &Arc<Image>,
    shared: &mut Option<Arc<CodeNow>>,
) -> Result<Arc<CodeNow>, NoMemory>
    requires image { arc_value image.now ≡ world.now.image }
    requires shared { IfSome shared.old (λ code. arc_value code ≡ shown_of world.now) }
    ensures shared { IfSome shared.new (λ code. arc_value code ≡ shown_of world.now) }
    ensures code { IfOk result (λ code. arc_value code ≡ shown_of world.now) }
{
    if let Some(code) = shared {
        let Ok(code) = Arc::try_clone(code) else {
            return Err(NoMemory);
        };
        return Ok(code);
    }
    let Ok(copied) = world.code(alloc, image) else {
        return Err(NoMemory);
    };
    let Ok(code) = Arc::new(alloc, copied) else {
        return Err(NoMemory);
    };
    let Ok(kept) = Arc::try_clone(&code) else {
        return Err(NoMemory);
    };
    *shared = Some(kept);
    Ok(code)
}

impl Recorder {
    /// From here on a log is kept.
    pub fn keep_log(alloc: Global, world: World) -> Result<Recorder, NoMemory>
        requires { HasNoEvents world }
        ensures is { IfOk result (λ r. r ≡ record { at = world; journal = record { entries = []; is_open = false }; marks = unmarked; gate = all_here; code = 0; steps = replicate 64 0 }) }
        ensures runs { IfOk result (λ r. IsRunOfLog world [] r) }
    {
        let Ok(copied) = world.image().copy(alloc) else {
            return Err(NoMemory);
        };
        let Ok(image) = Arc::new(alloc, copied) else {
            return Err(NoMemory);
        };
        Ok(Recorder {
            alloc,
            world,
            image,
            journal: Journal::empty(alloc),
            marks: Marks::none(),
            gate: Gate::new(),
            away: 0,
            code: 0,
            steps: no_steps(),
            shared: None,
        })
    }

    /// What each recorder keeps, for a caller's proof. It does nothing.
    pub fn kept(&self)
        ensures reached { AreReached self.now.at.counts.real self.now.marks }
        ensures made { AwayBelow (length self.now.at.machine.harts) self.now.gate }
        ensures few { aways self.now.gate ≤ length self.now.at.machine.harts }
        ensures steps { length self.now.steps ≡ 64 }
    {
        let _ = &self.marks;
    }

    /// Whether hart `h` is away. None past 63 is.
    pub fn is_away(&self, h: u32) -> bool
        ensures { result ≡ is_away self.now.gate h }
    {
        self.gate.is_away(h)
    }

    /// Whether a stop is wanted.
    pub fn wanted(&self) -> bool
        ensures { result ≡ self.now.gate.wanted }
    {
        self.gate.wanted()
    }

    /// Whether no hart is away.
    pub fn none_away(&self) -> bool
        ensures { result ≡ (aways self.now.gate == 0) }
    {
        self.away == 0
    }

    pub fn world(&self) -> &World
        ensures { result.now ≡ self.now.at }
    {
        &self.world
    }

    pub fn log(&self) -> &[Event]
        ensures { result.now ≡ self.now.journal.entries }
    {
        &self.journal.entries
    }

    pub fn into_log(self) -> Vec<Event>
        ensures { result.items ≡ self.journal.entries }
    {
        self.journal.entries
    }

    /// What is due, where snapshots and attempts are due each `every` real steps.
    pub fn due(&self, every: u64) -> Due
        ensures { result ≡ due_of every self.now.at.counts.real self.now.marks }
    {
        self.marks.due(every, self.world.real())
    }

    /// The next step begins an entry of its own. It takes no memory.
    pub fn end_visit(&mut self)
        ensures is { self.new ≡ record self.old { journal = closed self.old.journal } }
        ensures runs { (start : Replaced) (hs : List ℕ) → IsRunOfLog start hs self.old → IsRunOfLog start hs self.new }
    {
        self.journal.is_open = false;
    }

    /// One step of hart `h`, as of the world. Out of memory, all is as before, and after the run's end too, where the log gets nothing.
    pub fn step(&mut self, h: u32) -> Result<Stepped, NoMemory>
        ensures kind { IfOk result (λ kind. kind ≡ kind_of h self.old.at) }
        ensures step { OnOk result (self.new.at ≡ step_of h self.old.at) }
        ensures journal { IfOk result (λ kind. self.new.journal ≡ noted (is_over kind) (Asked.Step h) self.old.journal) }
        ensures marks { self.new.marks ≡ self.old.marks }
        ensures gate { self.new.gate ≡ self.old.gate }
        ensures code { self.new.code ≡ self.old.code }
        ensures steps { IfOk result (λ kind. self.new.steps ≡ with_step_by (is_over kind) h self.old.steps) }
        ensures err { OnErr result (self.new ≡ self.old) }
        ensures over { IfOk result (λ kind. (kind ≡ Stepped.Over) ↔ (is_some self.old.at.machine.outcome ≡ true)) }
        ensures follows { IfOk result (λ kind. (o : State) → Related self.old.at o → Related self.new.at (original_after kind self.old.at.image h o)) }
        ensures records { IfOk result (λ kind. (ring : ℕ) (o : State) (hs : List ℕ) → Related self.old.at (original_run self.old.at.image hs o) → Records ring self.old.at o hs → Records ring self.new.at o (hs ++ of_real kind h)) }
        ensures unfolds { IfOk result (λ kind. unfolded self.new.journal.entries ≡ unfolded self.old.journal.entries ++ unless (is_over kind) (a_step h)) }
        ensures runs { IfOk result (λ kind. (start : Replaced) (hs : List ℕ) → IsRunOfLog start hs self.old → IsRunOfLog start (hs ++ of_real kind h) self.new) }
    {
        let _real = self.world.real();
        let Ok(()) = self.journal.room(self.away) else {
            return Err(NoMemory);
        };
        let Ok(kind) = self.world.step(h) else {
            return Err(NoMemory);
        };
        let left_out = is_over(kind);
        self.journal.note(left_out, Asked::Step(h));
        count_step(&mut self.steps, left_out, h);
        Ok(kind)
    }

    /// One real step of hart `h`, as of the world. Out of memory, all is as before, and after the run's end too, where the log gets
    /// nothing.
    pub fn real_step(&mut self, h: u32) -> Result<Stepped, NoMemory>
        ensures kind { IfOk result (λ kind. kind ≡ real_kind_of h self.old.at) }
        ensures step { OnOk result (self.new.at ≡ real_step_of h self.old.at) }
        ensures journal { IfOk result (λ kind. self.new.journal ≡ noted (is_over kind) (Asked.RealStep h) self.old.journal) }
        ensures marks { self.new.marks ≡ self.old.marks }
        ensures gate { self.new.gate ≡ self.old.gate }
        ensures code { self.new.code ≡ self.old.code }
        ensures steps { IfOk result (λ kind. self.new.steps ≡ with_step_by (is_over kind) h self.old.steps) }
        ensures err { OnErr result (self.new ≡ self.old) }
        ensures over { IfOk result (λ kind. (kind ≡ Stepped.Over) ↔ (is_some self.old.at.machine.outcome ≡ true)) }
        ensures real { IfOk result (λ kind. kind ≢ Stepped.Layout) }
        ensures one { IfOk result (λ kind. kind ≡ Stepped.Real → self.new.at.counts.real ≡ more self.old.at.counts.real) }
        ensures two { self.new.at.counts.layout ≤ self.old.at.counts.layout + 2 }
        ensures follows { OnOk result ((o : State) → Related self.old.at o → Related self.new.at (original_step self.old.at.image h o)) }
        ensures records { IfOk result (λ kind. (ring : ℕ) (o : State) (hs : List ℕ) → Related self.old.at (original_run self.old.at.image hs o) → Records ring self.old.at o hs → Records ring self.new.at o (hs ++ of_real kind h)) }
        ensures unfolds { IfOk result (λ kind. unfolded self.new.journal.entries ≡ unfolded self.old.journal.entries ++ unless (is_over kind) (a_real_step h)) }
        ensures runs { IfOk result (λ kind. (start : Replaced) (hs : List ℕ) → IsRunOfLog start hs self.old → IsRunOfLog start (hs ++ of_real kind h) self.new) }
    {
        let _real = self.world.real();
        let Ok(()) = self.journal.room(self.away) else {
            return Err(NoMemory);
        };
        let Ok(kind) = self.world.real_step(h) else {
            return Err(NoMemory);
        };
        let left_out = is_over(kind);
        self.journal.note(left_out, Asked::RealStep(h));
        count_step(&mut self.steps, left_out, h);
        Ok(kind)
    }

    fn make_snap(&mut self) -> Result<(), NoMemory>
        ensures is { SnapsAs self.old.at (is_some self.old.at.machine.outcome) result self.new.at }
        ensures journal { OnOk result (self.new.journal ≡ entered (is_some self.old.at.machine.outcome) Snap self.old.journal) }
        ensures marks { OnOk result (self.new.marks ≡ snapped (is_some self.old.at.machine.outcome) self.old.at.counts.real self.old.marks) }
        ensures gate { self.new.gate ≡ self.old.gate }
        ensures code { self.new.code ≡ self.old.code }
        ensures steps { self.new.steps ≡ self.old.steps }
        ensures err { OnErr result (self.new ≡ self.old) }
    {
        if self.world.outcome().is_some() {
            return Ok(());
        }
        let Ok(()) = self.journal.room(self.away) else {
            return Err(NoMemory);
        };
        let real = self.world.real();
        let Ok(()) = self.world.snap() else {
            return Err(NoMemory);
        };
        self.journal.enter(Event::Snap);
        self.marks.snap(real);
        Ok(())
    }

    /// Keeps the profile of the last transfers, as of the world. It is pending then until the next attempt. Out of memory, all is as
    /// before, and after the run's end too, where the answer is Ok.
    pub fn snap(&mut self) -> Result<(), NoMemory>
        ensures is { SnapsAs self.old.at (is_some self.old.at.machine.outcome) result self.new.at }
        ensures journal { OnOk result (self.new.journal ≡ entered (is_some self.old.at.machine.outcome) Snap self.old.journal) }
        ensures marks { OnOk result (self.new.marks ≡ snapped (is_some self.old.at.machine.outcome) self.old.at.counts.real self.old.marks) }
        ensures gate { self.new.gate ≡ self.old.gate }
        ensures code { self.new.code ≡ self.old.code }
        ensures steps { self.new.steps ≡ self.old.steps }
        ensures err { OnErr result (self.new ≡ self.old) }
        ensures related { (o : State) → Related self.old.at o → Related self.new.at o }
        ensures records { (ring : ℕ) (o : State) (hs : List ℕ) → Records ring self.old.at o hs → Records ring self.new.at o hs }
        ensures profile { OnOk result (is_some self.old.at.machine.outcome ≡ false → (ring : ℕ) (o : State) (hs : List ℕ) → Records ring self.old.at o hs → IsProfile (all_pairs (rings_of self.old.at.image ring hs o)) self.new.at.snapshot) }
        ensures unfolds { OnOk result (unfolded self.new.journal.entries ≡ unfolded self.old.journal.entries ++ unless (is_some self.old.at.machine.outcome) a_snap) }
        ensures runs { (start : Replaced) (hs : List ℕ) → IsRunOfLog start hs self.old → IsRunOfLog start hs self.new }
    {
        self.make_snap()
    }

    fn make_replace(&mut self, plan: &Plan) -> Result<(), Refusal>
        requires plan { plan_fault self.old.at.image plan.now ≡ None }
        ensures is { Attempts plan.now self.old.at (is_some self.old.at.machine.outcome) result self.new.at }
        ensures journal { self.new.journal ≡ entered (is_left_out (is_some self.old.at.machine.outcome) result) (Given plan.now) self.old.journal }
        ensures marks { self.new.marks ≡ attempted (is_left_out (is_some self.old.at.machine.outcome) result) self.old.at.counts.real self.old.marks }
        ensures gate { self.new.gate ≡ self.old.gate }
        ensures code { self.new.code ≡ replaced_code (is_some self.old.at.machine.outcome) result self.old.code }
        ensures steps { self.new.steps ≡ self.old.steps }
    {
        if self.world.outcome().is_some() {
            return Ok(());
        }
        let Ok(entry) = plan.copy(self.alloc) else {
            return Err(Refusal::NoMemory);
        };
        let Ok(()) = self.journal.room(self.away) else {
            return Err(Refusal::NoMemory);
        };
        let real = self.world.real();
        self.shared = None;
        let answer = self.world.replace(plan);
        if is_no_memory(&answer) {
            return answer;
        }
        self.journal.enter(Event::Given(entry));
        self.marks.attempt(real);
        self.code = number_after(answer.is_ok(), self.code);
        answer
    }

    /// Moves the functions of a plan, as of the world. A refused attempt is an entry too, and no snapshot is pending after it. Out of
    /// memory, all is as before, and after the run's end too, where the answer is Ok.
    pub fn replace(&mut self, plan: &Plan) -> Result<(), Refusal>
        requires plan { plan_fault self.old.at.image plan.now ≡ None }
        ensures is { Attempts plan.now self.old.at (is_some self.old.at.machine.outcome) result self.new.at }
        ensures journal { self.new.journal ≡ entered (is_left_out (is_some self.old.at.machine.outcome) result) (Given plan.now) self.old.journal }
        ensures marks { self.new.marks ≡ attempted (is_left_out (is_some self.old.at.machine.outcome) result) self.old.at.counts.real self.old.marks }
        ensures gate { self.new.gate ≡ self.old.gate }
        ensures code { self.new.code ≡ replaced_code (is_some self.old.at.machine.outcome) result self.old.code }
        ensures steps { self.new.steps ≡ self.old.steps }
        ensures err { IfErr result (λ why. why ≡ Refusal.NoMemory → self.new ≡ self.old) }
        ensures related { (o : State) → Related self.old.at o → Related self.new.at o }
        ensures records { (ring : ℕ) (o : State) (hs : List ℕ) → Records ring self.old.at o hs → Records ring self.new.at o hs }
        ensures unfolds { unfolded self.new.journal.entries ≡ unfolded self.old.journal.entries ++ unless (is_left_out (is_some self.old.at.machine.outcome) result) (a_replacement plan.now) }
        ensures runs { (start : Replaced) (hs : List ℕ) → IsRunOfLog start hs self.old → IsRunOfLog start hs self.new }
    {
        self.make_replace(plan)
    }

    fn make_retire(&mut self) -> Result<u32, NoMemory>
        ensures is { RetiresAs self.old.at (is_some self.old.at.machine.outcome) result self.new.at }
        ensures journal { OnOk result (self.new.journal ≡ entered (is_some self.old.at.machine.outcome) Retire self.old.journal) }
        ensures marks { self.new.marks ≡ self.old.marks }
        ensures gate { self.new.gate ≡ self.old.gate }
        ensures code { self.new.code ≡ retired_code (is_some self.old.at.machine.outcome) result self.old.code }
        ensures steps { self.new.steps ≡ self.old.steps }
        ensures err { OnErr result (self.new ≡ self.old) }
    {
        if self.world.outcome().is_some() {
            return Ok(0);
        }
        let Ok(()) = self.journal.room(self.away) else {
            return Err(NoMemory);
        };
        self.shared = None;
        let Ok(gone) = self.world.retire() else {
            return Err(NoMemory);
        };
        self.journal.enter(Event::Retire);
        self.code = number_after(0 < gone, self.code);
        Ok(gone)
    }

    /// Gives up the layouts that nothing refers to, as of the world, and says how many. Out of memory, all is as before, and after the
    /// run's end too, where the answer is 0.
    pub fn retire(&mut self) -> Result<u32, NoMemory>
        ensures is { RetiresAs self.old.at (is_some self.old.at.machine.outcome) result self.new.at }
        ensures journal { OnOk result (self.new.journal ≡ entered (is_some self.old.at.machine.outcome) Retire self.old.journal) }
        ensures marks { self.new.marks ≡ self.old.marks }
        ensures gate { self.new.gate ≡ self.old.gate }
        ensures code { self.new.code ≡ retired_code (is_some self.old.at.machine.outcome) result self.old.code }
        ensures steps { self.new.steps ≡ self.old.steps }
        ensures err { OnErr result (self.new ≡ self.old) }
        ensures related { (o : State) → Related self.old.at o → Related self.new.at o }
        ensures leads { (o : State) → Related self.old.at o → LeadsToCode (code_of self.new.at) self.new.at.machine }
        ensures records { (ring : ℕ) (o : State) (hs : List ℕ) → Records ring self.old.at o hs → Records ring self.new.at o hs }
        ensures unfolds { OnOk result (unfolded self.new.journal.entries ≡ unfolded self.old.journal.entries ++ unless (is_some self.old.at.machine.outcome) a_retirement) }
        ensures runs { (start : Replaced) (hs : List ℕ) → IsRunOfLog start hs self.old → IsRunOfLog start hs self.new }
    {
        self.make_retire()
    }

    /// What hart `h` takes with it.
    fn pack(&mut self, h: u32) -> Result<Away, NoMemory>
        requires { h < length self.old.at.machine.harts }
        ensures ok { IfOk result (λ away. away ≡ leaving h self.old) }
        ensures same { self.new ≡ self.old }
    {
        let Ok(code) = shared_code(self.alloc, &self.world, &self.image, &mut self.shared) else {
            return Err(NoMemory);
        };
        let steps = steps_of(&self.steps, h);
        let hart = self.world.hart(h);
        Away::leave(self.alloc, h, self.code, steps, &hart.regs, hart.pc, code)
    }

    fn let_go(&mut self, h: u32) -> Result<Away, NoMemory>
        requires here { is_away self.old.gate h ≡ false }
        requires open { self.old.gate.wanted ≡ false }
        requires can { can_step h self.old.at.machine ≡ true }
        ensures ok { IfOk result (λ away. (away ≡ leaving h self.old) × (self.new ≡ without h self.old)) }
        ensures more { OnOk result (aways self.new.gate ≡ aways self.old.gate + 1) }
        ensures err { OnErr result (self.new ≡ self.old) }
    {
        let Ok(away) = self.pack(h) else {
            return Err(NoMemory);
        };
        self.world.kept();
        let _made = self.world.made();
        let Ok(()) = self.journal.room(self.away) else {
            return Err(NoMemory);
        };
        let Ok(()) = self.gate.leave(h) else {
            return Err(NoMemory);
        };
        self.away += 1;
        Ok(away)
    }

    /// Hart `h` leaves with its registers, pc and the code. Room for the entry of its steps is made in the log, and nobody else uses it.
    /// `Held` comes before `NotLive`, and both before `NoMemory`; all is then as before. It costs the same whatever the program, but for a
    /// copy of the code at the first leaving after it changed.
    pub fn take_away(&mut self, h: u32) -> Result<Away, AwayFault>
        requires here { is_away self.old.gate h ≡ false }
        ensures ok { IfOk result (λ away. (away ≡ leaving h self.old) × (self.new ≡ without h self.old)) }
        ensures more { OnOk result (aways self.new.gate ≡ aways self.old.gate + 1) }
        ensures err { OnErr result (self.new ≡ self.old) }
        ensures held { (result ≡ Err AwayFault.Held) ↔ (self.old.gate.wanted ≡ true) }
        ensures not_live { (result ≡ Err AwayFault.NotLive) ↔ ((self.old.gate.wanted ≡ false) × (can_step h self.old.at.machine ≡ false)) }
    {
        if self.gate.wanted() {
            return Err(AwayFault::Held);
        }
        if !can_step(&self.world, h) {
            return Err(AwayFault::NotLive);
        }
        let Ok(away) = self.let_go(h) else {
            return Err(AwayFault::NoMemory);
        };
        Ok(away)
    }

    fn take_back(&mut self, h: u32)
        ensures { self.new ≡ with_back h self.old }
    {
        self.gate.kept();
        if h >= 64 {
            return;
        }
        if !self.gate.is_away(h) {
            return;
        }
        self.gate.back(h);
        self.away -= 1;
    }

    /// The first two values that differ, of what stands now and what was brought.
    fn first_apart(&self, away: &Away) -> Option<Stranger>
        ensures { result ≡ option_map stranger_of (first_apart (compared_home self.now away.now)) }
    {
        let h = away.hart();
        let is_away = self.gate.is_away(h);
        let number = self.code;
        let steps = steps_of(&self.steps, h);
        apart(away, &self.world, is_away, number, steps)
    }

    /// Adds what a hart brings that is no stranger.
    fn take_in(&mut self, away: Away)
        requires going { is_some self.old.at.machine.outcome ≡ false }
        requires home { first_apart (compared_home self.old away) ≡ None }
        ensures is { self.new ≡ with_home away self.old }
        ensures was_away { is_away self.old.gate away.hart ≡ true }
        ensures can { can_step away.hart self.old.at.machine ≡ true }
        ensures still { can_step away.hart self.new.at.machine ≡ true }
        ensures real { self.new.at.counts.real ≡ raised away.made self.old.at.counts.real }
        ensures outcome { self.new.at.machine.outcome ≡ self.old.at.machine.outcome }
        ensures run { IsRun (replicate away.made (a_real_step away.hart)) (replicate away.made away.hart) self.old.at self.new.at }
        ensures follows { (o : State) → Related self.old.at o → Related self.new.at (original_run self.old.at.image (replicate away.made away.hart) o) }
        ensures records { (ring : ℕ) (o : State) (hs : List ℕ) → Related self.old.at (original_run self.old.at.image hs o) → Records ring self.old.at o hs → Records ring self.new.at o (hs ++ replicate away.made away.hart) }
    {
        let h = away.hart();
        let made = u64::from(away.made());
        let _real = self.world.real();
        self.gate.kept();
        self.gate.back(h);
        self.away -= 1;
        bring(away, &mut self.world);
        self.journal.note_times(Asked::RealStep(h), made);
        count_steps(&mut self.steps, h, made);
    }

    /// A hart comes home, and its steps are added as real steps are, unless it is a stranger: one of the values that its steps rested on is
    /// another now. After the run's end nothing is added, and the answer is Ok. In each case it is no longer away. It takes no memory.
    pub fn home(&mut self, away: Away) -> Result<(), Stranger>
        ensures stranger { is_some self.old.at.machine.outcome ≡ false → TellsStranger result (compared_home self.old away) }
        ensures over { is_some self.old.at.machine.outcome ≡ true → IsOk result × (self.new ≡ with_back away.hart self.old) }
        ensures ok { OnOk result (is_some self.old.at.machine.outcome ≡ false → self.new ≡ with_home away self.old) }
        ensures err { OnErr result (self.new ≡ with_back away.hart self.old) }
        ensures few { away.made ≤ 64 }
        ensures was_away { OnOk result (is_some self.old.at.machine.outcome ≡ false → is_away self.old.gate away.hart ≡ true) }
        ensures can { OnOk result (is_some self.old.at.machine.outcome ≡ false → can_step away.hart self.old.at.machine ≡ true) }
        ensures still { OnOk result (is_some self.old.at.machine.outcome ≡ false → can_step away.hart self.new.at.machine ≡ true) }
        ensures real { OnOk result (is_some self.old.at.machine.outcome ≡ false → self.new.at.counts.real ≡ raised away.made self.old.at.counts.real) }
        ensures outcome { self.new.at.machine.outcome ≡ self.old.at.machine.outcome }
        ensures run { OnOk result (is_some self.old.at.machine.outcome ≡ false → IsRun (replicate away.made (a_real_step away.hart)) (replicate away.made away.hart) self.old.at self.new.at) }
        ensures follows { OnOk result (is_some self.old.at.machine.outcome ≡ false → (o : State) → Related self.old.at o → Related self.new.at (original_run self.old.at.image (replicate away.made away.hart) o)) }
        ensures records { OnOk result (is_some self.old.at.machine.outcome ≡ false → (ring : ℕ) (o : State) (hs : List ℕ) → Related self.old.at (original_run self.old.at.image hs o) → Records ring self.old.at o hs → Records ring self.new.at o (hs ++ replicate away.made away.hart)) }
        ensures unfolds { OnOk result (is_some self.old.at.machine.outcome ≡ false → unfolded self.new.journal.entries ≡ unfolded self.old.journal.entries ++ replicate away.made (a_real_step away.hart)) }
        ensures runs { OnOk result (is_some self.old.at.machine.outcome ≡ false → (start : Replaced) (hs : List ℕ) → IsRunOfLog start hs self.old → IsRunOfLog start (hs ++ replicate away.made away.hart) self.new) }
    {
        away.kept();
        if self.world.outcome().is_some() {
            self.take_back(away.hart());
            return Ok(());
        }
        if let Some(stranger) = self.first_apart(&away) {
            self.take_back(away.hart());
            return Err(stranger);
        }
        self.take_in(away);
        Ok(())
    }

    fn ask_to_stop(&mut self) -> Result<(), StillAway>
        ensures ok { OnOk result (self.new ≡ with_wanted false self.old) }
        ensures err { OnErr result (self.new ≡ with_wanted true self.old) }
        ensures none { OnOk result ((h : ℕ) → is_away self.old.gate h ≡ false) }
        ensures away { IfErr result (λ e. is_away self.old.gate e.h ≡ true) }
        ensures least { IfErr result (λ e. (h : ℕ) → h < e.h → is_away self.old.gate h ≡ false) }
    {
        if let Err(still) = self.gate.stopped() {
            self.gate.want();
            return Err(still);
        }
        self.gate.done();
        Ok(())
    }

    /// The world while no hart is away, or else the least that is: a stop is then wanted, so that no hart leaves until all have come home. No stop is
    /// wanted once the world was had so.
    pub fn stopped(&mut self) -> Result<Stopped<'_>, StillAway>
        ensures* rests { sem 𝓛 (RestsIfErr the_row self.entry (λ s. s.world.ghost_name) result (λ last. last ≡ with_wanted true self.old)) }
        ensures same_reference { IfOk result (λ s. s.world.ghost_name ≡ self.entry.ghost_name) }
        ensures now { IfOk result (λ s. s.world.now ≡ with_wanted false self.old) }
        ensures none { OnOk result ((h : ℕ) → is_away self.old.gate h ≡ false) }
        ensures away { IfErr result (λ e. is_away self.old.gate e.h ≡ true) }
        ensures least { IfErr result (λ e. (h : ℕ) → h < e.h → is_away self.old.gate h ≡ false) }
    {
        if let Err(still) = self.ask_to_stop() {
            return Err(still);
        }
        Ok(Stopped { world: self })
    }
}
