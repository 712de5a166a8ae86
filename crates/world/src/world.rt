//! The machine whose code is moved, and its step.

ghost use Rattle.std.specs.Prelude.{◌≡◌, ◌≢◌, ◌+◌, ◌++◌, ◌^◌, ◌<◌, ◌≤◌, ◌↔◌, if◌then◌else◌, ℕ, List, [], length, replicate, true, false, None, IfOk, IfErr, OnOk, OnErr, is_some};
ghost use Rattle.std.specs.Arc.{arc_value};
ghost use Rattle.branch_ring.specs.Profiles.{IsProfile, all_pairs};
ghost use Rattle.guest_sys.specs.Calls.{output};
ghost use Rattle.guest_sys.specs.State.{IsOrderly};
ghost use Rattle.machine.specs.Harts.{is_live, hart_in};
ghost use Rattle.machine.specs.Start.{start_of};
ghost use Rattle.machine.specs.States.{State};
ghost use Rattle.machine.specs.Steps.{original_step, original_run};
ghost use Rattle.plans.specs.Given.{plan_fault};
ghost use Rattle.sim_laws.specs.Steps.{is_layout, kind_until, original_after};
ghost use Rattle.world.specs.Worlds.{IsSound, Related, started, code_of, kind_of, step_of, more};
ghost use Rattle.world.specs.Runs.{until_real, taken_back, real_step_of, real_kind_of, real_steps_of, of_real};
ghost use Rattle.world.specs.Replacing.{Refuses, IsPlacement, IsReplaced, slots_sent, refused_as, RefusedBy, Attempts};
ghost use Rattle.retire.specs.References.{AreUnreferenced};
ghost use Rattle.world.specs.Retiring.{held_by, without, freed, RetiresAs, LeadsToCode};
ghost use Rattle.world.specs.Records.{Records, SnapsAs, rings_of};
ghost use Rattle.world.specs.Adopting.{adopted, shown_of};
ghost use Rattle.world.specs.Told.{retired_in, facts_of};

use crate::adopting::{more_by, note_all};
use crate::code::{Before, Led, is_layout, is_over, led_by, other_step_in};
use crate::counts::{Counts, more};
use crate::giving_up::{give_up, links_held, pcs_of, text_aims};
use crate::live::{add, aim};
use crate::place::{Placement, is_no_memory, place};
use crate::points::{Lives, live_word};
use crate::rings::Rings;
use crate::shared::{CodeNow, Looked, look_in};
use crate::slots::send;
use crate::told::{changed_in, hart_facts, layout_facts, slots_in};
use branch_ring::profile::Profile;
use hart::hart::Hart;
use image::picture::Image;
use link_tags::value::Value;
use machine::machine::Machine;
use machine::outcome::Outcome;
use oc_base::fault::NoMemory;
use oc_base::items::Items;
use patcher::text::TextNow;
use plans::plan::Plan;
use region::space::Region;
use retire::unreferenced::unreferenced;
use sched_log::facts::{Facts, Refusal, Refused};
use sim_laws::stepped::Stepped;
use std::alloc::Global;
use std::marker::Model;
use std::sync::Arc;

/// A machine whose code is moved while it runs.
#[derive(Drop)]
pub struct World {
    alloc: Global,
    image: Image,
    text: TextNow,
    lives: Lives,
    /// The position of the layout in which a word was last found. It may be any number.
    recent: usize,
    numbers: Vec<u64>,
    region: Region,
    machine: Machine,
    counts: Counts,
    refusals: Vec<Refused>,
    rings: Rings,
    snapshot: Profile,
}

impl Model for World {
    ghost use Rattle.std.specs.Prelude.{◌≡◌, ◌≤◌, length};
    ghost use Rattle.std.specs.Vec.{vec_capacity};
    ghost use Rattle.std.specs.Coded.{codes};
    ghost use Rattle.layout.specs.Bases.{ArePlaces};
    ghost use Rattle.guest_mem.specs.Memory.{memory_code};
    ghost use Rattle.world.specs.Worlds.{Replaced, IsSound};

    ghost Value = { Replaced };

    ghost coded = { Prim.hlevel (codes, memory_code) };

    ghost view = { λ w. record {
      image = w.image;
      text = w.text;
      lives = w.lives.layouts.items;
      numbers = w.numbers.items;
      free = w.region.free;
      machine = w.machine;
      counts = w.counts;
      refusals = w.refusals.items;
      rings = w.rings;
      snapshot = w.snapshot;
    } };

    ghost invariant = { λ w. (w.region.all ≡ w.image.region) × IsSound w.image w.text w.lives.layouts.items w.numbers.items w.region.free
        × ArePlaces w.lives.layouts.items w.lives.places.items × (length w.lives.layouts.items ≤ vec_capacity w.lives.places) };
}

impl World {
    /// The world before its first step, with what the guest will read as its input: no layout is live, all of the region is free,
    /// and the text is the image's. Of each hart the last `ring` transfers are kept.
    pub fn start(alloc: Global, image: Image, input: Vec<u8>, ring: u32) -> Result<World, NoMemory>
        ensures is { IfOk result (λ w. w ≡ started image ring input.items) }
        ensures related { IfOk result (λ w. Related w (start_of image input.items)) }
        ensures records { IfOk result (λ w. Records ring w (start_of image input.items) []) }
    {
        image.kept();
        World::make_start(alloc, image, input, ring)
    }

    fn make_start(alloc: Global, image: Image, input: Vec<u8>, ring: u32) -> Result<World, NoMemory>
        ensures { IfOk result (λ w. w ≡ started image ring input.items) }
    {
        image.kept();
        let text = TextNow::of(alloc, &image)?;
        let region = Region::new(alloc, image.region())?;
        let machine = Machine::start(alloc, &image, input)?;
        let rings = Rings::start(alloc, ring)?;
        Ok(World {
            alloc,
            image,
            text,
            lives: Lives {
                layouts: Vec::new(alloc),
                places: Vec::new(alloc),
            },
            recent: 0,
            numbers: Vec::new(alloc),
            region,
            machine,
            counts: Counts::zero(),
            refusals: Vec::new(alloc),
            rings,
            snapshot: Profile::empty(alloc),
        })
    }

    /// What each world keeps, for a caller's proof. It does nothing.
    pub fn kept(&self)
        ensures code { IsSound self.now.image self.now.text self.now.lives self.now.numbers self.now.free }
        ensures system { IsOrderly self.now.machine.system }
    {
        self.machine.orderly();
    }

    pub fn image(&self) -> &Image
        ensures { result.now ≡ self.now.image }
    {
        &self.image
    }

    /// How the run ended, once it has.
    pub fn outcome(&self) -> Option<Outcome>
        ensures { result ≡ self.now.machine.outcome }
    {
        self.machine.outcome()
    }

    /// What the guest has written to output 1 or 2.
    pub fn output(&self, k: u8) -> &[u8]
        ensures { result.now ≡ output self.now.machine.system k }
    {
        self.machine.output(k)
    }

    /// How many harts were made. Their numbers are those below.
    pub fn made(&self) -> u32
        ensures system { result ≡ self.now.machine.system.made }
        ensures harts { result ≡ length self.now.machine.harts }
    {
        self.machine.made()
    }

    /// Whether a hart is live. One that isn't made is not.
    pub fn is_live(&self, h: u32) -> bool
        ensures { result ≡ is_live (hart_in self.now.machine.harts h).status }
    {
        self.machine.is_live(h)
    }

    /// How many steps of the original machine were made.
    pub fn real(&self) -> u64
        ensures { result ≡ self.now.counts.real }
    {
        self.counts.real
    }

    /// How many attempts to replace code weren't refused.
    pub fn done(&self) -> u64
        ensures { result ≡ self.now.counts.done }
    {
        self.counts.done
    }

    /// How many layouts were given up.
    pub fn retired(&self) -> u64
        ensures { result ≡ retired_in self.now }
    {
        self.counts
            .placed
            .saturating_sub(self.lives.layouts.len() as u64)
    }

    /// How many layouts are live.
    pub fn live_layouts(&self) -> usize
        ensures { result ≡ length self.now.lives }
    {
        self.lives.layouts.len()
    }

    /// The step of hart `h` where it isn't one of layouts alone, and what it is. After want of memory all is as before.
    #[inline(always)]
    #[tactic(auto, unfolding(crate::specs::Worlds::step_of))]
    fn make_other_step(&mut self, h: u32) -> Result<Stepped, NoMemory>
        ensures kind { IfOk result (λ kind. kind ≡ kind_of h self.old) }
        ensures step { OnOk result (self.new ≡ (if is_layout (kind_of h self.old) then self.old else step_of h self.old)) }
        ensures err { OnErr result (self.new ≡ self.old) }
    {
        self.kept();
        let Ok(made) = other_step_in(
            &mut self.machine,
            &self.image,
            &self.text,
            &self.lives,
            &mut self.recent,
            h,
        ) else {
            return Err(NoMemory);
        };
        if is_layout(made.kind) {
            return Ok(made.kind);
        }
        self.counts.count(made.kind);
        self.rings.note(h, made.transfer);
        Ok(made.kind)
    }

    /// The same, out of the loops of steps.
    #[inline(never)]
    fn other_step(&mut self, h: u32) -> Result<Stepped, NoMemory>
        ensures kind { IfOk result (λ kind. kind ≡ kind_of h self.old) }
        ensures step { OnOk result (self.new ≡ (if is_layout (kind_of h self.old) then self.old else step_of h self.old)) }
        ensures err { OnErr result (self.new ≡ self.old) }
    {
        self.make_other_step(h)
    }

    /// Makes the step of hart `h`, one of layouts alone, and gives what takes it back. It takes no memory.
    #[inline(always)]
    #[tactic(auto, unfolding(crate::specs::Worlds::step_of))]
    fn layout_step(&mut self, h: u32) -> Before
        requires { is_layout (kind_of h self.old) ≡ true }
        ensures step { self.new ≡ step_of h self.old }
        ensures back { taken_back h result self.new ≡ self.old }
    {
        self.kept();
        let hart = self.machine.hart(h);
        let pc = hart.pc;
        let led = led_by(live_word(&self.lives, &mut self.recent, pc), pc);
        let before = Before {
            led: Led {
                rd: led.rd,
                value: hart.reg(led.rd),
                pc,
            },
            layout: self.counts.layout,
        };
        self.machine.lead(h, led.rd, led.value, led.pc);
        self.counts.count(Stepped::Layout);
        before
    }

    /// Takes a step of layouts alone back.
    fn take_back(&mut self, h: u32, before: Before)
        requires { h < length self.old.machine.harts }
        ensures { self.new ≡ taken_back h before self.old }
    {
        let led = before.led;
        self.machine.lead(h, led.rd, led.value, led.pc);
        self.counts.layout = before.layout;
    }

    /// One step of hart `h`, and what it was. After want of memory all is as before.
    fn one_step(&mut self, h: u32) -> Result<Stepped, NoMemory>
        ensures kind { IfOk result (λ kind. kind ≡ kind_of h self.old) }
        ensures step { OnOk result (self.new ≡ step_of h self.old) }
        ensures err { OnErr result (self.new ≡ self.old) }
    {
        let Ok(kind) = self.other_step(h) else {
            return Err(NoMemory);
        };
        if is_layout(kind) {
            self.layout_step(h);
        }
        Ok(kind)
    }

    /// One step of hart `h`: one of the original machine, or one of layouts alone. A hart that waits, has ended or isn't made makes an
    /// idle one, which is real. After want of memory all is as before.
    ///
    /// Whatever state of the original machine the world stands for, it stands for the one that the original machine comes to by then.
    pub fn step(&mut self, h: u32) -> Result<Stepped, NoMemory>
        ensures kind { IfOk result (λ kind. kind ≡ kind_of h self.old) }
        ensures step { OnOk result (self.new ≡ step_of h self.old) }
        ensures err { OnErr result (self.new ≡ self.old) }
        ensures over { IfOk result (λ kind. (kind ≡ Stepped.Over) ↔ (is_some self.old.machine.outcome ≡ true)) }
        ensures follows { IfOk result (λ kind. (o : State) → Related self.old o → Related self.new (original_after kind self.old.image h o)) }
        ensures records { IfOk result (λ kind. (ring : ℕ) (o : State) (hs : List ℕ) → Related self.old (original_run self.old.image hs o) → Records ring self.old o hs → Records ring self.new o (hs ++ of_real kind h)) }
    {
        self.kept();
        let Ok(kind) = self.one_step(h) else {
            return Err(NoMemory);
        };
        Ok(kind)
    }

    /// Steps of hart `h` up to one that isn't one of layouts alone, two at most, and what the last is. After want of memory all is as
    /// before.
    fn second_step(&mut self, h: u32) -> Result<Stepped, NoMemory>
        ensures kind { IfOk result (λ kind. kind ≡ kind_until self.old.image (code_of self.old) 2 h self.old.machine) }
        ensures step { OnOk result (self.new ≡ until_real 2 h self.old) }
        ensures err { OnErr result (self.new ≡ self.old) }
    {
        let Ok(second) = self.other_step(h) else {
            return Err(NoMemory);
        };
        if !is_layout(second) {
            return Ok(second);
        }
        let before = self.layout_step(h);
        let Ok(third) = self.one_step(h) else {
            self.take_back(h, before);
            return Err(NoMemory);
        };
        Ok(third)
    }

    /// The same where a step of layouts alone comes first, three at most.
    #[inline(never)]
    fn past_layout(&mut self, h: u32) -> Result<Stepped, NoMemory>
        requires { is_layout (kind_of h self.old) ≡ true }
        ensures kind { IfOk result (λ kind. kind ≡ real_kind_of h self.old) }
        ensures step { OnOk result (self.new ≡ real_step_of h self.old) }
        ensures err { OnErr result (self.new ≡ self.old) }
    {
        let before = self.layout_step(h);
        let Ok(kind) = self.second_step(h) else {
            self.take_back(h, before);
            return Err(NoMemory);
        };
        Ok(kind)
    }

    #[inline(always)]
    fn make_real_step(&mut self, h: u32) -> Result<Stepped, NoMemory>
        ensures kind { IfOk result (λ kind. kind ≡ real_kind_of h self.old) }
        ensures step { OnOk result (self.new ≡ real_step_of h self.old) }
        ensures err { OnErr result (self.new ≡ self.old) }
    {
        let Ok(kind) = self.make_other_step(h) else {
            return Err(NoMemory);
        };
        if is_layout(kind) {
            return self.past_layout(h);
        }
        Ok(kind)
    }

    /// One real step of hart `h`, and the steps of layouts before it, of which there are never more than two. After want of memory all
    /// is as before.
    pub fn real_step(&mut self, h: u32) -> Result<Stepped, NoMemory>
        ensures kind { IfOk result (λ kind. kind ≡ real_kind_of h self.old) }
        ensures step { OnOk result (self.new ≡ real_step_of h self.old) }
        ensures err { OnErr result (self.new ≡ self.old) }
        ensures over { IfOk result (λ kind. (kind ≡ Stepped.Over) ↔ (is_some self.old.machine.outcome ≡ true)) }
        ensures real { IfOk result (λ kind. kind ≢ Stepped.Layout) }
        ensures one { IfOk result (λ kind. kind ≡ Stepped.Real → self.new.counts.real ≡ more self.old.counts.real) }
        ensures two { self.new.counts.layout ≤ self.old.counts.layout + 2 }
        ensures follows { OnOk result ((o : State) → Related self.old o → Related self.new (original_step self.old.image h o)) }
        ensures records { IfOk result (λ kind. (ring : ℕ) (o : State) (hs : List ℕ) → Related self.old (original_run self.old.image hs o) → Records ring self.old o hs → Records ring self.new o (hs ++ of_real kind h)) }
    {
        self.kept();
        let Ok(kind) = self.make_real_step(h) else {
            return Err(NoMemory);
        };
        Ok(kind)
    }

    /// So many real steps of hart `h`. After want of memory some of them are made.
    pub fn run(&mut self, h: u32, steps: u64) -> Result<(), NoMemory>
        ensures ok { OnOk result (self.new ≡ real_steps_of steps h self.old) }
        ensures err { OnErr result ((n : ℕ) × (n < steps) × (self.new ≡ real_steps_of n h self.old)) }
        ensures follows { OnOk result ((o : State) → Related self.old o → Related self.new (original_run self.old.image (replicate steps h) o)) }
        ensures records { OnOk result ((ring : ℕ) (o : State) (hs : List ℕ) → Related self.old (original_run self.old.image hs o) → Records ring self.old o hs → Records ring self.new o (hs ++ replicate steps h)) }
    {
        self.kept();
        self.make_run(h, steps)
    }

    fn make_run(&mut self, h: u32, steps: u64) -> Result<(), NoMemory>
        ensures ok { OnOk result (self.new ≡ real_steps_of steps h self.old) }
        ensures err { OnErr result ((n : ℕ) × (n < steps) × (self.new ≡ real_steps_of n h self.old)) }
    {
        for _step in 0..steps {
            self.kept();
            let Ok(kind) = self.make_real_step(h) else {
                return Err(NoMemory);
            };
            if is_over(kind) {
                return Ok(());
            }
        }
        Ok(())
    }

    /// What a replacement makes, or the first cause to refuse it.
    fn work_out(&self, plan: &Plan) -> Result<Placement, Refusal>
        requires { plan_fault self.now.image plan.now ≡ None }
        ensures is { IfOk result (λ q. IsPlacement self.now.image self.now.lives self.now.free plan.now q.layout q.patches) }
        ensures slots { IfOk result (λ q. q.slots.items ≡ slots_sent self.now.image (code_of self.now) q.layout self.now.machine.memory) }
        ensures refused { IfErr result (Refuses self.now.image self.now.lives self.now.free plan.now) }
    {
        place(
            self.alloc,
            &self.image,
            &self.region,
            &self.machine,
            &self.lives,
            plan,
        )
    }

    /// Makes what was worked out.
    fn put(&mut self, plan: &Plan, placement: Placement) -> Result<(), NoMemory>
        requires placement { IsPlacement self.old.image self.old.lives self.old.free plan.now placement.layout placement.patches }
        requires slots { placement.slots.items ≡ slots_sent self.old.image (code_of self.old) placement.layout self.old.machine.memory }
        ensures ok { OnOk result (IsReplaced plan.now self.old self.new) }
        ensures err { OnErr result (self.new ≡ self.old) }
    {
        let _ = plan;
        self.region.reserve(1)?;
        self.lives.reserve_one()?;
        self.numbers.reserve(1)?;
        let Placement {
            layout,
            patches,
            slots,
        } = placement;
        send(&mut self.machine, &slots);
        aim(patches, &mut self.text, &mut self.lives.layouts);
        add(
            &mut self.lives.layouts,
            &mut self.numbers,
            &mut self.region,
            &mut self.counts,
            layout,
        );
        self.lives.place_all();
        self.counts.finish();
        Ok(())
    }

    /// Counts a refused attempt and keeps its cause.
    fn keep(&mut self, why: Refusal) -> Result<(), NoMemory>
        ensures ok { OnOk result (self.new ≡ refused_as why self.old) }
        ensures err { OnErr result (self.new ≡ self.old) }
    {
        self.refusals.push(Refused {
            attempt: more(self.counts.attempts),
            refusal: why,
        })?;
        self.counts.attempt();
        Ok(())
    }

    /// Answers a refused attempt.
    fn refuse(&mut self, why: Refusal) -> Result<(), Refusal>
        ensures { RefusedBy why self.old result self.new }
    {
        if is_no_memory(&why) {
            return Err(Refusal::NoMemory);
        }
        let Ok(()) = self.keep(why) else {
            return Err(Refusal::NoMemory);
        };
        Err(why)
    }

    fn make_replace(&mut self, plan: &Plan) -> Result<(), Refusal>
        requires plan { plan_fault self.old.image plan.now ≡ None }
        ensures { Attempts plan.now self.old (is_some self.old.machine.outcome) result self.new }
    {
        if self.outcome().is_some() {
            return Ok(());
        }
        let placement = match self.work_out(plan) {
            Ok(placement) => placement,
            Err(why) => return self.refuse(why),
        };
        let Ok(()) = self.put(plan, placement) else {
            return Err(Refusal::NoMemory);
        };
        Ok(())
    }

    /// Makes the layout of a plan, at the least address that fits, and sends every call of the text and of the live layouts to it, and
    /// each slot that the program hasn't overwritten; a plan that moves no function sends them all back to original code. A refused attempt is counted and kept, and nothing else is changed. Want of memory changes
    /// nothing and isn't counted. After the run's end nothing is changed, and the answer is Ok.
    ///
    /// Whatever state of the original machine the world stands for, it goes on to stand for it.
    pub fn replace(&mut self, plan: &Plan) -> Result<(), Refusal>
        requires plan { plan_fault self.old.image plan.now ≡ None }
        ensures is { Attempts plan.now self.old (is_some self.old.machine.outcome) result self.new }
        ensures related { (o : State) → Related self.old o → Related self.new o }
        ensures records { (ring : ℕ) (o : State) (hs : List ℕ) → Records ring self.old o hs → Records ring self.new o hs }
    {
        let result = self.make_replace(plan);
        self.kept();
        result
    }

    /// The positions of the layouts that nothing refers to.
    fn unreferenced(&self) -> Result<Vec<u32>, NoMemory>
        ensures are { IfOk result (λ v. AreUnreferenced self.now.lives (held_by self.now) v.items) }
        ensures few { IfOk result (λ v. length v.items < 2 ^ 32) }
    {
        self.kept();
        let pcs = pcs_of(self.alloc, &self.machine)?;
        let links = links_held(self.alloc, &self.machine)?;
        let aims = text_aims(self.alloc, &self.image, &self.text)?;
        let gone = unreferenced(self.alloc, &self.lives.layouts, &pcs, &links, &aims)?;
        Ok(gone)
    }

    /// Gives up these layouts.
    fn give_up(&mut self, gone: &[u32]) -> Result<(), NoMemory>
        requires { AreUnreferenced self.old.lives (held_by self.old) gone.now }
        ensures ok { OnOk result (self.new ≡ record self.old {
          lives = without gone.now self.old.lives;
          numbers = without gone.now self.old.numbers;
          free = freed gone.now self.old.lives self.old.free;
        }) }
        ensures err { OnErr result (self.new ≡ self.old) }
    {
        self.kept();
        self.region.reserve(gone.len())?;
        give_up(
            &mut self.lives.layouts,
            &mut self.numbers,
            &mut self.region,
            gone,
        );
        self.lives.place_all();
        Ok(())
    }

    fn make_retire(&mut self) -> Result<u32, NoMemory>
        ensures { RetiresAs self.old (is_some self.old.machine.outcome) result self.new }
    {
        if self.outcome().is_some() {
            return Ok(0);
        }
        let gone = self.unreferenced()?;
        self.give_up(&gone)?;
        Ok(gone.len() as u32)
    }

    /// Gives up exactly the layouts that nothing refers to, and says how many. Their ranges are free then. Out of memory, nothing is
    /// changed. After the run's end nothing is changed, and the answer is 0.
    ///
    /// Whatever state of the original machine the world stands for, it goes on to stand for it, and each live code pointer leads to code
    /// then: none leads into a layout that was given up.
    pub fn retire(&mut self) -> Result<u32, NoMemory>
        ensures is { RetiresAs self.old (is_some self.old.machine.outcome) result self.new }
        ensures related { (o : State) → Related self.old o → Related self.new o }
        ensures leads { (o : State) → Related self.old o → LeadsToCode (code_of self.new) self.new.machine }
        ensures records { (ring : ℕ) (o : State) (hs : List ℕ) → Records ring self.old o hs → Records ring self.new o hs }
    {
        self.make_retire()
    }

    fn make_snap(&mut self) -> Result<(), NoMemory>
        ensures { SnapsAs self.old (is_some self.old.machine.outcome) result self.new }
    {
        if self.outcome().is_some() {
            return Ok(());
        }
        let profile = self.rings.profile(self.alloc)?;
        self.snapshot = profile;
        self.counts.snap();
        Ok(())
    }

    /// Counts the transfers that are kept, of all harts, and keeps the profile in place of the last one. Out of memory, nothing is
    /// changed. After the run's end nothing is changed, and the answer is Ok.
    ///
    /// Where the rings record the original machine's run, so does the profile: the last transfers of each hart, by original addresses,
    /// whatever code they were made in.
    pub fn snap(&mut self) -> Result<(), NoMemory>
        ensures is { SnapsAs self.old (is_some self.old.machine.outcome) result self.new }
        ensures related { (o : State) → Related self.old o → Related self.new o }
        ensures records { (ring : ℕ) (o : State) (hs : List ℕ) → Records ring self.old o hs → Records ring self.new o hs }
        ensures profile { OnOk result (is_some self.old.machine.outcome ≡ false → (ring : ℕ) (o : State) (hs : List ℕ) → Records ring self.old o hs → IsProfile (all_pairs (rings_of self.old.image ring hs o)) self.new.snapshot) }
    {
        self.make_snap()
    }

    /// The profile of the last snapshot, empty before the first.
    pub fn snapshot(&self) -> &Profile
        ensures { result.now ≡ self.now.snapshot }
    {
        &self.snapshot
    }

    /// The counts, what was refused, and what stands now.
    pub fn facts(&self, alloc: Global) -> Result<Facts, NoMemory>
        ensures { IfOk result (λ f. f ≡ facts_of self.now) }
    {
        let region = self.image.region();
        let links = self.machine.links(alloc)?;
        let refusals = Vec::from_slice(alloc, &self.refusals)?;
        let layouts = layout_facts(alloc, &self.numbers, &self.lives.layouts)?;
        let harts = hart_facts(alloc, &self.machine, &self.lives, region)?;
        Ok(Facts {
            real: self.counts.real,
            layout: self.counts.layout,
            snaps: self.counts.snaps,
            attempts: self.counts.attempts,
            done: self.counts.done,
            retired: self.retired(),
            refusals: Items::from_vec(refusals),
            sites: changed_in(&self.image, &self.text),
            slots: slots_in(region, &links, self.image.slots()),
            layouts: Items::from_vec(layouts),
            harts: Items::from_vec(harts),
        })
    }

    /// Puts in what hart `h` did out of the world.
    fn take_in(
        &mut self,
        h: u32,
        regs: [Value; 32],
        pc: u64,
        real: u64,
        layout: u64,
        transfers: &[(u64, u64)],
    )
        requires { h < length self.old.machine.harts }
        ensures { self.new ≡ adopted h (record { regs = regs; pc = pc; real = real; layout = layout; transfers = transfers.now }) self.old }
    {
        self.machine.set_hart(h, regs, pc);
        self.counts.real = more_by(real, self.counts.real);
        self.counts.layout = more_by(layout, self.counts.layout);
        note_all(&mut self.rings, h, transfers);
    }

    /// Takes in what hart `h` did out of the world: its registers and pc then, how many real steps and how many of layouts alone it made,
    /// and the transfers of the real ones. It takes no memory.
    ///
    /// It is for real steps that the world itself would have made so, and then is what they are.
    pub fn adopt(
        &mut self,
        h: u32,
        regs: [Value; 32],
        pc: u64,
        real: u64,
        layout: u64,
        transfers: &[(u64, u64)],
    )
        requires made { h < length self.old.machine.harts }
        requires leads { real_steps_of real h self.old ≡ adopted h (record { regs = regs; pc = pc; real = real; layout = layout; transfers = transfers.now }) self.old }
        ensures is { self.new ≡ real_steps_of real h self.old }
        ensures adopted { self.new ≡ adopted h (record { regs = regs; pc = pc; real = real; layout = layout; transfers = transfers.now }) self.old }
        ensures follows { (o : State) → Related self.old o → Related self.new (original_run self.old.image (replicate real h) o) }
        ensures records { (ring : ℕ) (o : State) (hs : List ℕ) → Related self.old (original_run self.old.image hs o) → Records ring self.old o hs → Records ring self.new o (hs ++ replicate real h) }
    {
        self.kept();
        self.take_in(h, regs, pc, real, layout, transfers);
    }

    /// A copy of the code, for a hart that goes by it out of the world.
    pub fn code(&self, alloc: Global, image: &Arc<Image>) -> Result<CodeNow, NoMemory>
        requires { arc_value image.now ≡ self.now.image }
        ensures { IfOk result (λ c. c ≡ shown_of self.now) }
    {
        self.kept();
        CodeNow::of(alloc, image, &self.text, &self.lives)
    }

    /// What stands at an address. The layout at the position `recent` is tried before the search, and becomes the one in which the address
    /// was found. It may be any number.
    #[inline(always)]
    pub fn look(&self, recent: &mut usize, at: u64) -> Looked
        ensures word { result.word ≡ (code_of self.now).word at }
        ensures point { result.point ≡ (code_of self.now).point at }
    {
        self.kept();
        look_in(&self.image, &self.text, &self.lives, recent, at)
    }

    /// A hart that was made.
    pub fn hart(&self, h: u32) -> &Hart
        requires { h < length self.now.machine.harts }
        ensures { result.now ≡ hart_in self.now.machine.harts h }
    {
        self.machine.hart(h)
    }
}
