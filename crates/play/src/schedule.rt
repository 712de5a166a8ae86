//! Events, done one after the other.

ghost use Rattle.std.specs.Prelude.{◌≡◌, List, None, replicate, OnOk, IfOk};
ghost use Rattle.placer.specs.Planned.{IsPlanFor};
ghost use Rattle.plans.specs.Given.{plan_fault};
ghost use Rattle.plans.specs.declared.plan.Moved.{Moved};
ghost use Rattle.sched_log.specs.Ranges.{AreInRange};
ghost use Rattle.world.specs.Runs.{a_step, real_steps_of};
ghost use Rattle.world.specs.Records.{Snaps};
ghost use Rattle.world.specs.Replacing.{Replaces};
ghost use Rattle.world.specs.Retiring.{Retires};
ghost use Rattle.world.specs.Worlds.{started};
ghost use Rattle.delivered.specs.Events.{harts_in, stretched, turns, Runs, Obeyed, Played};
ghost use Rattle.play.specs.Ready.{CanObey, AreReady};

use image::picture::Image;
use oc_base::fault::NoMemory;
use placer::plan::plan_of;
use plans::plan::Plan;
use sched_log::event::Event;
use sched_log::facts::Refusal;
use std::alloc::Global;
use world::world::World;

// So many steps of a hart, of layouts or real.
fn take_steps(world: &mut World, h: u32, count: u64) -> Result<(), NoMemory>
    ensures { OnOk result (Runs (replicate count (a_step h)) world.old world.new) }
{
    for _step in 0..count {
        if world.outcome().is_some() {
            return Ok(());
        }
        world.step(h)?;
    }
    Ok(())
}

// A real step of each hart that is there.
fn take_turn(world: &mut World) -> Result<(), NoMemory>
    ensures { OnOk result (world.new ≡ stretched (harts_in world.old) world.old) }
{
    for h in 0..world.made() {
        world.real_step(h)?;
    }
    Ok(())
}

// So many turns.
fn take_turns(world: &mut World, count: u64) -> Result<(), NoMemory>
    ensures { OnOk result (Runs (turns count world.old) world.old world.new) }
{
    for _turn in 0..count {
        if world.outcome().is_some() {
            return Ok(());
        }
        take_turn(world)?;
    }
    Ok(())
}

// Moves the functions of a plan. A refusal is counted by the world, and the run goes on.
fn replace(world: &mut World, plan: &Plan) -> Result<(), NoMemory>
    requires { plan_fault world.old.image plan.now ≡ None }
    ensures { OnOk result (Replaces plan.now world.old world.new) }
{
    match world.replace(plan) {
        Ok(()) => Ok(()),
        Err(Refusal::NoMemory) => Err(NoMemory),
        Err(Refusal::RegionFull { .. }) => Ok(()),
        Err(Refusal::BranchReach { .. }) => Ok(()),
        Err(Refusal::Unreadable { .. }) => Ok(()),
    }
}

// Counts the transfers that the rings keep.
fn snap(world: &mut World) -> Result<(), NoMemory>
    ensures { OnOk result (Snaps world.old world.new) }
{
    world.snap()
}

// Moves code by the plan of the last snapshot.
fn replace_by_snapshot(alloc: Global, world: &mut World) -> Result<(), NoMemory>
    ensures { OnOk result ((plan : List Moved) × IsPlanFor world.old.image world.old.snapshot plan
        × (plan_fault world.old.image plan ≡ None) × Replaces plan world.old world.new) }
{
    let plan = plan_of(alloc, world.image(), world.snapshot())?;
    replace(world, &plan)
}

// Gives up the layouts that nothing refers to.
fn retire(world: &mut World) -> Result<(), NoMemory>
    ensures { OnOk result (Retires world.old world.new) }
{
    world.retire()?;
    Ok(())
}

// What an event asks for.
fn obey(alloc: Global, world: &mut World, event: &Event) -> Result<(), NoMemory>
    requires { CanObey event.now world.old }
    ensures { OnOk result (Obeyed event.now world.old world.new) }
{
    match event {
        Event::Steps { h, n } => take_steps(world, *h, *n),
        Event::Real { h, n } => world.run(*h, *n),
        Event::Till { n } => take_turns(world, *n),
        Event::Snap => snap(world),
        Event::Replace => replace_by_snapshot(alloc, world),
        Event::Given(plan) => replace(world, plan),
        Event::Retire => retire(world),
    }
}

// What all events ask for, in their order.
fn obey_all(alloc: Global, world: &mut World, events: &[Event]) -> Result<(), NoMemory>
    requires { AreReady events.now world.old }
    ensures { OnOk result (Played events.now world.old world.new) }
{
    for event in events {
        obey(alloc, world, event)?;
    }
    Ok(())
}

/// The world after these events, from its start with an input; `ring` transfers of each hart are kept.
pub fn perform(
    alloc: Global,
    image: Image,
    events: &[Event],
    input: Vec<u8>,
    ring: u32,
) -> Result<World, NoMemory>
    requires { AreInRange image events.now }
    ensures { IfOk result (Played events.now (started image ring input.items)) }
{
    let mut world = World::start(alloc, image, input, ring)?;
    obey_all(alloc, &mut world, events)?;
    Ok(world)
}
