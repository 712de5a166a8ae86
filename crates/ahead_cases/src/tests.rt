//! Harts that leave the lock, make steps, and come home. A row says what it shows, and has a guest, commands, and what some of them tell.
//! What is wanted was worked out by hand.

use ahead::ahead::ahead;
use ahead::away::Away;
use ahead::home::{apart, bring};
use cases::images::image_of;
use cases::orders::{number, plan_of};
use cases::rows::{expect, separate, split};
use sched_log::facts::Refusal;
use std::alloc::Global;
use std::sync::Arc;
use std::test::Fail;
use world::world::World;

const HOMES: &str = "\
steps on registers and pc alone: countdown | leave, ahead 5, home 0 0, real, pc = 5, home, 5 0, 10018
it stops before a call of the system: countdown | leave, ahead 64, home 0 0, real, pc = 19, home, 19 0, 1000c
there it stops again: countdown | leave, ahead 64, ahead 64, ahead 1, home 0 0, real = 19, 0, 0, home, 19 0
in parts: countdown | leave, ahead 5, ahead 0, ahead 7, home 0 0, real = 5, 0, 7, home, 12 0
at most 64 steps: endless | leave, ahead 60, ahead 5, ahead 1, home 0 0, real = 60, 4, 0, home, 64 0
nothing made is nothing told: countdown | leave, home 0 0, real, pc = home, 0 0, 10000
in moved code: countdown | replace 1:2 1 0, leave, ahead 64, home 0 0, real, pc = 19, home, 19 6, 1000c
a trap isn't made: to region | leave, ahead 64 = 1
nor a landing: to second | leave, ahead 64 = 1
nor a use of a link: added link | leave, ahead 64 = 1
nor a load: table | leave, ahead 64 = 1";

const STRANGERS: &str = "\
other code: countdown | leave, ahead 5, home 1 0 = 5, kept 1 brought 0
other events: countdown | leave, ahead 5, home 0 3 = 5, kept 3 brought 0
the code comes first: countdown | leave, ahead 5, home 1 3 = 5, kept 1 brought 0
a step was made meanwhile: countdown | leave, ahead 5, step, home 0 0 = 5, kept 65552 brought 65536
a word was patched meanwhile: countdown | leave, ahead 5, replace 1:2 1 0, home 0 0 = 5, kept 29368559 brought 16777455";

#[test]
fn harts_come_home(rt: HostRuntime) -> Result<(), Fail> {
    check(rt.alloc(), HOMES)
}

#[test]
fn strangers_are_told(rt: HostRuntime) -> Result<(), Fail> {
    check(rt.alloc(), STRANGERS)
}

/// Hart 0 of a world leaves, where its code has number 0 and it has made no events.
fn leave(alloc: Global, world: &World) -> Result<Away, Fail> {
    if world.made() == 0 {
        return Err(Fail::new("no hart"));
    }
    let Ok(image) = world.image().copy(alloc) else {
        return Err(Fail::new("out of memory"));
    };
    let image = Arc::new(alloc, image)?;
    let Ok(code) = world.code(alloc, &image) else {
        return Err(Fail::new("out of memory"));
    };
    let code = Arc::new(alloc, code)?;
    let hart = world.hart(0);
    let Ok(away) = Away::leave(alloc, 0, 0, 0, &hart.regs, hart.pc, code) else {
        return Err(Fail::new("out of memory"));
    };
    Ok(away)
}

fn replace(alloc: Global, world: &mut World, plan: &str) -> Result<(), Fail> {
    let plan = plan_of(alloc, world.image(), plan)?;
    if let Err(Refusal::NoMemory) = world.replace(&plan) {
        return Err(Fail::new("out of memory"));
    }
    Ok(())
}

fn real_step(world: &mut World) -> Result<(), Fail> {
    let Ok(_) = world.real_step(0) else {
        return Err(Fail::new("out of memory"));
    };
    Ok(())
}

/// Adds how many real steps and how many of layouts alone were made.
fn add_counts(text: &mut String, alloc: Global, world: &World) -> Result<(), Fail> {
    let Ok(facts) = world.facts(alloc) else {
        return Err(Fail::new("out of memory"));
    };
    Ok(text.push_str(&format!(in alloc; "{} {}", facts.real, facts.layout)?)?)
}

fn add_pc(text: &mut String, alloc: Global, world: &World) -> Result<(), Fail> {
    if world.made() == 0 {
        return Ok(());
    }
    Ok(text.push_str(&format!(in alloc; "{:x}", world.hart(0).pc)?)?)
}

/// The hart comes home where the code has this number, and it has made so many events.
fn come_home(
    text: &mut String,
    alloc: Global,
    world: &mut World,
    away: Away,
    numbers: &str,
) -> Result<(), Fail> {
    let (code, steps) = numbers.split_once(' ').unwrap_or(("", ""));
    let code = u64::from(number(code));
    let steps = u64::from(number(steps));
    if world.outcome().is_some() {
        return Ok(());
    }
    if let Some(found) = apart(&away, world, true, code, steps) {
        let told = format!(in alloc; "kept {} brought {}", found.kept, found.brought)?;
        return Ok(text.push_str(&told)?);
    }
    bring(away, world);
    Ok(text.push_str("home")?)
}

/// Obeys `replace PLAN` or `step`, or adds what `real` or `pc` tells.
fn obey(text: &mut String, alloc: Global, world: &mut World, command: &str) -> Result<(), Fail> {
    if command == "step" {
        return real_step(world);
    }
    if let Some(plan) = command.strip_prefix("replace ") {
        return replace(alloc, world, plan);
    }
    separate(text, ", ")?;
    if command == "pc" {
        return add_pc(text, alloc, world);
    }
    add_counts(text, alloc, world)
}

/// What is told once a hart has left.
fn told_away(
    text: &mut String,
    alloc: Global,
    world: &mut World,
    commands: &str,
) -> Result<(), Fail> {
    let mut away = leave(alloc, world)?;
    let (before, after) = commands.split_once("home ").unwrap_or((commands, ""));
    for command in before.split(", ") {
        if let Some(most) = command.strip_prefix("ahead ") {
            separate(text, ", ")?;
            let made = ahead(&mut away, number(most));
            text.push_str(&format!(in alloc; "{made}")?)?;
        } else if !command.is_empty() {
            obey(text, alloc, world, command)?;
        }
    }
    let (numbers, after) = after.split_once(", ").unwrap_or((after, ""));
    if !numbers.is_empty() {
        separate(text, ", ")?;
        come_home(text, alloc, world, away, numbers)?;
    }
    for command in after.split(", ") {
        if !command.is_empty() {
            obey(text, alloc, world, command)?;
        }
    }
    Ok(())
}

fn told_by(alloc: Global, world: &mut World, commands: &str) -> Result<String, Fail> {
    let mut text = String::new(alloc);
    let (before, after) = commands.split_once("leave, ").unwrap_or(("", commands));
    for command in before.split(", ") {
        if !command.is_empty() {
            obey(&mut text, alloc, world, command)?;
        }
    }
    told_away(&mut text, alloc, world, after)?;
    Ok(text)
}

/// What is told of a guest under commands, which stand apart by `, `.
fn told(alloc: Global, guest: &str, commands: &str) -> Result<String, Fail> {
    let image = image_of(alloc, guest)?;
    let Ok(world) = World::start(alloc, image, Vec::new(alloc), 16) else {
        return Err(Fail::new("out of memory"));
    };
    let mut world = world;
    told_by(alloc, &mut world, commands)
}

fn check(alloc: Global, rows: &str) -> Result<(), Fail> {
    for row in rows.lines() {
        let (guest, commands, wanted) = split(row);
        let text = told(alloc, guest, commands)?;
        expect(alloc, row, &text, wanted)?;
    }
    Ok(())
}
