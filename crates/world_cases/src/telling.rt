//! Scripts of one hart, and what is told of a world in lines.

use blocks::fault::Unreadable;
use cases::images::image_of;
use cases::orders::{number, plan_of};
use cases::rows::split;
use machine::outcome::Outcome;
use sched_log::facts::{HartFact, Refusal};
use std::alloc::{AllocError, Global};
use std::test::Fail;
use world::world::World;

fn replace(alloc: Global, world: &mut World, plan: &str) -> Result<(), Fail> {
    let plan = plan_of(alloc, world.image(), plan)?;
    if let Err(Refusal::NoMemory) = world.replace(&plan) {
        return Err(Fail::new("out of memory"));
    }
    Ok(())
}

fn retire(world: &mut World) -> Result<(), Fail> {
    let Ok(_) = world.retire() else {
        return Err(Fail::new("out of memory"));
    };
    Ok(())
}

fn snap(world: &mut World) -> Result<(), Fail> {
    let Ok(()) = world.snap() else {
        return Err(Fail::new("out of memory"));
    };
    Ok(())
}

/// One command: `real N`, `step N`, `retire`, `snap` or a plan.
fn obey(alloc: Global, world: &mut World, command: &str) -> Result<(), Fail> {
    let (word, rest) = command.split_once(' ').unwrap_or(("", ""));
    if word == "real" {
        return run(world, number(rest));
    }
    if word == "step" {
        return steps(world, number(rest));
    }
    if command == "retire" {
        return retire(world);
    }
    if command == "snap" {
        return snap(world);
    }
    replace(alloc, world, rest)
}

fn run(world: &mut World, steps: u32) -> Result<(), Fail> {
    let Ok(()) = world.run(0, u64::from(steps)) else {
        return Err(Fail::new("out of memory"));
    };
    Ok(())
}

fn steps(world: &mut World, steps: u32) -> Result<(), Fail> {
    for _step in 0..steps {
        let Ok(_) = world.step(0) else {
            return Err(Fail::new("out of memory"));
        };
    }
    Ok(())
}

fn outcome_text(alloc: Global, outcome: Option<Outcome>) -> Result<String, AllocError> {
    match outcome {
        Some(Outcome::Exit(code)) => format!(in alloc; "exit {code}\n"),
        Some(Outcome::Trap { cause, pc, value }) => {
            format!(in alloc; "trap {cause} at {pc:x} value {value:x}\n")
        }
        Some(Outcome::LinkUse { rule, pc }) => format!(in alloc; "link use {rule} at {pc:x}\n"),
        Some(Outcome::Landing { pc }) => format!(in alloc; "landing at {pc:x}\n"),
        Some(_) => String::from_str(alloc, "other\n"),
        None => String::from_str(alloc, "unfinished\n"),
    }
}

fn unreadable_text(alloc: Global, func: u32, why: Unreadable) -> Result<String, AllocError> {
    match why {
        Unreadable::Undecodable(at) => format!(in alloc; "undecodable {func} {at:x}"),
        _ => String::from_str(alloc, "unreadable"),
    }
}

fn refusal_text(alloc: Global, refusal: Refusal) -> Result<String, AllocError> {
    match refusal {
        Refusal::RegionFull { need, largest } => format!(in alloc; "region {need} {largest}"),
        Refusal::BranchReach { at, target } => format!(in alloc; "reach {at:x} {target:x}"),
        Refusal::Unreadable { func, why } => unreadable_text(alloc, func, why),
        _ => String::from_str(alloc, "other"),
    }
}

fn hart_text(alloc: Global, hart: HartFact) -> Result<String, AllocError> {
    match hart {
        HartFact::Live { original, pc } => format!(in alloc; "hart live {original:x} {pc:x}\n"),
        HartFact::Waiting { original, pc } => {
            format!(in alloc; "hart waiting {original:x} {pc:x}\n")
        }
        HartFact::Ended => String::from_str(alloc, "hart ended\n"),
    }
}

fn transfer_text(alloc: Global, transfer: (u64, u64, u64)) -> Result<String, AllocError> {
    let (from, to, count) = transfer;
    format!(in alloc; "transfer {from:x} {to:x} {count}\n")
}

/// The last snapshot, and how many there were.
fn snapshot_text(alloc: Global, world: &World, snaps: u64) -> Result<String, AllocError> {
    let counts = world.snapshot().counts();
    let kinds = counts.len();
    let mut text = format!(in alloc; "snaps {snaps} of {kinds}\n")?;
    for transfer in counts {
        text.push_str(&transfer_text(alloc, *transfer)?)?;
    }
    Ok(text)
}

fn told(alloc: Global, world: &World) -> Result<String, Fail> {
    let Ok(facts) = world.facts(alloc) else {
        return Err(Fail::new("out of memory"));
    };
    let (real, layout) = (facts.real, facts.layout);
    let (attempts, done, retired) = (facts.attempts, facts.done, facts.retired);
    let (sites, slots) = (facts.sites, facts.slots);
    let mut text = format!(in alloc;
        "real {real} layout {layout}\nattempts {attempts} done {done}\nretired {retired}\nsites {sites} slots {slots}\n"
    )?;
    for refused in facts.refusals.as_slice() {
        let attempt = refused.attempt;
        let why = refusal_text(alloc, refused.refusal)?;
        text.push_str(&format!(in alloc; "refusal {attempt} {why}\n")?)?;
    }
    for fact in facts.layouts.as_slice() {
        let (number, base, words) = (fact.number, fact.base, fact.words);
        text.push_str(&format!(in alloc; "layout {number} {base:x} {words}\n")?)?;
    }
    for hart in facts.harts.as_slice() {
        text.push_str(&hart_text(alloc, *hart)?)?;
    }
    text.push_str(&snapshot_text(alloc, world, facts.snaps)?)?;
    text.push_str(&outcome_text(alloc, world.outcome())?)?;
    Ok(text)
}

/// How many transfers are kept, where a script begins with that as `ring N, `, and the commands.
fn ring_of(script: &str) -> (u32, &str) {
    let Some(rest) = script.strip_prefix("ring ") else {
        return (4096, script);
    };
    let (ring, commands) = rest.split_once(", ").unwrap_or(("", ""));
    (number(ring), commands)
}

/// What is told of a guest after a script, whose commands stand apart by `, `.
fn after(alloc: Global, guest: &str, script: &str) -> Result<String, Fail> {
    let image = image_of(alloc, guest)?;
    let (ring, commands) = ring_of(script);
    let Ok(mut world) = World::start(alloc, image, Vec::new(alloc), ring) else {
        return Err(Fail::new("out of memory"));
    };
    for command in commands.split(", ") {
        obey(alloc, &mut world, command)?;
    }
    told(alloc, &world)
}

/// The first line of a row that isn't told, with all that is told.
fn missing(alloc: Global, row: &str) -> Result<String, Fail> {
    let (guest, script, wanted) = split(row);
    let text = after(alloc, guest, script)?;
    for line in wanted.split("; ") {
        if !text.as_str().lines().any(|l| l == line) {
            return Ok(format!(in alloc; "{line} in\n{text}")?);
        }
    }
    Ok(String::new(alloc))
}

/// What is missing in the first row with a line that isn't told.
pub fn first_missing(alloc: Global, rows: &str) -> Result<String, Fail> {
    for row in rows.lines() {
        let text = missing(alloc, row)?;
        if !text.is_empty() {
            return Ok(format!(in alloc; "{row}: {text}")?);
        }
    }
    Ok(String::new(alloc))
}
