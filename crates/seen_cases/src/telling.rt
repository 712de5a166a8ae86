//! Scripts of one hart, and the lines that are told of them.

use cases::images::image_of;
use cases::orders::{number, plan_of};
use cases::rows::split;
use oc_base::items::Items;
use sched_log::facts::Refusal;
use seen::story::story;
use std::alloc::Global;
use std::test::Fail;
use world::world::World;

fn replace(alloc: Global, world: &mut World, plan: &str) -> Result<(), Fail> {
    let plan = plan_of(alloc, world.image(), plan)?;
    if let Err(Refusal::NoMemory) = world.replace(&plan) {
        return Err(Fail::new("out of memory"));
    }
    Ok(())
}

fn snap(world: &mut World) -> Result<(), Fail> {
    let Ok(()) = world.snap() else {
        return Err(Fail::new("out of memory"));
    };
    Ok(())
}

fn run(world: &mut World, steps: u32) -> Result<(), Fail> {
    let Ok(()) = world.run(0, u64::from(steps)) else {
        return Err(Fail::new("out of memory"));
    };
    Ok(())
}

/// One command: `real N`, `snap` or a plan, as `replace 1:2 1 0`.
fn obey(alloc: Global, world: &mut World, command: &str) -> Result<(), Fail> {
    if command == "snap" {
        return snap(world);
    }
    let (word, rest) = command.split_once(' ').unwrap_or(("", ""));
    if word == "real" {
        return run(world, number(rest));
    }
    replace(alloc, world, rest)
}

/// The names of functions, which stand apart by spaces.
pub fn names_of(alloc: Global, words: &str) -> Result<Vec<Items<u8>>, Fail> {
    let mut names = Vec::new(alloc);
    for word in words.split_whitespace() {
        let Ok(name) = Items::from_slice(alloc, word.as_bytes()) else {
            return Err(Fail::new("out of memory"));
        };
        names.push(name)?;
    }
    Ok(names)
}

fn told(alloc: Global, world: &World, names: &[Items<u8>]) -> Result<Vec<u8>, Fail> {
    let Ok(text) = story(alloc, world, names) else {
        return Err(Fail::new("out of memory"));
    };
    Ok(text.into_vec())
}

/// The world of a guest after a script, whose commands stand apart by `, `.
pub fn world_after(alloc: Global, guest: &str, script: &str) -> Result<World, Fail> {
    let image = image_of(alloc, guest)?;
    let Ok(mut world) = World::start(alloc, image, Vec::new(alloc), 4096) else {
        return Err(Fail::new("out of memory"));
    };
    for command in script.split(", ") {
        obey(alloc, &mut world, command)?;
    }
    Ok(world)
}

/// What is told of a guest, whose functions have these names, after a script.
pub fn after(alloc: Global, names: &str, guest: &str, script: &str) -> Result<Vec<u8>, Fail> {
    let names = names_of(alloc, names)?;
    let world = world_after(alloc, guest, script)?;
    told(alloc, &world, &names)
}

/// The first line of a row that isn't told.
fn missing(alloc: Global, row: &str) -> Result<String, Fail> {
    let (guest, case, wanted) = split(row);
    let (names, script) = case.split_once(": ").unwrap_or(("", ""));
    let bytes = after(alloc, names, guest, script)?;
    let text = std::str::from_utf8(&bytes).unwrap_or("");
    for line in wanted.split("; ") {
        if !text.lines().any(|l| l == line) {
            return Ok(format!(in alloc; "{line} in\n{text}")?);
        }
    }
    Ok(String::new(alloc))
}

/// What is missing in the first row with a line that isn't told.
pub fn first_missing(alloc: Global, rows: &str) -> Result<String, Fail> {
    for row in rows.lines() {
        let text = missing(alloc, row)?;
        if !text.is_empty() {
            return Ok(format!(in alloc; "{row}: {text}")?);
        }
    }
    Ok(String::new(alloc))
}
