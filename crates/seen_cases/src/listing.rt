//! The parts of a drawing, a line each.

use crate::telling::{names_of, world_after};
use drawing::parts::{Drawing, Function, Layout};
use drawing::picture::draw;
use oc_base::items::Items;
use seen::picture::drawing_of;
use std::alloc::{AllocError, Global};
use std::fmt::Write;
use std::test::Fail;
use world::world::World;

fn list_function(text: &mut String, f: &Function) -> Result<(), AllocError> {
    let (number, name) = (f.number, f.name.as_slice());
    writeln!(
        text,
        "function {number} {}",
        str::from_utf8(name).unwrap_or("?")
    )?;
    for b in f.blocks.as_slice() {
        writeln!(text, "block {:x}..{:x} {}", b.from, b.to, b.count)?;
    }
    Ok(())
}

fn list_layout(text: &mut String, l: &Layout) -> Result<(), AllocError> {
    writeln!(text, "layout {} {:x}..{:x}", l.number, l.base, l.to)?;
    for p in l.places.as_slice() {
        writeln!(
            text,
            "place {}:{} {:x}..{:x}",
            p.function, p.block, p.from, p.to
        )?;
    }
    Ok(())
}

fn list(text: &mut String, drawing: &Drawing) -> Result<(), AllocError> {
    for f in drawing.functions.as_slice() {
        list_function(text, f)?;
    }
    for l in drawing.layouts.as_slice() {
        list_layout(text, l)?;
    }
    Ok(())
}

fn drawn(alloc: Global, world: &World, names: &[Items<u8>]) -> Result<Drawing, Fail> {
    let Ok(drawing) = drawing_of(alloc, world, names) else {
        return Err(Fail::new("out of memory"));
    };
    Ok(drawing)
}

/// The drawing of a guest, whose functions have these names, after a script, whose commands stand apart by `, `.
fn drawn_after(alloc: Global, names: &str, guest: &str, script: &str) -> Result<Drawing, Fail> {
    let names = names_of(alloc, names)?;
    let world = world_after(alloc, guest, script)?;
    drawn(alloc, &world, &names)
}

/// The parts of such a drawing.
pub fn listed(alloc: Global, names: &str, guest: &str, script: &str) -> Result<String, Fail> {
    let drawing = drawn_after(alloc, names, guest, script)?;
    let mut text = String::new(alloc);
    list(&mut text, &drawing)?;
    Ok(text)
}

/// The picture of such a drawing.
pub fn pictured(alloc: Global, names: &str, guest: &str, script: &str) -> Result<Vec<u8>, Fail> {
    let drawing = drawn_after(alloc, names, guest, script)?;
    let Ok(picture) = draw(alloc, &drawing) else {
        return Err(Fail::new("out of memory"));
    };
    Ok(picture.into_vec())
}
