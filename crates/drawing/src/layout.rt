//! The strips of layouts, and the lines that lead to them.

ghost use Rattle.std.specs.Prelude.{◌≡◌, ◌<◌, ◌^◌, ◌++◌, string_bytes, flat_map, OnOk};
ghost use Rattle.drawing.specs.Picture.{block_of, count_of, ends_text, stroke_text, thread_text, line_text, place_title, place_text, layout_name, strip_text, lines_text, strips_text};

use crate::mark::{
    colour_of, push_ground, push_mark, push_numbered, push_point, push_range, push_worded,
};
use crate::parts::{Block, Function, Layout, Place};
use crate::strip::{Strip, layout_strip, middle};
use oc_base::fault::NoMemory;
use std::fmt::Write;

fn block_of(functions: &[Function], p: Place) -> Option<Block>
    ensures { result ≡ block_of functions.now p }
{
    let Some(f) = functions.get(p.function as usize) else {
        return None;
    };
    f.blocks.as_slice().get(p.block).copied()
}

fn count_of(functions: &[Function], p: Place) -> u64
    ensures { result ≡ count_of functions.now p }
{
    match block_of(functions, p) {
        Some(b) => b.count,
        None => 0,
    }
}

#[tactic(auto, unfolding(crate::specs::Picture::ends_text))]
fn push_ends(text: &mut String, x1: u64, x2: u64, y2: u128) -> Result<(), NoMemory>
    ensures { OnOk result (string_bytes text.new ≡ string_bytes text.old ++ ends_text x1 x2 y2) }
{
    push_numbered(text, "x1", x1 as u128)?;
    push_numbered(text, "y1", 145)?;
    push_numbered(text, "x2", x2 as u128)?;
    push_numbered(text, "y2", y2)
}

#[tactic(auto, unfolding(crate::specs::Picture::stroke_text))]
fn push_stroke(text: &mut String, colour: &str) -> Result<(), NoMemory>
    ensures { OnOk result (string_bytes text.new ≡ string_bytes text.old ++ stroke_text colour.now) }
{
    push_worded(text, "stroke", colour)?;
    push_worded(text, "stroke-opacity", "0.5")
}

// The line of block `b`, which lies at `p`.
#[tactic(auto, unfolding(crate::specs::Picture::thread_text))]
fn push_thread(
    text: &mut String,
    upper: Strip,
    lower: Strip,
    p: Place,
    b: Block,
) -> Result<(), NoMemory>
    ensures { OnOk result (string_bytes text.new ≡ string_bytes text.old ++ thread_text upper lower p b) }
{
    let (old, new) = (middle(upper, b.from, b.to), middle(lower, p.from, p.to));
    text.push_str("<line")?;
    push_ends(text, old, new, lower.top)?;
    push_stroke(text, colour_of(b.count))?;
    text.push_str("/>\n")?;
    Ok(())
}

#[tactic(auto, unfolding(crate::specs::Picture::line_text))]
fn push_line(
    text: &mut String,
    upper: Strip,
    lower: Strip,
    functions: &[Function],
    p: Place,
) -> Result<(), NoMemory>
    ensures { OnOk result (string_bytes text.new ≡ string_bytes text.old ++ line_text upper lower functions.now p) }
{
    match block_of(functions, p) {
        Some(b) => push_thread(text, upper, lower, p, b),
        None => Ok(()),
    }
}

// The lines to one layout.
fn push_lines_to(
    text: &mut String,
    upper: Strip,
    lower: Strip,
    functions: &[Function],
    places: &[Place],
) -> Result<(), NoMemory>
    ensures { OnOk result (string_bytes text.new ≡ string_bytes text.old ++ flat_map (line_text upper lower functions.now) places.now) }
{
    for p in places {
        push_line(text, upper, lower, functions, *p)?;
    }
    Ok(())
}

/// Adds the lines to all layouts.
#[tactic(auto, using(crate::proofs::Layouts::lines_more, crate::proofs::Layouts::lines_done))]
pub(crate) fn push_lines(
    text: &mut String,
    upper: Strip,
    functions: &[Function],
    layouts: &[Layout],
) -> Result<(), NoMemory>
    ensures { OnOk result (string_bytes text.new ≡ string_bytes text.old ++ lines_text upper functions.now 0 layouts.now) }
{
    for i in 0..layouts.len() {
        let lower = layout_strip(i, &layouts[i]);
        push_lines_to(text, upper, lower, functions, layouts[i].places.as_slice())?;
    }
    Ok(())
}

#[tactic(auto, unfolding(crate::specs::Picture::place_title))]
fn push_place_title(text: &mut String, p: Place) -> Result<(), NoMemory>
    ensures { OnOk result (string_bytes text.new ≡ string_bytes text.old ++ place_title p) }
{
    let (function, block) = (p.function, p.block);
    write!(text, "<title>{function}:{block} ")?;
    push_range(text, p.from, p.to)?;
    text.push_str("</title>")?;
    Ok(())
}

#[tactic(auto, unfolding(crate::specs::Picture::place_text))]
fn push_place(text: &mut String, s: Strip, functions: &[Function], p: Place) -> Result<(), NoMemory>
    ensures { OnOk result (string_bytes text.new ≡ string_bytes text.old ++ place_text s functions.now p) }
{
    push_mark(text, s, p.from, p.to, colour_of(count_of(functions, p)))?;
    text.push_str(">")?;
    push_place_title(text, p)?;
    text.push_str("</rect>\n")?;
    Ok(())
}

fn push_places(
    text: &mut String,
    s: Strip,
    functions: &[Function],
    places: &[Place],
) -> Result<(), NoMemory>
    ensures { OnOk result (string_bytes text.new ≡ string_bytes text.old ++ flat_map (place_text s functions.now) places.now) }
{
    for p in places {
        push_place(text, s, functions, *p)?;
    }
    Ok(())
}

// Below the strip of a layout.
#[tactic(auto, unfolding(crate::specs::Picture::layout_name))]
fn push_layout_name(text: &mut String, number: u64, s: Strip) -> Result<(), NoMemory>
    requires { s.top < 2 ^ 127 }
    ensures { OnOk result (string_bytes text.new ≡ string_bytes text.old ++ layout_name number s) }
{
    text.push_str("<text")?;
    push_point(text, 20, s.top + 54)?;
    write!(text, ">layout {number} ")?;
    push_range(text, s.from, s.to)?;
    text.push_str("</text>\n")?;
    Ok(())
}

#[tactic(auto, unfolding(crate::specs::Picture::strip_text))]
fn push_strip(
    text: &mut String,
    number: u64,
    s: Strip,
    functions: &[Function],
    places: &[Place],
) -> Result<(), NoMemory>
    requires { s.top < 2 ^ 127 }
    ensures { OnOk result (string_bytes text.new ≡ string_bytes text.old ++ strip_text number s functions.now places.now) }
{
    push_ground(text, s)?;
    push_places(text, s, functions, places)?;
    push_layout_name(text, number, s)
}

/// Adds all layouts.
#[tactic(auto, using(crate::proofs::Layouts::strips_more, crate::proofs::Layouts::strips_done))]
pub(crate) fn push_strips(
    text: &mut String,
    functions: &[Function],
    layouts: &[Layout],
) -> Result<(), NoMemory>
    ensures { OnOk result (string_bytes text.new ≡ string_bytes text.old ++ strips_text functions.now 0 layouts.now) }
{
    for i in 0..layouts.len() {
        let s = layout_strip(i, &layouts[i]);
        push_strip(
            text,
            layouts[i].number,
            s,
            functions,
            layouts[i].places.as_slice(),
        )?;
    }
    Ok(())
}
