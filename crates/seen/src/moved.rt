//! Blocks in live layouts: where each was, where it is, and what was added to it.

ghost use Rattle.std.specs.Prelude.{◌≡◌, ◌≤◌, ◌<◌, ◌+◌, ◌*◌, ◌^◌, ◌++◌, All, Some, None, is_some, count_by, flat_map, length, map, position, string_bytes, IfOk, IfSome, OnOk};
ghost use Rattle.std.specs.List.{before_first};
ghost use Rattle.blocks.specs.Words.{addresses};
ghost use Rattle.world.specs.Worlds.{code_of};
ghost use Rattle.seen.specs.Moved.{begun, placed_at, begins, is_hop, is_second, hops_text, seconds_text, added_text, number_text, old_text, new_text, moved_text, piece_text, pieces_text, words_of, layout_text, IsLow, IsWithin};

use crate::spot::{Places, Spot, push_block};
use layout::point::Point;
use looking::func::name_of;
use looking::piece::{push_name, push_range};
use oc_base::fault::NoMemory;
use oc_base::items::Items;
use sched_log::facts::LayoutFact;
use std::alloc::Global;
use std::fmt::Write;
use world::world::World;

/// A word of a layout: its address, what it stands for, and the block whose first word it stands for.
#[derive(Clone, Copy)]
pub struct Placed {
    pub at: u64,
    pub point: Option<Point>,
    pub begins: Option<Spot>,
}

fn begun(places: &Places, point: Option<Point>) -> Option<Spot>
    ensures { result ≡ begun places.now.list point }
{
    match point {
        Some(Point::Start(x)) => places.at(x),
        Some(Point::Hop(_)) => None,
        Some(Point::Mid(_)) => None,
        None => None,
    }
}

fn placed_at(world: &World, places: &Places, recent: &mut usize, at: u64) -> Placed
    ensures { result ≡ placed_at places.now.list (code_of world.now) at }
{
    let point = world.look(recent, at).point;
    let begins = begun(places, point);
    Placed { at, point, begins }
}

// The words of a layout.
pub(crate) fn layout_words(
    alloc: Global,
    world: &World,
    places: &Places,
    base: u64,
    words: u64,
) -> Result<Vec<Placed>, NoMemory>
    requires { base + 4 * words < 2 ^ 32 }
    ensures { IfOk result (λ v. v.items ≡ map (placed_at places.now.list (code_of world.now)) (addresses base words)) }
{
    let mut recent = 0;
    let mut all = Vec::new(alloc);
    for i in 0..words {
        all.push(placed_at(world, places, &mut recent, base + 4 * i))?;
    }
    Ok(all)
}

fn next_begin(words: &[Placed]) -> Option<usize>
    ensures next { result ≡ position begins words.now }
    ensures within { IfSome result (λ i. i < length words.now) }
{
    words.iter().position(|w| w.begins.is_some())
}

// The words up to the next with which a block begins.
#[tactic(auto, using(finite::proofs::Finding::before_found, finite::proofs::Finding::before_none))]
pub(crate) fn up_to_next(words: &[Placed]) -> &[Placed]
    ensures { result.now ≡ before_first begins words.now }
{
    match next_begin(words) {
        Some(i) => &words[..i],
        None => words,
    }
}

fn hops_in(words: &[Placed]) -> usize
    ensures { result ≡ count_by is_hop words.now }
{
    words
        .iter()
        .filter(|w| matches!(w.point, Some(Point::Hop(_))))
        .count()
}

fn seconds_in(words: &[Placed]) -> usize
    ensures { result ≡ count_by is_second words.now }
{
    words
        .iter()
        .filter(|w| matches!(w.point, Some(Point::Mid(_))))
        .count()
}

fn push_hops(text: &mut String, hops: usize) -> Result<(), NoMemory>
    ensures { OnOk result (string_bytes text.new ≡ string_bytes text.old ++ hops_text hops) }
{
    if hops == 0 {
        return Ok(());
    }
    write!(text, " hops {hops}")?;
    Ok(())
}

fn push_seconds(text: &mut String, seconds: usize) -> Result<(), NoMemory>
    ensures { OnOk result (string_bytes text.new ≡ string_bytes text.old ++ seconds_text seconds) }
{
    if seconds == 0 {
        return Ok(());
    }
    write!(text, " second words {seconds}")?;
    Ok(())
}

// What was added among some words.
#[tactic(auto, unfolding(crate::specs::Moved::added_text))]
fn push_added(text: &mut String, words: &[Placed]) -> Result<(), NoMemory>
    ensures { OnOk result (string_bytes text.new ≡ string_bytes text.old ++ added_text words.now) }
{
    push_hops(text, hops_in(words))?;
    push_seconds(text, seconds_in(words))
}

#[tactic(auto, unfolding(crate::specs::Moved::number_text))]
fn push_number(text: &mut String, number: u64) -> Result<(), NoMemory>
    ensures { OnOk result (string_bytes text.new ≡ string_bytes text.old ++ number_text number) }
{
    write!(text, " in layout {number}")?;
    Ok(())
}

// A block with its old place.
#[tactic(auto, unfolding(crate::specs::Moved::old_text))]
fn push_old(text: &mut String, names: &[Items<u8>], s: Spot) -> Result<(), NoMemory>
    ensures { OnOk result (string_bytes text.new ≡ string_bytes text.old ++ old_text names.now s) }
{
    text.push_str("moved ")?;
    push_block(text, s)?;
    text.push(' ')?;
    push_name(text, name_of(names, s.func))?;
    text.push(' ')?;
    push_range(text, s.from, s.to)
}

// The new place of so many words.
#[tactic(auto, unfolding(crate::specs::Moved::new_text))]
fn push_new(text: &mut String, at: u64, words: u64) -> Result<(), NoMemory>
    requires low { at < 2 ^ 32 }
    requires few { words < 2 ^ 33 }
    ensures { OnOk result (string_bytes text.new ≡ string_bytes text.old ++ new_text at words) }
{
    text.push_str(" to ")?;
    push_range(text, at, at + 4 * words)
}

// The line of a block that begins with the word at `at`, before these others of its words.
fn push_moved(
    text: &mut String,
    names: &[Items<u8>],
    number: u64,
    s: Spot,
    at: u64,
    rest: &[Placed],
) -> Result<(), NoMemory>
    requires low { at < 2 ^ 32 }
    requires few { length rest.now < 2 ^ 32 }
    ensures { OnOk result (string_bytes text.new ≡ string_bytes text.old ++ moved_text names.now number s at rest.now) }
{
    push_old(text, names, s)?;
    push_new(text, at, 1 + rest.len() as u64)?;
    push_number(text, number)?;
    push_added(text, rest)?;
    text.push('\n')?;
    Ok(())
}

// The line of the block that begins with a word, if one does.
fn push_piece(
    text: &mut String,
    names: &[Items<u8>],
    number: u64,
    w: &Placed,
    after: &[Placed],
) -> Result<(), NoMemory>
    requires low { w.now.at < 2 ^ 32 }
    requires few { length after.now < 2 ^ 32 }
    ensures { OnOk result (string_bytes text.new ≡ string_bytes text.old ++ piece_text names.now number w.now.begins w.now.at (before_first begins after.now)) }
{
    match w.begins {
        Some(s) => push_moved(text, names, number, s, w.at, up_to_next(after)),
        None => Ok(()),
    }
}

// A line for each block that begins among the words of a layout.
#[tactic(auto, using(crate::proofs::Lines::pieces_more, crate::proofs::Lines::pieces_done))]
fn push_pieces(
    text: &mut String,
    names: &[Items<u8>],
    number: u64,
    words: &[Placed],
) -> Result<(), NoMemory>
    requires low { All IsLow words.now }
    requires few { length words.now < 2 ^ 32 }
    ensures { OnOk result (string_bytes text.new ≡ string_bytes text.old ++ pieces_text names.now number words.now) }
{
    for i in 0..words.len() {
        push_piece(text, names, number, &words[i], &words[i + 1..])?;
    }
    Ok(())
}

#[tactic(auto, unfolding(crate::specs::Moved::layout_text), using(crate::proofs::Words::words_low, crate::proofs::Words::words_few))]
fn push_layout(
    alloc: Global,
    text: &mut String,
    world: &World,
    places: &Places,
    names: &[Items<u8>],
    layout: &LayoutFact,
) -> Result<(), NoMemory>
    requires { IsWithin layout.now }
    ensures { OnOk result (string_bytes text.new ≡ string_bytes text.old ++ layout_text places.now.list (code_of world.now) names.now layout.now) }
{
    let words = layout_words(alloc, world, places, layout.base, layout.words)?;
    push_pieces(text, names, layout.number, &words)
}

/// Adds a line for each block of each live layout.
pub fn push_layouts(
    alloc: Global,
    text: &mut String,
    world: &World,
    places: &Places,
    names: &[Items<u8>],
    layouts: &[LayoutFact],
) -> Result<(), NoMemory>
    requires { All IsWithin layouts.now }
    ensures { OnOk result (string_bytes text.new ≡ string_bytes text.old ++ flat_map (layout_text places.now.list (code_of world.now) names.now) layouts.now) }
{
    for layout in layouts {
        push_layout(alloc, text, world, places, names, layout)?;
    }
    Ok(())
}
