//! What a run did to its program, as a drawing.

ghost use Rattle.std.specs.Prelude.{◌≡◌, ◌<◌, ◌^◌, ◌∷◌, ◌++◌, [], All, length, map, slice_get, Some, IfOk, OnOk};
ghost use Rattle.std.specs.List.{before_first};
ghost use Rattle.blocks.specs.Faults.{fault_of};
ghost use Rattle.world.specs.Told.{facts_of, layout_facts};
ghost use Rattle.world.specs.Worlds.{code_of};
ghost use Rattle.seen.specs.Moved.{begins, IsLow, IsWithin};
ghost use Rattle.seen.specs.Spots.{spots_of};
ghost use Rattle.seen.specs.Pictures.{drawn_block, drawn_blocks, drawn_function, functions_from, place_of, piece_places, places_of, drawn_layout, drawing_of};

use crate::moved::{Placed, layout_words, up_to_next};
use crate::profile::Entries;
use crate::spot::{Places, Spot};
use crate::story::layouts_fit;
use blocks::fault::Unreadable;
use blocks::index::FuncIndex;
use blocks::run::Run;
use drawing::parts::{Block, Drawing, Function, Layout, Place};
use image::ranges::Func;
use looking::func::name_of;
use oc_base::fault::NoMemory;
use oc_base::items::Items;
use sched_log::facts::LayoutFact;
use std::alloc::Global;
use world::world::World;

fn drawn_block(entries: &Entries<'_>, r: &Run) -> Block
    ensures { result ≡ drawn_block entries.now.profile.now r.now }
{
    Block {
        from: r.from,
        to: r.to,
        count: entries.at(r.from),
    }
}

// The blocks of a function that can be cut into them.
fn drawn_runs(alloc: Global, entries: &Entries<'_>, runs: &[Run]) -> Result<Items<Block>, NoMemory>
    ensures { IfOk result (λ blocks. blocks ≡ map (drawn_block entries.now.profile.now) runs.now) }
{
    let mut blocks = Items::new(alloc);
    for r in runs {
        blocks.push(drawn_block(entries, r))?;
    }
    Ok(blocks)
}

// A function as one block that never ran.
fn whole(alloc: Global, f: Func) -> Result<Items<Block>, NoMemory>
    ensures { IfOk result (λ blocks. blocks ≡ record { from = f.from; to = f.to; count = 0 } ∷ []) }
{
    let mut blocks = Items::new(alloc);
    blocks.push(Block {
        from: f.from,
        to: f.to,
        count: 0,
    })?;
    Ok(blocks)
}

fn drawn_blocks(
    alloc: Global,
    index: &FuncIndex<'_>,
    entries: &Entries<'_>,
    n: u32,
    f: Func,
) -> Result<Items<Block>, NoMemory>
    requires { n < length index.now.image.now.funcs }
    ensures { IfOk result (λ blocks. blocks ≡ drawn_blocks index.now.image.now entries.now.profile.now n f (fault_of index.now.image.now n)) }
{
    match index.runs(alloc, n) {
        Ok(runs) => drawn_runs(alloc, entries, runs.as_slice()),
        Err(Unreadable::NoMemory) => Err(NoMemory),
        Err(_) => whole(alloc, f),
    }
}

fn drawn_function(
    alloc: Global,
    index: &FuncIndex<'_>,
    entries: &Entries<'_>,
    names: &[Items<u8>],
    n: u32,
    f: Func,
) -> Result<Function, NoMemory>
    requires { n < length index.now.image.now.funcs }
    ensures { IfOk result (λ function. function ≡ drawn_function index.now.image.now entries.now.profile.now names.now n f) }
{
    let blocks = drawn_blocks(alloc, index, entries, n, f)?;
    let name = Items::from_slice(alloc, name_of(names, n))?;
    Ok(Function {
        number: n,
        name,
        blocks,
    })
}

#[tactic(auto, using(crate::proofs::Drawn::functions_more, crate::proofs::Drawn::functions_done))]
fn drawn_functions(
    alloc: Global,
    index: &FuncIndex<'_>,
    entries: &Entries<'_>,
    names: &[Items<u8>],
) -> Result<Items<Function>, NoMemory>
    ensures { IfOk result (λ functions. functions ≡ functions_from index.now.image.now entries.now.profile.now names.now 0 index.now.image.now.funcs) }
{
    index.image.kept();
    let funcs = index.image.funcs();
    let mut functions = Items::new(alloc);
    for n in 0..funcs.len() {
        functions.push(drawn_function(alloc, index, entries, names, n as u32, funcs[n])?)?;
    }
    Ok(functions)
}

// Where a block lies whose first word is at `at`, before these others of its words.
fn place_of(s: Spot, at: u64, rest: &[Placed]) -> Place
    requires low { at < 2 ^ 32 }
    requires few { length rest.now < 2 ^ 32 }
    ensures { result ≡ place_of s at rest.now }
{
    Place {
        function: s.func,
        block: s.block,
        from: at,
        to: at + 4 * (1 + rest.len() as u64),
    }
}

// The place of the block that begins with a word, if one does.
fn push_piece(places: &mut Items<Place>, w: &Placed, after: &[Placed]) -> Result<(), NoMemory>
    requires low { w.now.at < 2 ^ 32 }
    requires few { length after.now < 2 ^ 32 }
    ensures { OnOk result (places.new ≡ places.old ++ piece_places w.now.begins w.now.at (before_first begins after.now)) }
{
    match w.begins {
        Some(s) => places.push(place_of(s, w.at, up_to_next(after))),
        None => Ok(()),
    }
}

#[tactic(auto, using(crate::proofs::Drawn::places_more, crate::proofs::Drawn::places_done))]
fn places_of(alloc: Global, words: &[Placed]) -> Result<Items<Place>, NoMemory>
    requires low { All IsLow words.now }
    requires few { length words.now < 2 ^ 32 }
    ensures { IfOk result (λ places. places ≡ places_of words.now) }
{
    let mut places = Items::new(alloc);
    for i in 0..words.len() {
        push_piece(&mut places, &words[i], &words[i + 1..])?;
    }
    Ok(places)
}

#[tactic(auto, unfolding(crate::specs::Pictures::drawn_layout), using(crate::proofs::Words::words_low, crate::proofs::Words::words_few))]
fn drawn_layout(
    alloc: Global,
    world: &World,
    places: &Places,
    layout: &LayoutFact,
) -> Result<Layout, NoMemory>
    requires { IsWithin layout.now }
    ensures { IfOk result (λ drawn. drawn ≡ drawn_layout places.now.list (code_of world.now) layout.now) }
{
    let words = layout_words(alloc, world, places, layout.base, layout.words)?;
    Ok(Layout {
        number: layout.number,
        base: layout.base,
        to: layout.base + 4 * layout.words,
        places: places_of(alloc, &words)?,
    })
}

fn drawn_layouts(
    alloc: Global,
    world: &World,
    places: &Places,
    layouts: &[LayoutFact],
) -> Result<Items<Layout>, NoMemory>
    requires { All IsWithin layouts.now }
    ensures { IfOk result (λ drawn. drawn ≡ map (drawn_layout places.now.list (code_of world.now)) layouts.now) }
{
    let mut all = Items::new(alloc);
    for layout in layouts {
        all.push(drawn_layout(alloc, world, places, layout)?)?;
    }
    Ok(all)
}

// The live layouts.
#[tactic(auto, unfolding(world::specs::Told::facts_of))]
fn layouts_now(alloc: Global, world: &World, places: &Places) -> Result<Items<Layout>, NoMemory>
    ensures { IfOk result (λ drawn. drawn ≡ map (drawn_layout places.now.list (code_of world.now)) (layout_facts world.now.numbers world.now.lives)) }
{
    let facts = world.facts(alloc)?;
    layouts_fit(world, &facts);
    drawn_layouts(alloc, world, places, facts.layouts.as_slice())
}

/// What a run has done to its program, to be drawn: all functions with their blocks, how often transfers entered each in the last
/// snapshot, and where blocks lie in the live layouts. `names` are those of all functions, in their order; one that isn't there is empty.
#[tactic(auto, unfolding(crate::specs::Pictures::drawing_of))]
pub fn drawing_of(alloc: Global, world: &World, names: &[Items<u8>]) -> Result<Drawing, NoMemory>
    ensures { IfOk result (λ drawing. drawing ≡ drawing_of world.now names.now) }
{
    let index = FuncIndex::new(alloc, world.image())?;
    let entries = Entries::of(alloc, world.snapshot())?;
    let places = Places::of(alloc, world.image())?;
    Ok(Drawing {
        functions: drawn_functions(alloc, &index, &entries, names)?,
        layouts: layouts_now(alloc, world, &places)?,
    })
}
