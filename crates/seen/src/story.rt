//! What a run did to its program.

ghost use Rattle.std.specs.Prelude.{◌≡◌, ◌++◌, All, string_bytes, IfOk, OnOk};
ghost use Rattle.world.specs.Told.{facts_of};
ghost use Rattle.seen.specs.Moved.{IsWithin};
ghost use Rattle.seen.specs.Spots.{spots_of};
ghost use Rattle.seen.specs.Story.{more_of, story};

use crate::moved::push_layouts;
use crate::profile::push_profile;
use crate::refused::push_refusals;
use crate::sent::push_all_sent;
use crate::spot::Places;
use oc_base::fault::NoMemory;
use oc_base::items::Items;
use report::text::report;
use sched_log::facts::Facts;
use std::alloc::Global;
use world::world::World;

// What each layout of a world keeps.
#[tactic(auto, unfolding(world::specs::Told::facts_of), using(crate::proofs::Within::all_within))]
pub(crate) fn layouts_fit(world: &World, facts: &Facts)
    requires { facts.now ≡ facts_of world.now }
    ensures { All IsWithin facts.now.layouts }
{
    world.kept();
    let _ = facts;
}

// What the report doesn't tell.
#[tactic(auto, unfolding(crate::specs::Story::more_of, world::specs::Told::facts_of))]
fn push_more(
    alloc: Global,
    text: &mut String,
    world: &World,
    facts: &Facts,
    names: &[Items<u8>],
) -> Result<(), NoMemory>
    requires { facts.now ≡ facts_of world.now }
    ensures { OnOk result (string_bytes text.new ≡ string_bytes text.old ++ more_of world.now names.now) }
{
    layouts_fit(world, facts);
    let places = Places::of(alloc, world.image())?;
    push_refusals(text, names, facts.refusals.as_slice())?;
    push_layouts(alloc, text, world, &places, names, facts.layouts.as_slice())?;
    push_all_sent(text, world, names)?;
    push_profile(alloc, text, &places, names, world.snapshot())
}

/// What a run has done to its program: the report, and below it the refused replacements in words, each block of each live layout
/// with its old and its new place, each call of text that leads elsewhere, and the profile of the last snapshot. `names` are those
/// of all functions, in their order; one that isn't there is empty.
#[tactic(auto, unfolding(crate::specs::Story::story))]
pub fn story(alloc: Global, world: &World, names: &[Items<u8>]) -> Result<Items<u8>, NoMemory>
    ensures { IfOk result (λ text. text ≡ story world.now names.now) }
{
    let facts = world.facts(alloc)?;
    let mut all = report(alloc, &facts)?;
    let mut text = String::new(alloc);
    push_more(alloc, &mut text, world, &facts, names)?;
    all.extend_from_slice(text.as_bytes())?;
    Ok(all)
}
