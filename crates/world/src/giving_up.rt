//! What refers to layouts from outside, and layouts that are given up.

ghost use Rattle.std.specs.Prelude.{◌≡◌, ◌+◌, ◌++◌, ◌<◌, ◌≤◌, ◌^◌, All, AllPairs, drop, length, slice_get, IfOk, OnOk};
ghost use Rattle.std.specs.List.{filter_map, flat_map, remove};
ghost use Rattle.image.specs.Texts.{word_at};
ghost use Rattle.layout.specs.Points.{read};
ghost use Rattle.machine.specs.Harts.{has_ended};
ghost use Rattle.retire.specs.References.{jump_of};
ghost use Rattle.world.specs.Retiring.{pc_of, link_number, register_links, pcs_of, links_held, text_aim, text_aims, without, given_back, freed, AreSpread};

use hart::hart::{Hart, Status};
use image::picture::Image;
use image::ranges::Aim;
use image::targets::target;
use layout::layout::Layout;
use link_tags::value::{Tag, Value};
use machine::machine::Machine;
use oc_base::fault::NoMemory;
use oc_base::range::Range;
use patcher::text::TextNow;
use region::space::Region;
use rv_decode::decode;
use rv_isa::instr::Instr;
use std::alloc::Global;

fn has_ended(hart: &Hart) -> bool
    ensures { result ≡ has_ended hart.now.status }
{
    match hart.status {
        Status::Live => false,
        Status::Waiting(_) => false,
        Status::Ended => true,
    }
}

/// Adds the pc of a hart that goes on.
fn add_pc(found: &mut Vec<u64>, hart: &Hart) -> Result<(), NoMemory>
    ensures { OnOk result (found.new.items ≡ found.old.items ++ pc_of hart.now) }
{
    if !has_ended(hart) {
        found.push(hart.pc)?;
    }
    Ok(())
}

/// The pcs of the harts that go on.
pub fn pcs_of(alloc: Global, machine: &Machine) -> Result<Vec<u64>, NoMemory>
    ensures { IfOk result (λ v. v.items ≡ pcs_of machine.now.harts) }
{
    let mut found = Vec::new(alloc);
    let made = machine.made();
    for h in 0..made {
        add_pc(&mut found, machine.hart(h))?;
    }
    Ok(found)
}

fn link_number(value: &Value) -> Option<u64>
    ensures { result ≡ link_number value.now }
{
    match value.tag {
        Tag::Plain => None,
        Tag::Link => Some(value.number),
    }
}

/// Adds the numbers of those of these registers that are links. x0, the first, holds none.
fn add_numbers(found: &mut Vec<u64>, regs: &[Value]) -> Result<(), NoMemory>
    ensures { OnOk result (found.new.items ≡ found.old.items ++ filter_map link_number (drop 1 regs.now)) }
{
    for k in 1..regs.len() {
        if let Some(number) = link_number(&regs[k]) {
            found.push(number)?;
        }
    }
    Ok(())
}

/// Adds the numbers of the links in the registers of a hart that goes on.
fn add_register_links(found: &mut Vec<u64>, hart: &Hart) -> Result<(), NoMemory>
    ensures { OnOk result (found.new.items ≡ found.old.items ++ register_links hart.now) }
{
    if !has_ended(hart) {
        add_numbers(found, &hart.regs)?;
    }
    Ok(())
}

fn add_hart_links(found: &mut Vec<u64>, machine: &Machine) -> Result<(), NoMemory>
    ensures { OnOk result (found.new.items ≡ found.old.items ++ flat_map register_links machine.now.harts) }
{
    let made = machine.made();
    for h in 0..made {
        add_register_links(found, machine.hart(h))?;
    }
    Ok(())
}

/// The numbers of all links, in registers of harts that go on and in memory.
pub fn links_held(alloc: Global, machine: &Machine) -> Result<Vec<u64>, NoMemory>
    ensures { IfOk result (λ v. v.items ≡ links_held machine.now) }
{
    let mut found = Vec::new(alloc);
    add_hart_links(&mut found, machine)?;
    let links = machine.links(alloc)?;
    for link in &links {
        found.push(link.1)?;
    }
    Ok(found)
}

/// Where the word of text at an address goes, if it is a JAL.
#[tactic(auto, unfolding(layout::specs::Points::read))]
fn jump_of(text: &TextNow, at: u64) -> Option<u64>
    ensures { result ≡ jump_of at (read (word_at text.now) at) }
{
    let word = text.word(at)?;
    match &decode(word) {
        Some(Instr::Jal { off, .. }) => Some(target(at, off.get())),
        _ => None,
    }
}

/// Adds the places to which these calls go, whose words stand this far past their places.
fn add_aims(found: &mut Vec<u64>, text: &TextNow, calls: &[Aim], past: u64) -> Result<(), NoMemory>
    requires { All (λ s. s.at + past < 2 ^ 64) calls.now }
    ensures { OnOk result (found.new.items ≡ found.old.items ++ filter_map (text_aim text.now past) calls.now) }
{
    for call in calls {
        if let Some(to) = jump_of(text, call.at + past) {
            found.push(to)?;
        }
    }
    Ok(())
}

/// Where the sites and pairs of text go.
pub fn text_aims(alloc: Global, image: &Image, text: &TextNow) -> Result<Vec<u64>, NoMemory>
    ensures { IfOk result (λ v. v.items ≡ text_aims image.now text.now) }
{
    image.kept();
    let mut found = Vec::new(alloc);
    add_aims(&mut found, text, image.sites(), 0)?;
    add_aims(&mut found, text, image.pairs(), 4)?;
    Ok(found)
}

/// Gives up the layout at a position, with its number. Its range is free then. It takes no memory.
fn give_up_one(lives: &mut Vec<Layout>, numbers: &mut Vec<u64>, region: &mut Region, k: usize)
    requires lives { k < length lives.old.items }
    requires numbers { k < length numbers.old.items }
    requires spare { 0 < region.old.spare }
    requires spread { AreSpread region.old.all lives.old.items region.old.free }
    ensures lives { lives.new.items ≡ remove lives.old.items k }
    ensures numbers { numbers.new.items ≡ remove numbers.old.items k }
    ensures free { region.new.free ≡ given_back (slice_get lives.old.items k) region.old.free }
    ensures spare { region.new.spare + 1 ≡ region.old.spare }
    ensures all { region.new.all ≡ region.old.all }
{
    numbers.remove(k);
    let layout = lives.remove(k);
    layout.kept();
    let from = layout.base();
    let to = from + 4 * layout.words().len() as u64;
    region.give_back(Range { from, to });
}

/// Gives up the layouts at these positions, the last one first. It takes no memory.
pub fn give_up(lives: &mut Vec<Layout>, numbers: &mut Vec<u64>, region: &mut Region, gone: &[u32])
    requires rises { AllPairs (λ j k. j < k) gone.now }
    requires within { All (λ k. k < length lives.old.items) gone.now }
    requires numbers { length numbers.old.items ≡ length lives.old.items }
    requires spare { length gone.now ≤ region.old.spare }
    requires spread { AreSpread region.old.all lives.old.items region.old.free }
    ensures lives { lives.new.items ≡ without gone.now lives.old.items }
    ensures numbers { numbers.new.items ≡ without gone.now numbers.old.items }
    ensures free { region.new.free ≡ freed gone.now lives.old.items region.old.free }
    ensures all { region.new.all ≡ region.old.all }
{
    let mut i = gone.len();
    while i > 0 {
        i -= 1;
        give_up_one(lives, numbers, region, gone[i] as usize);
    }
}
