//! Slots: words of memory in which the program keeps where functions start.

ghost use Rattle.std.specs.Prelude.{◌≡◌, ◌<◌, ◌%◌, ◌++◌, ℕ, AllPairs, All, List, Some, None, true, IfOk, OnOk, if◌then◌else◌};
ghost use Rattle.std.specs.List.{cons_option};
ghost use Rattle.std.specs.Option.{option_copied};
ghost use Rattle.image.specs.declared.ranges.TextRange.{TextRange as TextData};
ghost use Rattle.guest_mem.specs.Memory.{Memory, is_link_at, number_at};
ghost use Rattle.guest_mem.specs.Access.{links_of};
ghost use Rattle.layout.specs.Points.{start_of};
ghost use Rattle.sim_laws.specs.Changes.{with_links, with_memory};
ghost use Rattle.world.specs.Worlds.{code_in};
ghost use Rattle.world.specs.Finding.{AreFound};
ghost use Rattle.world.specs.Replacing.{is_own, sent_to, slots_sent};

use crate::points::{Lives, Points};
use crate::told::links_before;
use image::picture::Image;
use image::ranges::Aim;
use layout::calls::start_of;
use layout::layout::Layout;
use link_tags::origins::Origins;
use machine::machine::Machine;
use oc_base::fault::NoMemory;
use patcher::aims::Aims;
use std::alloc::Global;

/// The number of the link at the address of a word, by the links of a memory.
fn link_at(links: &[(u64, u64)], at: u64) -> Option<u64>
    requires { AllPairs (λ k l. k.0 < l.0) links.now }
    ensures { (m : Memory) → links.now ≡ links_of m → at % 8 ≡ 0 → result ≡ (if is_link_at m at then Some (number_at m at) else None) }
{
    let i = links_before(links, at);
    if i >= links.len() {
        return None;
    }
    let (place, number) = links[i];
    if place != at {
        return None;
    }
    Some(number)
}

/// Where the function of a slot starts, if the slot is still a link that stands for this.
fn own_start(points: &Points, image: &Image, links: &[(u64, u64)], s: &Aim) -> Option<u64>
    requires rise { AllPairs (λ k l. k.0 < l.0) links.now }
    requires region { points.now.region ≡ image.now.region }
    ensures { (text : List TextData) (m : Memory) → links.now ≡ links_of m → s.now.at % 8 ≡ 0
        → result ≡ (if is_own image.now (code_in image.now text points.now.lives.now.layouts.items) m s.now then start_of image.now s.now.func else None) }
{
    let number = link_at(links, s.at)?;
    let start = start_of(image, s.func)?;
    if points.origin(number) != start {
        return None;
    }
    Some(start)
}

/// The address of a slot that the program hasn't overwritten, and what the link there is to be.
fn slot_sent(points: &Points, aims: &Aims, links: &[(u64, u64)], s: &Aim) -> Option<(u64, u64)>
    requires rise { AllPairs (λ k l. k.0 < l.0) links.now }
    requires region { points.now.region ≡ aims.now.image.now.region }
    ensures { (text : List TextData) (m : Memory) → links.now ≡ links_of m → s.now.at % 8 ≡ 0
        → result ≡ (if is_own aims.now.image.now (code_in aims.now.image.now text points.now.lives.now.layouts.items) m s.now then sent_to aims.now.image.now (option_copied aims.now.new) s.now else None) }
{
    let start = own_start(points, aims.image, links, s)?;
    Some((s.at, aims.moved(start).unwrap_or(start)))
}

/// Adds what is sent, if it is.
fn push_sent(all: &mut Vec<(u64, u64)>, sent: Option<(u64, u64)>) -> Result<(), NoMemory>
    ensures { OnOk result ((rest : List (ℕ × ℕ)) → all.new.items ++ rest ≡ all.old.items ++ cons_option sent rest) }
{
    if let Some(sent) = sent {
        all.push(sent)?;
    }
    Ok(())
}

/// Where a new layout, or none, sends the slots that the program hasn't overwritten.
pub fn slots_sent(
    alloc: Global,
    image: &Image,
    machine: &Machine,
    lives: &Lives,
    new: Option<&Layout>,
) -> Result<Vec<(u64, u64)>, NoMemory>
    requires { AreFound lives.now }
    ensures { (text : List TextData) → IfOk result (λ v. v.items ≡ slots_sent image.now (code_in image.now text lives.now.layouts.items) (option_copied new.entry) machine.now.memory) }
{
    image.kept();
    let points = Points {
        lives,
        region: image.region(),
        recent: 0,
    };
    let links = machine.links(alloc)?;
    let aims = Aims::of(alloc, image, new)?;
    let mut all = Vec::new(alloc);
    for s in image.slots() {
        push_sent(&mut all, slot_sent(&points, &aims, &links, s))?;
    }
    Ok(all)
}

/// Gives links in memory other numbers. It takes no memory.
pub fn send(machine: &mut Machine, sent: &[(u64, u64)])
    requires { All (λ l. is_link_at machine.old.memory l.0 ≡ true) sent.now }
    ensures { machine.new ≡ with_memory (with_links sent.now machine.old.memory) machine.old }
{
    for &(at, number) in sent {
        machine.set_link(at, number);
    }
}
