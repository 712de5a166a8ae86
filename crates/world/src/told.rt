//! What is told of a world.

ghost use Rattle.std.specs.Prelude.{◌≡◌, ◌<◌, ◌≤◌, ◌+◌, ◌==◌, ◌&&◌, ◌^◌, ℕ, not, All, AllPairs, length, map, Option, IfOk, List};
ghost use Rattle.std.specs.List.{AllWithin, count_by};
ghost use Rattle.layout.specs.Points.{in_range};
ghost use Rattle.sim_laws.specs.Origins.{origin_of};
ghost use Rattle.world.specs.Worlds.{point_at};
ghost use Rattle.world.specs.Finding.{AreFound};
ghost use Rattle.world.specs.Told.{is_changed, call_changed, changed_in, leads_in, hart_by, layout_facts};

use crate::points::{Lives, Points, is_in};
use hart::hart::{Hart, Status};
use image::picture::Image;
use image::ranges::Aim;
use layout::layout::Layout;
use link_tags::origins::Origins;
use machine::machine::Machine;
use oc_base::fault::NoMemory;
use oc_base::range::Range;
use patcher::text::TextNow;
use sched_log::facts::{HartFact, LayoutFact};
use std::alloc::Global;

/// Whether the word of text at an address isn't the original one.
fn is_changed(image: &Image, text: &TextNow, x: u64) -> bool
    ensures { result ≡ is_changed image.now text.now x }
{
    match (text.word(x), image.word(x)) {
        (Some(now), Some(was)) => now != was,
        (None, None) => false,
        _ => true,
    }
}

/// How many of these calls, whose words stand this far past their places, are changed.
fn changed_calls(image: &Image, text: &TextNow, calls: &[Aim], past: u64) -> u64
    requires { All (λ s. s.at + past < 2 ^ 64) calls.now }
    ensures { result ≡ count_by (call_changed image.now text.now past) calls.now }
{
    let mut n = 0;
    for s in calls {
        if is_changed(image, text, s.at + past) {
            n += 1;
        }
    }
    n
}

/// How many sites and second words of pairs in text differ from the original ones.
pub fn changed_in(image: &Image, text: &TextNow) -> u64
    ensures { result ≡ changed_in image.now text.now }
{
    image.kept();
    let sites = changed_calls(image, text, image.sites(), 0);
    let pairs = changed_calls(image, text, image.pairs(), 4);
    sites + pairs
}

/// How many of these links stand before an address.
pub fn links_before(links: &[(u64, u64)], at: u64) -> usize
    requires { AllPairs (λ k l. k.0 < l.0) links.now }
    ensures within { result ≤ length links.now }
    ensures below { AllWithin (λ l. l.0 < at) links.now 0 result }
    ensures others { AllWithin (λ l. at ≤ l.0) links.now result (length links.now) }
{
    links.partition_point(|l| l.0 < at)
}

/// Whether a link stands at an address and leads into the region.
fn is_lead(region: Range, link: (u64, u64), at: u64) -> bool
    ensures { result ≡ ((link.0 == at) && in_range region link.1) }
{
    link.0 == at && is_in(region, link.1)
}

/// Whether the word at a slot's place is a link into the region.
fn leads_in(region: Range, links: &[(u64, u64)], s: &Aim) -> bool
    requires { AllPairs (λ k l. k.0 < l.0) links.now }
    ensures { result ≡ leads_in region links.now s.now }
{
    let i = links_before(links, s.at);
    if i >= links.len() {
        return false;
    }
    is_lead(region, links[i], s.at)
}

/// How many slots hold a link into the region.
pub fn slots_in(region: Range, links: &[(u64, u64)], slots: &[Aim]) -> u64
    requires { AllPairs (λ k l. k.0 < l.0) links.now }
    ensures { result ≡ count_by (leads_in region links.now) slots.now }
{
    let mut n = 0;
    for s in slots {
        if leads_in(region, links, s) {
            n += 1;
        }
    }
    n
}

fn layout_fact(number: u64, layout: &Layout) -> LayoutFact
    ensures { result ≡ record { number = number; base = layout.now.base; words = length layout.now.words } }
{
    LayoutFact {
        number,
        base: layout.base(),
        words: layout.words().len() as u64,
    }
}

/// The live layouts, with their numbers.
pub fn layout_facts(
    alloc: Global,
    numbers: &[u64],
    lives: &[Layout],
) -> Result<Vec<LayoutFact>, NoMemory>
    requires { length numbers.now ≡ length lives.now }
    ensures { IfOk result (λ v. v.items ≡ layout_facts numbers.now lives.now) }
{
    let mut all = Vec::with_capacity(alloc, lives.len())?;
    for i in 0..lives.len() {
        all.push(layout_fact(numbers[i], &lives[i]))?;
    }
    Ok(all)
}

fn hart_by(original: u64, pc: u64, status: Status) -> HartFact
    ensures { result ≡ hart_by original pc status }
{
    match status {
        Status::Live => HartFact::Live { original, pc },
        Status::Waiting(_) => HartFact::Waiting { original, pc },
        Status::Ended => HartFact::Ended,
    }
}

fn hart_fact(points: &Points, hart: &Hart) -> HartFact
    ensures { result ≡ hart_by (origin_of hart.now.pc (point_at points.now.region points.now.lives.now.layouts.items hart.now.pc)) hart.now.pc hart.now.status }
{
    hart_by(points.origin(hart.pc), hart.pc, hart.status)
}

/// Where each hart is.
pub fn hart_facts(
    alloc: Global,
    machine: &Machine,
    lives: &Lives,
    region: Range,
) -> Result<Vec<HartFact>, NoMemory>
    requires { AreFound lives.now }
    ensures { IfOk result (λ v. v.items ≡ map (λ h. hart_by (origin_of h.pc (point_at region lives.now.layouts.items h.pc)) h.pc h.status) machine.now.harts) }
{
    let made = machine.made();
    let mut all = Vec::with_capacity(alloc, made as usize)?;
    for h in 0..made {
        let points = Points {
            lives,
            region,
            recent: 0,
        };
        all.push(hart_fact(&points, machine.hart(h)))?;
    }
    Ok(all)
}
