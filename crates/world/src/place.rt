//! A replacement worked out, before anything is changed.

ghost use Rattle.std.specs.Prelude.{◌≡◌, ◌≢◌, ◌%◌, ◌<◌, ◌^◌, ◌↔◌, List, [], true, All, None, Some, IfOk, IfErr, OnOk, IfSome};
ghost use Rattle.layout.specs.Alone.{NamesCalls};
ghost use Rattle.emit.specs.Emitted.{plan_unreadable};
ghost use Rattle.plans.specs.Given.{plan_fault};
ghost use Rattle.layout.specs.Laid.{Laid as LaidData};
ghost use Rattle.patcher.specs.Patched.{ArePatches};
ghost use Rattle.patcher.specs.Reach.{AllReach};
ghost use Rattle.image.specs.declared.ranges.TextRange.{TextRange as TextData};
ghost use Rattle.world.specs.Worlds.{code_in};
ghost use Rattle.world.specs.Finding.{AreFound};
ghost use Rattle.world.specs.Replacing.{is_no_memory, told_as, IsNew, Refuses, ReachRefuses, IsFit, IsPlacement, slots_sent};

use crate::points::Lives;
use crate::slots::slots_sent;
use emit::draft::Draft;
use emit::fault::EmitFault;
use image::picture::Image;
use layout::layout::Layout;
use machine::machine::Machine;
use patcher::fault::ReachFault;
use patcher::patches::{Patch, Patches};
use patcher::work::work_out;
use plans::plan::Plan;
use region::space::Region;
use sched_log::facts::Refusal;
use std::alloc::Global;

/// A new layout, where the plan moves a function, the words that calls become, and the numbers that slots become.
#[derive(Drop)]
pub struct Placement {
    pub layout: Option<Layout>,
    pub patches: Patches,
    pub slots: Vec<(u64, u64)>,
}

/// Whether it is want of memory.
pub fn is_no_memory(why: &Refusal) -> bool
    ensures { result ≡ is_no_memory why.now }
{
    matches!(*why, Refusal::NoMemory)
}

fn told_as(fault: EmitFault) -> Refusal
    ensures { result ≡ told_as fault }
{
    match fault {
        EmitFault::Unreadable { func, why } => Refusal::Unreadable { func, why },
        EmitFault::BranchReach { at, target } => Refusal::BranchReach { at, target },
        EmitFault::NoMemory => Refusal::NoMemory,
    }
}

/// That words have 32 bits, for a caller's proof. It does nothing.
pub fn short_words(words: &[u32])
    ensures { All (λ w. w < 2 ^ 32) words.now }
{
    let _ = words;
}

/// That a word has 32 bits.
fn short_word(word: u32)
    ensures { word < 2 ^ 32 }
{
    let _ = word;
}

/// The same of patches.
fn short_patches(patches: &[Patch])
    ensures { All (λ s. s.word < 2 ^ 32) patches.now }
{
    for patch in patches {
        short_word(patch.word);
    }
}

/// The layout of a plan that moves a function, at the least address that fits.
fn layout_of(alloc: Global, image: &Image, region: &Region, plan: &Plan) -> Result<Layout, Refusal>
    requires plan { plan_fault image.now plan.now ≡ None }
    requires some { plan.now ≢ [] }
    requires all { region.now.all ≡ image.now.region }
    requires whole { All (λ r. r.from % 4 ≡ 0) region.now.free }
    ensures readable { OnOk result (plan_unreadable image.now plan.now ≡ None) }
    ensures is { IfOk result (λ l. IsNew image.now region.now.free plan.now (Some l)) }
    ensures fits { IfOk result (IsFit image.now region.now.free) }
    ensures refused { (lives : List LaidData) → IfErr result (Refuses image.now lives region.now.free plan.now) }
{
    image.kept();
    region.kept();
    let draft = match Draft::of(alloc, image, plan) {
        Ok(draft) => draft,
        Err(fault) => return Err(told_as(fault)),
    };
    let need = draft.size();
    let Some(base) = region.fit(need) else {
        return Err(Refusal::RegionFull {
            need,
            largest: region.largest(),
        });
    };
    match draft.place(alloc, base) {
        Ok(layout) => {
            layout.kept();
            short_words(layout.words());
            Ok(layout)
        }
        Err(fault) => Err(told_as(fault)),
    }
}

fn moves_none(plan: &Plan) -> bool
    ensures { (result ≡ true) ↔ (plan.now ≡ []) }
{
    plan.parts().is_empty()
}

/// The layout that a plan asks for.
fn new_layout(
    alloc: Global,
    image: &Image,
    region: &Region,
    plan: &Plan,
) -> Result<Option<Layout>, Refusal>
    requires plan { plan_fault image.now plan.now ≡ None }
    requires all { region.now.all ≡ image.now.region }
    requires whole { All (λ r. r.from % 4 ≡ 0) region.now.free }
    ensures readable { OnOk result (plan_unreadable image.now plan.now ≡ None) }
    ensures is { IfOk result (IsNew image.now region.now.free plan.now) }
    ensures fits { IfOk result (λ new. IfSome new (IsFit image.now region.now.free)) }
    ensures refused { (lives : List LaidData) → IfErr result (Refuses image.now lives region.now.free plan.now) }
{
    if moves_none(plan) {
        return Ok(None);
    }
    match layout_of(alloc, image, region, plan) {
        Ok(layout) => Ok(Some(layout)),
        Err(why) => Err(why),
    }
}

/// What calls and slots become under a new layout, or with none.
fn aimed(
    alloc: Global,
    image: &Image,
    machine: &Machine,
    lives: &Lives,
    new: Option<Layout>,
) -> Result<Placement, Refusal>
    requires calls { All (NamesCalls image.now) lives.now.layouts.items }
    requires found { AreFound lives.now }
    ensures layout { IfOk result (λ q. q.layout ≡ new) }
    ensures is { IfOk result (λ q. ArePatches image.now new lives.now.layouts.items q.patches) }
    ensures reach { OnOk result (AllReach image.now new lives.now.layouts.items) }
    ensures short { IfOk result (λ q. All (λ s. s.word < 2 ^ 32) q.patches.text) }
    ensures slots { (text : List TextData) → IfOk result (λ q. q.slots.items ≡ slots_sent image.now (code_in image.now text lives.now.layouts.items) new machine.now.memory) }
    ensures refused { IfErr result (ReachRefuses image.now new lives.now.layouts.items) }
{
    let patches = match work_out(alloc, image, &lives.layouts, new.as_ref()) {
        Ok(patches) => patches,
        Err(ReachFault::BranchReach { at, target }) => return Err(Refusal::BranchReach {
            at,
            target,
        }),
        Err(ReachFault::NoMemory) => return Err(Refusal::NoMemory),
    };
    short_patches(patches.text.as_slice());
    let Ok(slots) = slots_sent(alloc, image, machine, lives, new.as_ref()) else {
        return Err(Refusal::NoMemory);
    };
    Ok(Placement {
        layout: new,
        patches,
        slots,
    })
}

/// What a replacement makes, or the first cause to refuse it.
pub fn place(
    alloc: Global,
    image: &Image,
    region: &Region,
    machine: &Machine,
    lives: &Lives,
    plan: &Plan,
) -> Result<Placement, Refusal>
    requires plan { plan_fault image.now plan.now ≡ None }
    requires calls { All (NamesCalls image.now) lives.now.layouts.items }
    requires found { AreFound lives.now }
    requires all { region.now.all ≡ image.now.region }
    requires whole { All (λ r. r.from % 4 ≡ 0) region.now.free }
    ensures is { IfOk result (λ q. IsPlacement image.now lives.now.layouts.items region.now.free plan.now q.layout q.patches) }
    ensures slots { (text : List TextData) → IfOk result (λ q. q.slots.items ≡ slots_sent image.now (code_in image.now text lives.now.layouts.items) q.layout machine.now.memory) }
    ensures refused { IfErr result (Refuses image.now lives.now.layouts.items region.now.free plan.now) }
{
    let new = match new_layout(alloc, image, region, plan) {
        Ok(new) => new,
        Err(why) => return Err(why),
    };
    match aimed(alloc, image, machine, lives, new) {
        Ok(placement) => Ok(placement),
        Err(why) => Err(why),
    }
}
