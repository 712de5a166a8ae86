//! The first part of a line that has the line's fault.

ghost use Rattle.std.specs.Prelude.{◌≡◌, ◌==◌, ◌<◌, ◌||◌, ℕ, not, [], length, map, Some, is_none, IfOk, OnOk, option_and_then};
ghost use Rattle.std.specs.List.{find};
ghost use Rattle.std.specs.Option.{option_map};
ghost use Rattle.std.specs.Ordering.{nat_cmp};
ghost use Rattle.std.specs.BTreeSet.{contains};
ghost use Rattle.plans.specs.Given.{is_missing};
ghost use Rattle.sched_log.specs.Limits.{no_function, not_a_plan};
ghost use Rattle.script_words.specs.Parts.{blocks_of, number_told, number_fault, order_fault, first_told, faulty, part_told, part_fault, missing_part, parts_in, faulty_in};

use crate::line_parts::parts_in;
use blocks::fault::Unreadable;
use blocks::index::FuncIndex;
use image::picture::Image;
use oc_base::fault::NoMemory;
use oc_base::items::Items;
use plans::order::is_order;
use plans::plan::Moved;
use sched_log::fault::{NO_FUNCTION, NOT_A_PLAN};
use std::alloc::Global;
use std::collections::BTreeSet;

/// How many blocks a function counts as having, and whether it can be cut into blocks.
#[derive(Clone, Copy)]
pub(crate) struct Blocks {
    pub(crate) count: usize,
    pub(crate) cut: bool,
}

/// What is wrong with a part of a plan.
#[derive(Clone, Copy)]
pub(crate) enum Fault {
    /// Its function isn't there.
    NotThere,
    /// Its function stands in a part before it.
    Twice,
    /// Its function has so many blocks, and it names another number of them.
    Count(usize, usize),
    /// It names this block twice.
    BlockTwice(u32),
    /// It names this block, which isn't among those that there are.
    NoBlock(u32, Blocks),
}

/// A part's function, and what is wrong with the part.
#[derive(Clone, Copy)]
pub(crate) struct Faulty {
    pub(crate) func: u32,
    pub(crate) fault: Fault,
}

/// Adds a number, and tells whether it was there.
fn put(set: &mut BTreeSet<usize>, n: usize) -> Result<bool, NoMemory>
    ensures seen { IfOk result (λ b. b ≡ contains nat_cmp set.old n) }
    ensures set { OnOk result ((q : ℕ) → contains nat_cmp set.new q ≡ (contains nat_cmp set.old q || (n == q))) }
{
    let fresh = set.insert(n)?;
    Ok(!fresh)
}

fn number_told(blocks: Blocks, seen: bool, n: u32) -> Option<Fault>
    ensures { result ≡ number_told blocks seen n }
{
    if !((n as usize) < blocks.count) {
        return Some(Fault::NoBlock(n, blocks));
    }
    if seen {
        return Some(Fault::BlockTwice(n));
    }
    None
}

/// What is wrong with the first wrong number of an order.
fn wrong_number(alloc: Global, blocks: Blocks, order: &[u32]) -> Result<Option<Fault>, NoMemory>
    ensures { IfOk result (λ o. o ≡ first_told (number_fault blocks) [] order.now) }
{
    let mut set = BTreeSet::new(alloc);
    for n in order {
        let seen = put(&mut set, *n as usize)?;
        let told = number_told(blocks, seen, *n);
        if told.is_some() {
            return Ok(told);
        }
    }
    Ok(None)
}

#[tactic(auto, unfolding(crate::specs::Parts::order_fault))]
fn order_fault(alloc: Global, blocks: Blocks, order: &[u32]) -> Result<Option<Fault>, NoMemory>
    ensures { IfOk result (λ o. o ≡ order_fault blocks order.now) }
{
    if order.len() == blocks.count {
        return wrong_number(alloc, blocks, order);
    }
    Ok(Some(Fault::Count(blocks.count, order.len())))
}

#[tactic(auto, unfolding(plans::specs::Given::block_count))]
fn blocks_of(alloc: Global, index: &FuncIndex<'_>, m: &Moved) -> Result<Blocks, NoMemory>
    requires { m.now.func < length index.now.image.now.funcs }
    ensures { IfOk result (λ b. b ≡ blocks_of index.now.image.now m.now) }
{
    match index.runs(alloc, m.func) {
        Ok(runs) => Ok(Blocks {
            count: runs.len(),
            cut: true,
        }),
        Err(Unreadable::NoMemory) => Err(NoMemory),
        Err(_) => Ok(Blocks {
            count: m.order.len().max(1),
            cut: false,
        }),
    }
}

/// What is wrong with a part, whose function stands before it or doesn't.
#[tactic(auto, unfolding(crate::specs::Parts::part_told))]
fn part_told(
    alloc: Global,
    index: &FuncIndex<'_>,
    seen: bool,
    m: &Moved,
) -> Result<Option<Fault>, NoMemory>
    ensures { IfOk result (λ o. o ≡ part_told index.now.image.now seen m.now) }
{
    if !((m.func as usize) < index.image.funcs().len()) {
        return Ok(Some(Fault::NotThere));
    }
    if seen {
        return Ok(Some(Fault::Twice));
    }
    let blocks = blocks_of(alloc, index, m)?;
    if is_order(alloc, blocks.count, m.order.as_slice())? {
        return Ok(None);
    }
    order_fault(alloc, blocks, m.order.as_slice())
}

/// A part's function, and what is wrong with the part.
fn faulty_part(
    alloc: Global,
    index: &FuncIndex<'_>,
    seen: bool,
    m: &Moved,
) -> Result<Option<Faulty>, NoMemory>
    ensures { IfOk result (λ o. o ≡ option_map (faulty m.now) (part_told index.now.image.now seen m.now)) }
{
    let Some(fault) = part_told(alloc, index, seen, m)? else {
        return Ok(None);
    };
    let func = m.func;
    Ok(Some(Faulty { func, fault }))
}

/// The first part with a fault.
fn wrong_part(alloc: Global, image: &Image, parts: &[Moved]) -> Result<Option<Faulty>, NoMemory>
    ensures { IfOk result (λ o. o ≡ first_told (part_fault image.now) [] parts.now) }
{
    let index = FuncIndex::new(alloc, image)?;
    let mut set = BTreeSet::new(alloc);
    for m in parts {
        let seen = put(&mut set, m.func as usize)?;
        let told = faulty_part(alloc, &index, seen, m)?;
        if told.is_some() {
            return Ok(told);
        }
    }
    Ok(None)
}

/// The first part whose function isn't there.
fn missing_part(image: &Image, parts: &[Moved]) -> Option<Faulty>
    ensures { result ≡ missing_part image.now parts.now }
{
    let n = image.funcs().len();
    let found = parts.iter().find(|m| !((m.func as usize) < n));
    let Some(m) = found else {
        return None;
    };
    Some(Faulty {
        func: m.func,
        fault: Fault::NotThere,
    })
}

/// The first part of a line that has a fault of this kind.
#[tactic(auto, unfolding(crate::specs::Parts::faulty_in))]
pub(crate) fn faulty_in(
    alloc: Global,
    image: &Image,
    kind: u8,
    line: &[u8],
) -> Result<Option<Faulty>, NoMemory>
    ensures { IfOk result (λ o. o ≡ faulty_in image.now kind line.now) }
{
    if kind != NO_FUNCTION && kind != NOT_A_PLAN {
        return Ok(None);
    }
    let Some(parts) = parts_in(alloc, line)? else {
        return Ok(None);
    };
    if kind == NO_FUNCTION {
        return Ok(missing_part(image, parts.as_slice()));
    }
    wrong_part(alloc, image, parts.as_slice())
}
