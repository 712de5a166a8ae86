//! Plans.

ghost use Rattle.std.specs.Prelude.{◌≡◌, ◌≢◌, ◌<◌, Some, None, IfOk, IfErr, OnOk, map, length, false};
ghost use Rattle.std.specs.List.{list_any};
ghost use Rattle.plans.specs.declared.plan.PlanFault.TheVariants.{NoMemory as WantOfMemory};
ghost use Rattle.plans.specs.Orders.{repeats};
ghost use Rattle.plans.specs.Plans.{IsPlan, moved_func};
ghost use Rattle.plans.specs.Given.{block_count, is_missing, is_misordered, plan_fault};

use crate::order::{is_order, numbers_of};
use blocks::fault::Unreadable;
use blocks::index::FuncIndex;
use image::picture::Image;
use oc_base::fault::NoMemory;
use oc_base::items::Items;
use std::alloc::Global;
use std::marker::Model;

/// A function that moves, by its number, and the numbers of its blocks in their new order.
#[derive(Debug, Drop)]
pub struct Moved {
    pub func: u32,
    pub order: Items<u32>,
}

impl Moved {
    /// An equal value.
    pub fn copy(&self, alloc: Global) -> Result<Self, NoMemory>
        ensures { IfOk result (λ m. m ≡ self.now) }
    {
        Ok(Moved {
            func: self.func,
            order: Items::from_slice(alloc, self.order.as_slice())?,
        })
    }
}

/// Why parts are no plan of an image.
#[derive(Clone, Copy, Debug, PartialEq, Eq)]
pub enum PlanFault {
    /// A function has no such number.
    NoFunction,
    /// A function is given twice, or an order is none of its function's blocks.
    NotAPlan,
    NoMemory,
}

impl From<NoMemory> for PlanFault {
    ghost from_gives = { λ _ e. e ≡ WantOfMemory };

    fn from(_e: NoMemory) -> PlanFault {
        PlanFault::NoMemory
    }
}

/// The functions that move, in their order. No function stands twice, and in each order no number.
#[derive(Debug, Drop)]
pub struct Plan {
    parts: Items<Moved>,
}

impl Model for Plan {
    ghost use Rattle.std.specs.Prelude.{List};
    ghost use Rattle.plans.specs.declared.plan.Moved.{Moved as MovedData};
    ghost use Rattle.plans.specs.Plans.{IsPlan};

    ghost Value = { List MovedData };

    ghost view = { λ p. p.parts };

    ghost invariant = { λ p. IsPlan p.parts };
}

impl Plan {
    /// The plan of an image that has these parts. A function that can't be cut into blocks takes each order of the
    /// numbers from 0 up to some number.
    #[tactic(auto, unfolding(crate::specs::Given::plan_fault))]
    pub fn given(alloc: Global, image: &Image, parts: &[Moved]) -> Result<Plan, PlanFault>
        ensures is { IfOk result (λ plan. plan ≡ parts.now) }
        ensures none { OnOk result (plan_fault image.now parts.now ≡ None) }
        ensures fault { IfErr result (λ e. e ≢ WantOfMemory → plan_fault image.now parts.now ≡ Some e) }
    {
        if some_missing(image, parts) {
            return Err(PlanFault::NoFunction);
        }
        if some_twice(alloc, parts)? {
            return Err(PlanFault::NotAPlan);
        }
        if some_misordered(alloc, image, parts)? {
            return Err(PlanFault::NotAPlan);
        }
        let copies = copied(alloc, parts)?;
        Ok(Plan {
            parts: Items::from_vec(copies),
        })
    }

    /// An equal plan.
    pub fn copy(&self, alloc: Global) -> Result<Self, NoMemory>
        ensures { IfOk result (λ plan. plan ≡ self.now) }
    {
        let copies = copied(alloc, self.parts.as_slice())?;
        Ok(Plan {
            parts: Items::from_vec(copies),
        })
    }

    /// What each plan keeps, for a caller's proof. It does nothing.
    pub fn kept(&self)
        ensures { IsPlan self.now }
    {
        let _ = &self.parts;
    }

    pub fn parts(&self) -> &[Moved]
        ensures { result.now ≡ self.now }
    {
        self.parts.as_slice()
    }
}

fn some_missing(image: &Image, parts: &[Moved]) -> bool
    ensures { result ≡ list_any (is_missing image.now) parts.now }
{
    let n = image.funcs().len();
    parts.iter().any(|m| !((m.func as usize) < n))
}

fn funcs_of(alloc: Global, parts: &[Moved]) -> Result<Vec<u32>, NoMemory>
    ensures { IfOk result (λ funcs. funcs.items ≡ map moved_func parts.now) }
{
    let mut funcs = Vec::with_capacity(alloc, parts.len())?;
    for m in parts {
        funcs.push(m.func)?;
    }
    Ok(funcs)
}

/// Whether some function is given twice.
fn some_twice(alloc: Global, parts: &[Moved]) -> Result<bool, NoMemory>
    ensures { IfOk result (λ b. b ≡ repeats (map moved_func parts.now)) }
{
    let funcs = funcs_of(alloc, parts)?;
    let numbers = numbers_of(alloc, &funcs)?;
    Ok(numbers.is_none())
}

/// How many blocks a function counts as having.
#[tactic(auto, unfolding(crate::specs::Given::block_count))]
fn block_count(alloc: Global, index: &FuncIndex, m: &Moved) -> Result<usize, NoMemory>
    requires { m.now.func < length index.now.image.now.funcs }
    ensures { IfOk result (λ n. n ≡ block_count index.now.image.now m.now) }
{
    match index.runs(alloc, m.func) {
        Ok(runs) => Ok(runs.len()),
        Err(Unreadable::NoMemory) => Err(NoMemory),
        Err(_) => Ok(m.order.len().max(1)),
    }
}

fn is_misordered(alloc: Global, index: &FuncIndex, m: &Moved) -> Result<bool, NoMemory>
    requires { m.now.func < length index.now.image.now.funcs }
    ensures { IfOk result (λ b. b ≡ is_misordered index.now.image.now m.now) }
{
    let count = block_count(alloc, index, m)?;
    let is = is_order(alloc, count, m.order.as_slice())?;
    Ok(!is)
}

/// Whether some order is none of its function's blocks.
fn some_misordered(alloc: Global, image: &Image, parts: &[Moved]) -> Result<bool, NoMemory>
    requires { list_any (is_missing image.now) parts.now ≡ false }
    ensures { IfOk result (λ b. b ≡ list_any (is_misordered image.now) parts.now) }
{
    let index = FuncIndex::new(alloc, image)?;
    for m in parts {
        if is_misordered(alloc, &index, m)? {
            return Ok(true);
        }
    }
    Ok(false)
}

fn copied(alloc: Global, parts: &[Moved]) -> Result<Vec<Moved>, NoMemory>
    ensures { IfOk result (λ copies. copies.items ≡ parts.now) }
{
    let mut copies = Vec::with_capacity(alloc, parts.len())?;
    for m in parts {
        copies.push(m.copy(alloc)?)?;
    }
    Ok(copies)
}
