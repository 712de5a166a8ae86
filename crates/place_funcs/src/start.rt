//! The links of functions that stand alone, from the pairs of a profile.

ghost use Rattle.std.specs.Prelude.{◌≡◌, ℕ, ◌+◌, ◌<◌, ◌^◌, ◌==◌, ◌&&◌, All, AllPairs, length, if◌then◌else◌, IfOk, OnOk};
ghost use Rattle.std.specs.List.{sum_by};
ghost use Rattle.place_funcs.specs.Links.{link_at, top_of, AreLone, IsQueued};
ghost use Rattle.place_funcs.specs.Rows.{is_callee, is_it, is_of, share, share_of, IsGiven};

use crate::link::Link;
use crate::rows::leaving;
use crate::table::{Table, empty, put};
use branch_ring::counted::Counted;
use image::funcs::func_from;
use image::ranges::Func;
use oc_base::fault::NoMemory;
use std::alloc::Global;

/// Whether a function is one of some.
fn is_one_of(functions: &[u32], f: u32) -> bool
    requires { AllPairs (λ f g. f < g) functions.now }
    ensures { result ≡ is_of functions.now f }
{
    functions.binary_search(&f).is_ok()
}

/// One of the chosen functions other than `f`, if it starts at an address.
fn callee(funcs: &[Func], chosen: &[u32], f: u32, at: u64) -> Option<u32>
    requires rise { AllPairs (λ f g. f.from < g.from) funcs.now }
    requires few { length funcs.now < 2 ^ 32 }
    requires chosen { AllPairs (λ f g. f < g) chosen.now }
    ensures { (y : ℕ) → is_callee funcs.now chosen.now f at y ≡ is_it result y }
{
    let Some(g) = func_from(funcs, at) else {
        return None;
    };
    if g == f {
        return None;
    }
    if is_one_of(chosen, g) { Some(g) } else { None }
}

fn top_at(table: &Table, x: u32, y: u32) -> u64
    ensures { result ≡ top_of (link_at table.now.links x y) }
{
    match table.links.get(&(x, y)).copied() {
        Some(link) => link.top,
        None => 0,
    }
}

/// Adds to the weight of the edge from `x` to `y`.
fn raise(table: &mut Table, x: u32, y: u32, count: u64) -> Result<(), NoMemory>
    requires some { 0 < count }
    requires small { top_of (link_at table.old.links x y) + count < 2 ^ 64 }
    requires lone { AreLone (link_at table.old.links) }
    requires queued { IsQueued table.old }
    ensures tops { OnOk result ((p q : ℕ) → top_of (link_at table.new.links p q) ≡ top_of (link_at table.old.links p q) + (if (p == x) && (q == y) then count else 0)) }
    ensures lone { OnOk result (AreLone (link_at table.new.links)) }
    ensures queued { OnOk result (IsQueued table.new) }
{
    let top = top_at(table, x, y) + count;
    let link = Link {
        weight: top as u128,
        top,
        f: x,
        g: y,
    };
    put(table, x, y, link)
}

/// Adds a pair that goes from `f`, if it goes to the start of another chosen function.
fn add_row(
    table: &mut Table,
    funcs: &[Func],
    chosen: &[u32],
    f: u32,
    row: Counted,
) -> Result<(), NoMemory>
    requires rise { AllPairs (λ f g. f.from < g.from) funcs.now }
    requires few { length funcs.now < 2 ^ 32 }
    requires chosen { AllPairs (λ f g. f < g) chosen.now }
    requires some { 0 < row.count }
    requires small { (p q : ℕ) → top_of (link_at table.old.links p q) + share funcs.now chosen.now f p q row < 2 ^ 64 }
    requires lone { AreLone (link_at table.old.links) }
    requires queued { IsQueued table.old }
    ensures tops { OnOk result ((p q : ℕ) → top_of (link_at table.new.links p q) ≡ top_of (link_at table.old.links p q) + share funcs.now chosen.now f p q row) }
    ensures lone { OnOk result (AreLone (link_at table.new.links)) }
    ensures queued { OnOk result (IsQueued table.new) }
{
    let Some(g) = callee(funcs, chosen, f, row.to) else {
        return Ok(());
    };
    raise(table, f, g, row.count)?;
    raise(table, g, f, row.count)
}

/// Adds the pairs that go from `f`.
fn add_rows(
    table: &mut Table,
    funcs: &[Func],
    chosen: &[u32],
    f: u32,
    rows: &[Counted],
) -> Result<(), NoMemory>
    requires rise { AllPairs (λ f g. f.from < g.from) funcs.now }
    requires few { length funcs.now < 2 ^ 32 }
    requires chosen { AllPairs (λ f g. f < g) chosen.now }
    requires some { All (λ c. 0 < c.count) rows.now }
    requires small { (p q : ℕ) → top_of (link_at table.old.links p q) + sum_by (share funcs.now chosen.now f p q) rows.now < 2 ^ 64 }
    requires lone { AreLone (link_at table.old.links) }
    requires queued { IsQueued table.old }
    ensures tops { OnOk result ((p q : ℕ) → top_of (link_at table.new.links p q) ≡ top_of (link_at table.old.links p q) + sum_by (share funcs.now chosen.now f p q) rows.now) }
    ensures lone { OnOk result (AreLone (link_at table.new.links)) }
    ensures queued { OnOk result (IsQueued table.new) }
{
    for row in rows {
        add_row(table, funcs, chosen, f, *row)?;
    }
    Ok(())
}

/// The links of the chosen functions, each alone.
pub fn table_of(
    alloc: Global,
    funcs: &[Func],
    profile: &[Counted],
    chosen: &[u32],
) -> Result<Table, NoMemory>
    requires given { IsGiven funcs.now profile.now chosen.now }
    ensures tops { IfOk result (λ t. (p q : ℕ) → top_of (link_at t.links p q) ≡ sum_by (share_of funcs.now chosen.now profile.now p q) chosen.now) }
    ensures lone { IfOk result (λ t. AreLone (link_at t.links)) }
    ensures queued { IfOk result IsQueued }
{
    let mut table = empty(alloc);
    for f in chosen {
        add_rows(&mut table, funcs, chosen, *f, leaving(funcs, profile, *f))?;
    }
    Ok(table)
}
