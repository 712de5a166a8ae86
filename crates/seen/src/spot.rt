//! The blocks of an image, and which of them begins at an address.

ghost use Rattle.std.specs.Prelude.{◌≡◌, ◌<◌, ℕ, [], ◌∷◌, ◌++◌, length, find, Some, string_bytes, IfOk, OnOk, if◌then◌else◌};
ghost use Rattle.std.specs.Ordering.{nat_cmp};
ghost use Rattle.std.specs.BTreeMap.{get};
ghost use Rattle.blocks.specs.Faults.{fault_of};
ghost use Rattle.seen.specs.Spots.{begins_at, spot_of, spots_in, func_spots, spots_from, spots_of, block_text, place_text};

use blocks::fault::Unreadable;
use blocks::index::FuncIndex;
use blocks::run::Run;
use image::picture::Image;
use looking::piece::push_address;
use oc_base::fault::NoMemory;
use oc_base::items::Items;
use std::alloc::Global;
use std::collections::BTreeMap;
use std::fmt::Write;

/// A block: the number of its function and its own, and its addresses from `from` up to, but not with, `to`.
#[derive(Clone, Copy)]
pub struct Spot {
    pub func: u32,
    pub block: usize,
    pub from: u64,
    pub to: u64,
}

fn push_run(list: &mut Vec<Spot>, func: u32, block: usize, r: &Run) -> Result<(), NoMemory>
    ensures { OnOk result (list.new.items ≡ list.old.items ++ spot_of func block r.now ∷ []) }
{
    list.push(Spot {
        func,
        block,
        from: r.from,
        to: r.to,
    })?;
    Ok(())
}

#[tactic(auto, using(crate::proofs::Lines::runs_more, crate::proofs::Lines::runs_done))]
fn push_runs(list: &mut Vec<Spot>, func: u32, runs: &[Run]) -> Result<(), NoMemory>
    ensures { OnOk result (list.new.items ≡ list.old.items ++ spots_in func 0 runs.now) }
{
    for k in 0..runs.len() {
        push_run(list, func, k, &runs[k])?;
    }
    Ok(())
}

// The blocks of a function, if it can be cut into blocks.
fn push_func(
    alloc: Global,
    list: &mut Vec<Spot>,
    index: &FuncIndex<'_>,
    n: u32,
) -> Result<(), NoMemory>
    requires { n < length index.now.image.now.funcs }
    ensures { OnOk result (list.new.items ≡ list.old.items ++ func_spots index.now.image.now n (fault_of index.now.image.now n)) }
{
    match index.runs(alloc, n) {
        Ok(runs) => push_runs(list, n, runs.as_slice()),
        Err(Unreadable::NoMemory) => Err(NoMemory),
        Err(_) => Ok(()),
    }
}

// The blocks of all functions.
#[tactic(auto, unfolding(crate::specs::Spots::spots_of), using(crate::proofs::Lines::funcs_more, crate::proofs::Lines::funcs_done))]
fn spots_of(alloc: Global, index: &FuncIndex<'_>) -> Result<Vec<Spot>, NoMemory>
    ensures { IfOk result (λ list. list.items ≡ spots_of index.now.image.now) }
{
    index.image.kept();
    let funcs = index.image.funcs();
    let mut list = Vec::new(alloc);
    for n in 0..funcs.len() {
        push_func(alloc, &mut list, index, n as u32)?;
    }
    Ok(list)
}

// Notes a block, in place of a later one that begins at the same address.
fn note(starts: &mut BTreeMap<u64, Spot>, s: Spot) -> Result<(), NoMemory>
    ensures { OnOk result ((x : ℕ) → get nat_cmp starts.new x ≡ (if begins_at x s then Some s else get nat_cmp starts.old x)) }
{
    starts.insert(s.from, s)?;
    Ok(())
}

// The first block that begins at each address.
fn starts_of(alloc: Global, list: &[Spot]) -> Result<BTreeMap<u64, Spot>, NoMemory>
    ensures { IfOk result (λ starts. (x : ℕ) → get nat_cmp starts x ≡ find (begins_at x) list.now) }
{
    let mut starts = BTreeMap::new(alloc);
    let mut i = list.len();
    while i > 0 {
        i -= 1;
        note(&mut starts, list[i])?;
    }
    Ok(starts)
}

/// The blocks of an image, ascending by their functions, so that a search finds the one that begins at an address.
#[derive(Drop)]
pub struct Places {
    pub list: Items<Spot>,
    starts: BTreeMap<u64, Spot>,
    ghost found: { (x : ℕ) → get nat_cmp starts x ≡ find (begins_at x) list },
}

impl Places {
    /// Takes time and memory by the words and the blocks of all functions.
    pub fn of(alloc: Global, image: &Image) -> Result<Places, NoMemory>
        ensures { IfOk result (λ places. places.list ≡ spots_of image.now) }
    {
        let index = FuncIndex::new(alloc, image)?;
        let list = spots_of(alloc, &index)?;
        let starts = starts_of(alloc, &list)?;
        Ok(Places {
            list: Items::from_vec(list),
            starts,
        })
    }

    /// The block that begins at an address.
    pub fn at(&self, x: u64) -> Option<Spot>
        ensures { result ≡ find (begins_at x) self.now.list }
    {
        self.starts.get(&x).copied()
    }
}

/// Adds a block's numbers.
pub fn push_block(text: &mut String, s: Spot) -> Result<(), NoMemory>
    ensures { OnOk result (string_bytes text.new ≡ string_bytes text.old ++ block_text s) }
{
    let (func, block) = (s.func, s.block);
    write!(text, "{func}:{block}")?;
    Ok(())
}

/// Adds the numbers of the block that begins at an address, or else the address.
pub fn push_place(text: &mut String, places: &Places, at: u64) -> Result<(), NoMemory>
    ensures { OnOk result (string_bytes text.new ≡ string_bytes text.old ++ place_text places.now.list at) }
{
    match places.at(at) {
        Some(s) => push_block(text, s),
        None => push_address(text, at),
    }
}
