//! The edges of a function's blocks, by the weights that a profile gives them.

ghost use Rattle.std.specs.Prelude.{◌++◌, [], ◌∷◌, slice_get, is_some, ◌≡◌, ◌<◌, ◌+◌, ◌*◌, ◌^◌, ◌&&◌, ◌↔◌, ℕ, AllPairs, length, map, filter, nat_lt, IfSome, IfOk, OnOk, if◌then◌else◌};
ghost use Rattle.std.specs.BTreeMap.{IsOrdered};
ghost use Rattle.std.specs.List.Sorted.{IsPermutation};
ghost use Rattle.branch_ring.specs.Profiles.{counted, IsKept};
ghost use Rattle.place_blocks.specs.Chains.{Precedes};
ghost use Rattle.place_blocks.specs.Edges.{Edge, falls, falls_along, weight};
ghost use Rattle.place_blocks.specs.Gains.{edge_cmp, is_edge, weight_at, gain, entry_of, MayPrecede};
ghost use Rattle.place_blocks.specs.Inputs.{AreBlocks};
ghost use Rattle.place_blocks.specs.Passes.{edge_of};
ghost use Rattle.place_blocks.specs.Places.{is_at};
ghost use Rattle.place_blocks.specs.Rising.{Rises, IsAmong};

use crate::edge::WeighedEdge;
use crate::find::{holder, starter};
use blocks::run::Block;
use oc_base::fault::NoMemory;
use std::alloc::Global;
use std::cmp::Reverse;
use std::collections::BTreeMap;

type Weights = BTreeMap<(u32, u32), u64>;

fn add(weights: &mut Weights, edge: (u32, u32), count: u64) -> Result<(), NoMemory>
    requires { weight_at weights.old edge + count < 2 ^ 64 }
    ensures { OnOk result ((e : Edge) → weight_at weights.new e ≡ weight_at weights.old e + (if is_edge edge e then count else 0)) }
{
    let known = match weights.get(&edge) {
        Some(known) => *known,
        None => 0,
    };
    weights.insert(edge, known + count)?;
    Ok(())
}

/// Adds to the edge from the block that was left to the one that was entered.
fn add_transfer(
    weights: &mut Weights,
    left: Option<u32>,
    entered: Option<u32>,
    count: u64,
) -> Result<(), NoMemory>
    requires { (e : Edge) → weight_at weights.old e + count < 2 ^ 64 }
    ensures { OnOk result ((e : Edge) → weight_at weights.new e ≡ weight_at weights.old e + (if is_at left e.0 && is_at entered e.1 then count else 0)) }
{
    let Some(from) = left else {
        return Ok(());
    };
    let Some(to) = entered else {
        return Ok(());
    };
    add(weights, (from, to), count)?;
    Ok(())
}

/// Whether a block falls into the next one.
fn falls_on(blocks: &[Block], from: u32) -> bool
    requires { from < length blocks.now }
    ensures { result ≡ (falls (slice_get blocks.now from) && is_some (slice_get blocks.now (from + 1))) }
{
    match blocks.get(from as usize) {
        Some(block) => block.falls && blocks.get(from as usize + 1).is_some(),
        None => false,
    }
}

/// Adds to the edge from the block that was entered to the next one, if it falls into that.
fn add_fall(
    weights: &mut Weights,
    blocks: &[Block],
    entered: Option<u32>,
    count: u64,
) -> Result<(), NoMemory>
    requires few { length blocks.now < 2 ^ 32 }
    requires within { IfSome entered (λ k. k < length blocks.now) }
    requires fits { (e : Edge) → weight_at weights.old e + count < 2 ^ 64 }
    ensures { OnOk result ((e : Edge) → weight_at weights.new e ≡ weight_at weights.old e + (if falls_along blocks.now e && is_at entered e.0 then count else 0)) }
{
    let Some(from) = entered else {
        return Ok(());
    };
    if !falls_on(blocks, from) {
        return Ok(());
    }
    add(weights, (from, from + 1), count)?;
    Ok(())
}

/// Adds what a pair of a profile says.
fn add_pair(
    weights: &mut Weights,
    blocks: &[Block],
    from: u64,
    to: u64,
    count: u64,
) -> Result<(), NoMemory>
    requires are { AreBlocks blocks.now }
    requires fits { (e : Edge) → weight_at weights.old e + 2 * count < 2 ^ 64 }
    ensures { OnOk result ((e : Edge) → weight_at weights.new e ≡ weight_at weights.old e + gain blocks.now (counted (from, to, count)) e) }
{
    let entered = starter(blocks, to);
    add_transfer(weights, holder(blocks, from), entered, count)?;
    add_fall(weights, blocks, entered, count)?;
    Ok(())
}

fn weights_of(
    alloc: Global,
    blocks: &[Block],
    rows: &[(u64, u64, u64)],
) -> Result<Weights, NoMemory>
    requires are { AreBlocks blocks.now }
    requires kept { IsKept (map counted rows.now) }
    ensures { IfOk result (λ weights. (e : Edge) → weight_at weights e ≡ weight blocks.now (map counted rows.now) e) }
{
    let mut weights = BTreeMap::new(alloc);
    for (from, to, count) in rows {
        add_pair(&mut weights, blocks, *from, *to, *count)?;
    }
    Ok(weights)
}

/// Adds an edge if it has a weight.
fn push_heavy(edges: &mut Vec<WeighedEdge>, edge: (u32, u32), weight: u64) -> Result<(), NoMemory>
    ensures { OnOk result (map entry_of edges.new.items ≡ map entry_of edges.old.items ++ filter (λ e. nat_lt 0 e.1) ((edge, weight) ∷ [])) }
{
    if weight > 0 {
        edges.push(WeighedEdge {
            from: edge.0,
            to: edge.1,
            weight,
        })?;
    }
    Ok(())
}

/// The edges with a weight, ascending.
fn listed(alloc: Global, weights: &Weights) -> Result<Vec<WeighedEdge>, NoMemory>
    ensures entries { IfOk result (λ v. map entry_of v.items ≡ filter (λ e. nat_lt 0 e.1) weights.now.entries) }
    ensures ordered { IfOk result (λ _. IsOrdered edge_cmp weights.now) }
{
    let mut edges = Vec::with_capacity(alloc, weights.len())?;
    for (edge, weight) in weights {
        push_heavy(&mut edges, *edge, *weight)?;
    }
    Ok(edges)
}

fn sort(edges: &mut Vec<WeighedEdge>)
    ensures same { IsPermutation edges.old.items edges.new.items }
    ensures sorted { AllPairs MayPrecede edges.new.items }
{
    edges.sort_unstable_by_key(|e| (Reverse(e.weight), e.from, e.to));
}

/// The edges with a weight, the greatest first, and those of equal weight ascending.
pub fn edges_of(
    alloc: Global,
    blocks: &[Block],
    rows: &[(u64, u64, u64)],
) -> Result<Vec<WeighedEdge>, NoMemory>
    requires are { AreBlocks blocks.now }
    requires kept { IsKept (map counted rows.now) }
    ensures rises { IfOk result (λ v. Rises (Precedes (weight blocks.now (map counted rows.now))) (map edge_of v.items)) }
    ensures all { IfOk result (λ v. (e : Edge) → IsAmong (map edge_of v.items) e ↔ (0 < weight blocks.now (map counted rows.now) e)) }
{
    let weights = weights_of(alloc, blocks, rows)?;
    let mut edges = listed(alloc, &weights)?;
    sort(&mut edges);
    Ok(edges)
}
