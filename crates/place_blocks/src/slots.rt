//! Chains by their first blocks.

ghost use Rattle.std.specs.Prelude.{◌≡◌, ◌≢◌, ◌<◌, ◌↔◌, ◌++◌, ℕ, List, true, false, All, length, map, get_or, slice_set, OnOk, IfOk, [], if◌then◌else◌};
ghost use Rattle.std.specs.List.{range_with_len};
ghost use Rattle.place_blocks.specs.Chains.{can_join, join, Precedes, Joins};
ghost use Rattle.place_blocks.specs.Edges.{Edge};
ghost use Rattle.place_blocks.specs.Orders.{singles};
ghost use Rattle.place_blocks.specs.Passes.{edge_of, pass};
ghost use Rattle.place_blocks.specs.Places.{times_in};
ghost use Rattle.place_blocks.specs.Rising.{Rises, IsAmong};
ghost use Rattle.place_blocks.specs.Slots.{can_take, take_edge, slot, all_noted, AreSlots, chains_in};

use crate::edge::WeighedEdge;
use crate::linked::Chain;
use oc_base::fault::NoMemory;
use std::alloc::Global;

/// Whether the chain that `from` ends can go on with the one that `to` begins.
fn can_take(slots: &[Chain], heads: &[u32], from: u32, to: u32) -> bool
    requires from { get_or heads.now from 0 < length slots.now }
    requires noted { from < length heads.now }
    requires to { to < length slots.now }
    ensures { result ≡ can_take slots.now (all_noted heads.now) (from, to) }
{
    if to == 0 {
        return false;
    }
    let head = heads[from as usize];
    slots[head as usize].ends(from) && head != to && slots[to as usize].is_full()
}

/// Lets the chain in one slot go on with the one in another.
fn take(alloc: Global, slots: &mut Vec<Chain>, head: u32, to: u32) -> Result<(), NoMemory>
    requires head { head < length slots.old.items }
    requires to { to < length slots.old.items }
    requires apart { head ≢ to }
    ensures { OnOk result (slots.new.items ≡ slice_set (slice_set slots.old.items to []) head (slot slots.old.items head ++ slot slots.old.items to)) }
{
    let tail = std::mem::replace(&mut slots[to as usize], Chain::new(alloc));
    slots[head as usize].extend(alloc, tail)?;
    Ok(())
}

/// Takes an edge if it can be taken.
fn step(
    alloc: Global,
    slots: &mut Vec<Chain>,
    heads: &mut Vec<u32>,
    from: u32,
    to: u32,
) -> Result<(), NoMemory>
    requires are { AreSlots slots.old.items (all_noted heads.old.items) }
    requires sizes { length heads.old.items ≡ length slots.old.items }
    requires from { from < length slots.old.items }
    requires to { to < length slots.old.items }
    ensures chains { OnOk result (chains_in slots.new.items ≡ (if can_join (chains_in slots.old.items) (from, to) then join (from, to) (chains_in slots.old.items) else chains_in slots.old.items)) }
    ensures are { OnOk result (AreSlots slots.new.items (all_noted heads.new.items)) }
    ensures size { OnOk result (length slots.new.items ≡ length slots.old.items) }
    ensures heads { OnOk result (length heads.new.items ≡ length heads.old.items) }
    ensures times { OnOk result ((b : ℕ) → times_in b slots.new.items ≡ times_in b slots.old.items) }
{
    if !can_take(slots, heads, from, to) {
        return Ok(());
    }
    let head = heads[from as usize];
    let Some(last) = slots[to as usize].last() else {
        return Ok(());
    };
    take(alloc, slots, head, to)?;
    heads[last as usize] = head;
    Ok(())
}

/// Goes once over edges in their order, and takes each that can be taken when it is its turn.
fn take_all(
    alloc: Global,
    slots: &mut Vec<Chain>,
    heads: &mut Vec<u32>,
    edges: &[WeighedEdge],
) -> Result<(), NoMemory>
    requires are { AreSlots slots.old.items (all_noted heads.old.items) }
    requires sizes { length heads.old.items ≡ length slots.old.items }
    requires below { All (λ e. (e.from < length slots.old.items) × (e.to < length slots.old.items)) edges.now }
    ensures chains { OnOk result (chains_in slots.new.items ≡ pass (map edge_of edges.now) (chains_in slots.old.items)) }
    ensures times { OnOk result ((b : ℕ) → times_in b slots.new.items ≡ times_in b slots.old.items) }
{
    for e in edges {
        step(alloc, slots, heads, e.from, e.to)?;
    }
    Ok(())
}

/// Each block as a chain of its own.
#[tactic(auto, using(crate::proofs::Started::one_more_single))]
fn singles(alloc: Global, count: u32) -> Result<Vec<Chain>, NoMemory>
    ensures { IfOk result (λ v. v.items ≡ singles count) }
{
    let mut chains = Vec::with_capacity(alloc, count as usize)?;
    for k in 0..count {
        chains.push(Chain::single(alloc, k)?)?;
    }
    Ok(chains)
}

#[tactic(auto, using(crate::proofs::Started::one_more))]
fn numbers(alloc: Global, count: u32) -> Result<Vec<u32>, NoMemory>
    ensures { IfOk result (λ v. v.items ≡ range_with_len 0 count) }
{
    let mut list = Vec::with_capacity(alloc, count as usize)?;
    for k in 0..count {
        list.push(k)?;
    }
    Ok(list)
}

/// The chains of blocks, each in the slot of its first block, for edges in their order.
pub fn joined(alloc: Global, count: u32, edges: &[WeighedEdge]) -> Result<Vec<Chain>, NoMemory>
    requires below { All (λ e. (e.from < count) × (e.to < count)) edges.now }
    // Where these are the edges with a weight, in their order, the chains are those of the rule.
    ensures rule { IfOk result (λ slots. (weight : Edge → ℕ) → Rises (Precedes weight) (map edge_of edges.now)
        → ((e : Edge) → IsAmong (map edge_of edges.now) e ↔ (0 < weight e))
        → (taken : List Edge) × Joins weight (singles count) taken (chains_in slots.items)) }
    ensures times { IfOk result (λ slots. (b : ℕ) → times_in b slots.items ≡ times_in b (singles count)) }
{
    let mut slots = singles(alloc, count)?;
    let mut heads = numbers(alloc, count)?;
    take_all(alloc, &mut slots, &mut heads, edges)?;
    Ok(slots)
}
