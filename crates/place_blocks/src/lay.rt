//! Chains laid one behind another.

ghost use Rattle.std.specs.Prelude.{◌≡◌, ◌<◌, ◌+◌, ◌^◌, ◌++◌, [], ◌∷◌, ℕ, All, AllPairs, length, map, get_or, nat_lt, IfSome, IfOk, OnOk, true, if◌then◌else◌};
ghost use Rattle.std.specs.List.{flat_map};
ghost use Rattle.std.specs.List.Sorted.{IsPermutation};
ghost use Rattle.branch_ring.specs.Profiles.{counted, IsKept};
ghost use Rattle.place_blocks.specs.Edges.{leaves, count_of};
ghost use Rattle.place_blocks.specs.Inputs.{AreBlocks};
ghost use Rattle.place_blocks.specs.Orders.{heat, least, IsLaid};
ghost use Rattle.place_blocks.specs.Places.{is_at, times_in};
ghost use Rattle.place_blocks.specs.Ranks.{sum_of, ranked, chain_of, MayPrecede};
ghost use Rattle.place_blocks.specs.Slots.{is_full, chains_in};

use crate::find::holder;
use crate::linked::Chain;
use blocks::run::Block;
use oc_base::fault::NoMemory;
use std::alloc::Global;
use std::cmp::Reverse;

/// A chain and what it is ordered by.
#[derive(Drop)]
pub struct Ranked {
    /// The count of the pairs from its words.
    pub heat: u64,
    /// Its least block.
    pub least: u32,
    pub chain: Chain,
}

fn zeros(alloc: Global, count: usize) -> Result<Vec<u64>, NoMemory>
    ensures size { IfOk result (λ v. length v.items ≡ count) }
    ensures zero { IfOk result (λ v. (k : ℕ) → get_or v.items k 0 ≡ 0) }
{
    let mut list = Vec::with_capacity(alloc, count)?;
    for _ in 0..count {
        list.push(0)?;
    }
    Ok(list)
}

fn add_at(counts: &mut Vec<u64>, place: Option<u32>, count: u64)
    requires within { IfSome place (λ k. k < length counts.old.items) }
    requires fits { (k : ℕ) → get_or counts.old.items k 0 + count < 2 ^ 64 }
    ensures size { length counts.new.items ≡ length counts.old.items }
    ensures added { (k : ℕ) → get_or counts.new.items k 0 ≡ get_or counts.old.items k 0 + (if is_at place k then count else 0) }
{
    if let Some(k) = place {
        counts[k as usize] += count;
    }
}

/// For each block the count of the pairs from its words.
fn leaving(alloc: Global, blocks: &[Block], rows: &[(u64, u64, u64)]) -> Result<Vec<u64>, NoMemory>
    requires are { AreBlocks blocks.now }
    requires kept { IsKept (map counted rows.now) }
    ensures size { IfOk result (λ v. length v.items ≡ length blocks.now) }
    ensures counts { IfOk result (λ v. (k : ℕ) → get_or v.items k 0 ≡ count_of (map counted rows.now) (leaves blocks.now k)) }
{
    let mut counts = zeros(alloc, blocks.len())?;
    for (from, _, count) in rows {
        add_at(&mut counts, holder(blocks, *from), *count);
    }
    Ok(counts)
}

fn heat_of(counts: &[u64], chain: &Chain) -> u64
    requires below { All (λ b. b < length counts.now) chain.now }
    requires fits { sum_of counts.now chain.now < 2 ^ 64 }
    ensures { result ≡ sum_of counts.now chain.now }
{
    let mut heat = 0;
    for i in 0..chain.len() {
        heat += counts[chain.at(i) as usize];
    }
    heat
}

fn least_of(chain: &Chain) -> u32
    requires { is_full chain.now ≡ true }
    ensures { result ≡ least chain.now }
{
    let mut least = chain.at(0);
    for i in 1..chain.len() {
        least = least.min(chain.at(i));
    }
    least
}

fn rank(counts: &[u64], chain: Chain) -> Ranked
    requires full { is_full chain ≡ true }
    requires below { All (λ b. b < length counts.now) chain }
    requires fits { sum_of counts.now chain < 2 ^ 64 }
    ensures { result ≡ ranked counts.now chain }
{
    Ranked {
        heat: heat_of(counts, &chain),
        least: least_of(&chain),
        chain,
    }
}

/// Adds a chain if it has a block.
fn push_rank(ranks: &mut Vec<Ranked>, counts: &[u64], chain: Chain) -> Result<(), NoMemory>
    requires below { All (λ b. b < length counts.now) chain }
    requires fits { sum_of counts.now chain < 2 ^ 64 }
    ensures { OnOk result (ranks.new.items ≡ ranks.old.items ++ map (ranked counts.now) (chains_in (chain ∷ []))) }
{
    if chain.is_full() {
        ranks.push(rank(counts, chain))?;
    }
    Ok(())
}

fn rank_all(alloc: Global, counts: &[u64], slots: Vec<Chain>) -> Result<Vec<Ranked>, NoMemory>
    requires below { All (λ c. All (λ b. b < length counts.now) c) slots.items }
    requires fits { All (λ c. sum_of counts.now c < 2 ^ 64) slots.items }
    ensures { IfOk result (λ v. v.items ≡ map (ranked counts.now) (chains_in slots.items)) }
{
    let mut ranks = Vec::new(alloc);
    for chain in slots {
        push_rank(&mut ranks, counts, chain)?;
    }
    Ok(ranks)
}

/// The chain of block 0 first, the others by their heat, the greatest first, and of equal heat by their least blocks.
fn sort(ranks: &mut Vec<Ranked>)
    ensures same { IsPermutation ranks.old.items ranks.new.items }
    ensures sorted { AllPairs MayPrecede ranks.new.items }
{
    ranks.sort_unstable_by_key(|r| (r.least != 0, Reverse(r.heat), r.least));
}

fn push_chain(order: &mut Vec<u32>, chain: &Chain) -> Result<(), NoMemory>
    ensures { OnOk result (order.new.items ≡ order.old.items ++ chain.now) }
{
    for i in 0..chain.len() {
        order.push(chain.at(i))?;
    }
    Ok(())
}

fn laid(alloc: Global, ranks: &[Ranked]) -> Result<Vec<u32>, NoMemory>
    ensures { IfOk result (λ order. order.items ≡ flat_map chain_of ranks.now) }
{
    let mut order = Vec::new(alloc);
    for r in ranks {
        push_chain(&mut order, &r.chain)?;
    }
    Ok(order)
}

/// The blocks of the chains in their order.
pub fn lay(
    alloc: Global,
    blocks: &[Block],
    rows: &[(u64, u64, u64)],
    slots: Vec<Chain>,
) -> Result<Vec<u32>, NoMemory>
    requires are { AreBlocks blocks.now }
    requires kept { IsKept (map counted rows.now) }
    requires each { (b : ℕ) → times_in b slots.items ≡ (if nat_lt b (length blocks.now) then 1 else 0) }
    ensures { IfOk result (λ order. IsLaid (heat blocks.now (map counted rows.now)) (chains_in slots.items) order.items) }
{
    let counts = leaving(alloc, blocks, rows)?;
    let mut ranks = rank_all(alloc, &counts, slots)?;
    sort(&mut ranks);
    let order = laid(alloc, &ranks)?;
    Ok(order)
}
