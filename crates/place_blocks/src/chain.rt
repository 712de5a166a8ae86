//! The order of a function's blocks.

ghost use Rattle.std.specs.Prelude.{◌≡◌, ℕ, length, nat_lt, IfOk, if◌then◌else◌};
ghost use Rattle.std.specs.List.{range_with_len};
ghost use Rattle.std.specs.List.Sorted.{IsPermutation};
ghost use Rattle.place_blocks.specs.Inputs.{AreBlocks};
ghost use Rattle.place_blocks.specs.Orders.{IsChain};

use crate::lay::lay;
use crate::slots::joined;
use crate::weigh::edges_of;
use blocks::run::Blocks;
use branch_ring::profile::Profile;
use oc_base::fault::NoMemory;
use std::alloc::Global;

/// The numbers of blocks in the order in which they are to lie. It takes time by n log n in the pairs and blocks.
pub fn chain(alloc: Global, blocks: &Blocks, profile: &Profile) -> Result<Vec<u32>, NoMemory>
    requires { AreBlocks blocks.now }
    ensures order { IfOk result (λ order. IsChain blocks.now profile.now order.items) }
{
    profile.kept();
    let list = blocks.list();
    let rows = profile.counts();
    let edges = edges_of(alloc, list, rows)?;
    let slots = joined(alloc, list.len() as u32, &edges)?;
    lay(alloc, list, rows, slots)
}
