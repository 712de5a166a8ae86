//! Blocks by addresses.

ghost use Rattle.std.specs.Prelude.{◌≡◌, ◌≤◌, ◌<◌, ℕ, length, slice_get, IfSome};
ghost use Rattle.std.specs.List.{AllWithin};
ghost use Rattle.std.specs.List.Sorted.{IsNonDecreasingBy};
ghost use Rattle.place_blocks.specs.Edges.{holds, starts};
ghost use Rattle.place_blocks.specs.Inputs.{AreBlocks};
ghost use Rattle.place_blocks.specs.Places.{is_at, start_of};

use blocks::run::Block;

/// How many blocks start at or before an address.
fn starts_up_to(blocks: &[Block], at: u64) -> usize
    requires { IsNonDecreasingBy start_of blocks.now }
    ensures within { result ≤ length blocks.now }
    ensures up_to { AllWithin (λ b. b.range.from ≤ at) blocks.now 0 result }
    ensures others { AllWithin (λ b. at < b.range.from) blocks.now result (length blocks.now) }
{
    blocks.partition_point(|b| b.range.from <= at)
}

/// The block that has an address.
pub fn holder(blocks: &[Block], at: u64) -> Option<u32>
    requires { AreBlocks blocks.now }
    ensures is { (k : ℕ) → holds (slice_get blocks.now k) at ≡ is_at result k }
    ensures within { IfSome result (λ k. k < length blocks.now) }
{
    let count = starts_up_to(blocks, at);
    if count == 0 {
        return None;
    }
    let last = count - 1;
    if at >= blocks[last].range.to {
        return None;
    }
    Some(last as u32)
}

/// The block that starts at an address.
pub fn starter(blocks: &[Block], at: u64) -> Option<u32>
    requires { AreBlocks blocks.now }
    ensures is { (k : ℕ) → starts (slice_get blocks.now k) at ≡ is_at result k }
    ensures within { IfSome result (λ k. k < length blocks.now) }
{
    let count = starts_up_to(blocks, at);
    if count == 0 {
        return None;
    }
    let last = count - 1;
    if blocks[last].range.from != at {
        return None;
    }
    Some(last as u32)
}
