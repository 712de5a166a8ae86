//! What the order of blocks is, for callers' proofs.

ghost use Rattle.std.specs.Prelude.{◌≡◌, ℕ, List};
ghost use Rattle.blocks.specs.declared.run.Block.{Block as BlockData};
ghost use Rattle.branch_ring.specs.declared.counted.Counted.{Counted as CountedData};
ghost use Rattle.place_blocks.specs.Orders.{IsChain};

/// Says that blocks have one order for a profile. It does nothing.
pub fn one_chain()
    ensures { (blocks : List BlockData) (profile : List CountedData) (one two : List ℕ) → IsChain blocks profile one → IsChain blocks profile two → one ≡ two }
{}
