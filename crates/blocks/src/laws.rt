//! What blocks are, for callers' proofs.

ghost use Rattle.std.specs.Prelude.{◌≡◌, ℕ, slice_get, Some, None};
ghost use Rattle.image.specs.declared.ranges.Func.{Func as FuncData};
ghost use Rattle.image.specs.Picture.{Picture, IsKept};
ghost use Rattle.blocks.specs.Faults.{fault_of};
ghost use Rattle.blocks.specs.Blocks.{runs_of};
ghost use Rattle.blocks.specs.Sound.{IsSound, IsAlone};

/// Says what the blocks of a function without a fault are: its words in order, cut at the starts of blocks, with all
/// targets at such starts; and that no other function shares an address with it. It does nothing.
pub fn sound_blocks()
    ensures sound { (p : Picture) (n : ℕ) (f : FuncData) → IsKept p → slice_get p.funcs n ≡ Some f → fault_of p n ≡ None → IsSound p.texts f (runs_of p n) }
    ensures alone { (p : Picture) (n : ℕ) (f : FuncData) → IsKept p → slice_get p.funcs n ≡ Some f → fault_of p n ≡ None → IsAlone p.funcs n f }
{}
