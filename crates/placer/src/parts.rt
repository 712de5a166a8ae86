//! Functions with their blocks in order.

ghost use Rattle.std.specs.Prelude.{◌≡◌, ◌<◌, length, slice_get, map, All, Some, None, IfOk};
ghost use Rattle.blocks.specs.Blocks.{blocks_of};
ghost use Rattle.blocks.specs.Faults.{fault_of};
ghost use Rattle.branch_ring.specs.Profiles.{counted, IsKept};
ghost use Rattle.place_blocks.specs.Orders.{IsChain};
ghost use Rattle.placer.specs.Planned.{AreParts};
ghost use Rattle.placer.specs.Shares.{AreTargets};

use crate::blocks_of::blocks_of;
use crate::rows::{Row, by_target};
use crate::share::share;
use blocks::index::FuncIndex;
use blocks::laws::sound_blocks;
use branch_ring::profile::Profile;
use image::ranges::Func;
use oc_base::fault::NoMemory;
use oc_base::items::Items;
use place_blocks::chain::chain;
use plans::plan::Moved;
use std::alloc::Global;

/// A function by its number.
fn function(index: &FuncIndex, f: u32) -> Func
    requires { f < length index.now.image.now.funcs }
    ensures { slice_get index.now.image.now.funcs f ≡ Some result }
{
    index.image.funcs()[f as usize]
}

/// A function with its blocks in chains.
fn part(
    alloc: Global,
    index: &FuncIndex,
    rows: &[Row],
    targets: &[Row],
    f: u32,
) -> Result<Moved, NoMemory>
    requires there { f < length index.now.image.now.funcs }
    requires readable { fault_of index.now.image.now f ≡ None }
    requires kept { IsKept (map counted rows.now) }
    requires targets { AreTargets rows.now targets.now }
    ensures func { IfOk result (λ m. m.func ≡ f) }
    ensures order { IfOk result (λ m. IsChain (blocks_of index.now.image.now m.func) (map counted rows.now) m.order) }
{
    sound_blocks();
    index.image.kept();
    let Some(blocks) = blocks_of(alloc, index, f)? else {
        unreachable!()
    };
    let func = function(index, f);
    let own = share(alloc, rows, targets, &func)?;
    let order = chain(alloc, &blocks, &own)?;
    Ok(Moved {
        func: f,
        order: Items::from_vec(order),
    })
}

/// Each of some functions with its blocks in chains, out of a profile's rows by their sources and by their targets.
pub fn parts_of(
    alloc: Global,
    index: &FuncIndex,
    rows: &[Row],
    targets: &[Row],
    funcs: &[u32],
) -> Result<Vec<Moved>, NoMemory>
    requires there { All (λ f. f < length index.now.image.now.funcs) funcs.now }
    requires readable { All (λ f. fault_of index.now.image.now f ≡ None) funcs.now }
    requires kept { IsKept (map counted rows.now) }
    requires targets { AreTargets rows.now targets.now }
    ensures { IfOk result (λ parts. AreParts index.now.image.now (map counted rows.now) funcs.now parts.items) }
{
    let mut parts = Vec::with_capacity(alloc, funcs.len())?;
    for f in funcs {
        let moved = part(alloc, index, rows, targets, *f)?;
        parts.push(moved)?;
    }
    Ok(parts)
}

/// Each of some functions with its blocks in chains.
pub fn parts(
    alloc: Global,
    index: &FuncIndex,
    profile: &Profile,
    funcs: &[u32],
) -> Result<Vec<Moved>, NoMemory>
    requires there { All (λ f. f < length index.now.image.now.funcs) funcs.now }
    requires readable { All (λ f. fault_of index.now.image.now f ≡ None) funcs.now }
    ensures { IfOk result (λ parts. AreParts index.now.image.now profile.now funcs.now parts.items) }
{
    profile.kept();
    let rows = profile.counts();
    let targets = by_target(alloc, rows)?;
    let parts = parts_of(alloc, index, rows, &targets, funcs)?;
    Ok(parts)
}
