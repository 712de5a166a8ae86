//! The functions of a plan in their order.

ghost use Rattle.std.specs.Prelude.{◌≡◌, ◌<◌, length, All, None, IfOk};
ghost use Rattle.blocks.specs.Faults.{fault_of};
ghost use Rattle.place_funcs.specs.Edges.{count, edge};
ghost use Rattle.place_funcs.specs.Groups.{IsClosest};
ghost use Rattle.placer.specs.Chosen.{chosen};

use crate::choose::chosen;
use blocks::index::FuncIndex;
use branch_ring::profile::Profile;
use oc_base::fault::NoMemory;
use place_funcs::closest::closest;
use std::alloc::Global;

/// The functions that a profile moves, those that call one another close together.
pub fn order(alloc: Global, index: &FuncIndex, profile: &Profile) -> Result<Vec<u32>, NoMemory>
    ensures closest { IfOk result (λ order. IsClosest (edge index.now.image.now.funcs profile.now) (count index.now.image.now.funcs profile.now) (chosen index.now.image.now profile.now) order.items) }
    ensures there { IfOk result (λ order. All (λ f. f < length index.now.image.now.funcs) order.items) }
    ensures readable { IfOk result (λ order. All (λ f. fault_of index.now.image.now f ≡ None) order.items) }
{
    let funcs = chosen(alloc, index, profile)?;
    let order = closest(alloc, index.image, &funcs, profile)?;
    Ok(order)
}
