//! Functions in groups.

ghost use Rattle.std.specs.Prelude.{IfOk};
ghost use Rattle.place_funcs.specs.Edges.{edge};
ghost use Rattle.place_funcs.specs.Grouping.{IsGrouped};
ghost use Rattle.place_funcs.specs.Rows.{IsGiven};

use crate::groups::{Groups, merge, singles};
use crate::start::table_of;
use crate::table::front;
use branch_ring::counted::Counted;
use image::ranges::Func;
use oc_base::fault::NoMemory;
use std::alloc::Global;

/// Groups of functions, merged as long as some two have a weight over 0 between them.
pub fn grouped(
    alloc: Global,
    funcs: &[Func],
    profile: &[Counted],
    chosen: &[u32],
) -> Result<Groups, NoMemory>
    requires { IsGiven funcs.now profile.now chosen.now }
    ensures { IfOk result (λ m. IsGrouped (edge funcs.now profile.now) chosen.now m.entries) }
{
    let mut table = table_of(alloc, funcs, profile, chosen)?;
    let mut groups = singles(alloc, chosen)?;
    while let Some(nearest) = front(&table) {
        merge(alloc, &mut table, &mut groups, &nearest)?;
    }
    Ok(groups)
}
