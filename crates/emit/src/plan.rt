//! The words of a plan before they are placed.

ghost use Rattle.std.specs.Prelude.{◌≡◌, ◌++◌, ◌+◌, ◌<◌, ◌^◌, Some, None, IfOk, IfErr, OnOk, All, length, slice_get};
ghost use Rattle.blocks.specs.Faults.{fault_of};
ghost use Rattle.blocks.specs.Blocks.{runs_of};
ghost use Rattle.plans.specs.Given.{block_count, IsPlanOf};
ghost use Rattle.plans.specs.Orders.{IsOrder};
ghost use Rattle.emit.specs.Entries.{calls_of, in_order, function_entries, part_entries, entries_of};
ghost use Rattle.emit.specs.Emitted.{IsFault, plan_unreadable, ExplainsSize};

use crate::calls::CallTable;
use crate::entry::Entry;
use crate::fault::EmitFault;
use crate::starts::measure;
use crate::unplaced::{Moving, push_runs};
use blocks::fault::Unreadable;
use blocks::index::FuncIndex;
use blocks::run::Run;
use image::picture::Image;
use image::ranges::Func;
use oc_base::fault::NoMemory;
use oc_base::items::Items;
use plans::plan::Moved;
use std::alloc::Global;

/// The blocks of a function that moves, or its fault.
fn runs_of(alloc: Global, index: &FuncIndex, func: u32) -> Result<Items<Run>, EmitFault>
    requires { func < length index.now.image.now.funcs }
    ensures is { IfOk result (λ rs. rs ≡ runs_of index.now.image.now func) }
    ensures none { OnOk result (fault_of index.now.image.now func ≡ None) }
    ensures fault { IfErr result (IsFault index.now.image.now func) }
{
    match index.runs(alloc, func) {
        Ok(runs) => Ok(runs),
        Err(Unreadable::NoMemory) => Err(EmitFault::NoMemory),
        Err(why) => Err(EmitFault::Unreadable { func, why }),
    }
}

/// Adds the words of a function.
#[tactic(auto, unfolding(crate::specs::Entries::function_entries))]
fn push_function(
    alloc: Global,
    out: &mut Vec<Entry>,
    table: &CallTable,
    moving: &Moving,
) -> Result<(), NoMemory>
    ensures { OnOk result (out.new.items ≡ out.old.items ++ function_entries (calls_of table.now.image.now table.now.parts.now) moving.now.func (in_order moving.now.runs.now moving.now.order.now)) }
{
    let measured = measure(alloc, table, moving)?;
    push_runs(out, table, moving, &measured)?;
    Ok(())
}

/// A function by its number.
fn function(image: &Image, f: u32) -> Func
    requires { f < length image.now.funcs }
    ensures { slice_get image.now.funcs f ≡ Some result }
{
    image.funcs()[f as usize]
}

/// Adds the words of a part of a plan whose function has these blocks.
#[tactic(auto, unfolding(crate::specs::Entries::part_entries))]
fn push_blocks(
    alloc: Global,
    out: &mut Vec<Entry>,
    table: &CallTable,
    part: &Moved,
    runs: &[Run],
) -> Result<(), NoMemory>
    requires there { part.now.func < length table.now.image.now.funcs }
    requires order { IsOrder (block_count table.now.image.now part.now) part.now.order }
    requires none { fault_of table.now.image.now part.now.func ≡ None }
    requires runs { runs.now ≡ runs_of table.now.image.now part.now.func }
    ensures { OnOk result (out.new.items ≡ out.old.items ++ part_entries table.now.image.now (calls_of table.now.image.now table.now.parts.now) part.now) }
{
    table.image.kept();
    let func = function(table.image, part.func);
    let moving = Moving {
        func,
        runs,
        order: part.order.as_slice(),
    };
    push_function(alloc, out, table, &moving)?;
    Ok(())
}

/// Adds the words of a part of a plan.
fn push_part(
    alloc: Global,
    out: &mut Vec<Entry>,
    table: &CallTable,
    index: &FuncIndex,
    part: &Moved,
) -> Result<(), EmitFault>
    requires same { index.now.image.now ≡ table.now.image.now }
    requires there { part.now.func < length table.now.image.now.funcs }
    requires order { IsOrder (block_count table.now.image.now part.now) part.now.order }
    ensures is { OnOk result (out.new.items ≡ out.old.items ++ part_entries table.now.image.now (calls_of table.now.image.now table.now.parts.now) part.now) }
    ensures none { OnOk result (fault_of table.now.image.now part.now.func ≡ None) }
    ensures fault { IfErr result (IsFault table.now.image.now part.now.func) }
{
    let runs = match runs_of(alloc, index, part.func) {
        Ok(runs) => runs,
        Err(e) => return Err(e),
    };
    let Ok(()) = push_blocks(alloc, out, table, part, runs.as_slice()) else {
        return Err(EmitFault::NoMemory);
    };
    Ok(())
}

/// The words of a plan, or the first of its functions that can't be cut into blocks.
#[tactic(auto, unfolding(crate::specs::Entries::entries_of))]
pub fn entries_of(alloc: Global, image: &Image, parts: &[Moved]) -> Result<Vec<Entry>, EmitFault>
    requires { IsPlanOf image.now parts.now }
    ensures is { IfOk result (λ es. es.items ≡ entries_of image.now parts.now) }
    ensures none { OnOk result (plan_unreadable image.now parts.now ≡ None) }
    ensures fault { IfErr result (ExplainsSize image.now parts.now) }
{
    let Ok(table) = CallTable::new(alloc, image, parts) else {
        return Err(EmitFault::NoMemory);
    };
    let Ok(index) = FuncIndex::new(alloc, image) else {
        return Err(EmitFault::NoMemory);
    };
    let mut out = Vec::new(alloc);
    for i in 0..parts.len() {
        match push_part(alloc, &mut out, &table, &index, &parts[i]) {
            Ok(()) => {}
            Err(e) => return Err(e),
        }
    }
    Ok(out)
}
