//! The blocks of a function that can be read.

ghost use Rattle.std.specs.Prelude.{◌≡◌, ◌<◌, length, Some, None, IfOk, is_none, if◌then◌else◌};
ghost use Rattle.blocks.specs.Blocks.{blocks_of};
ghost use Rattle.blocks.specs.Faults.{fault_of};

use blocks::fault::Unreadable;
use blocks::index::FuncIndex;
use blocks::recover::without_words;
use blocks::run::Blocks;
use oc_base::fault::NoMemory;
use std::alloc::Global;

/// The blocks of a function, or `None` where it can't be cut into blocks.
#[tactic(auto, unfolding(blocks::specs::Blocks::blocks_of))]
pub fn blocks_of(alloc: Global, index: &FuncIndex, f: u32) -> Result<Option<Blocks>, NoMemory>
    requires { f < length index.now.image.now.funcs }
    ensures { IfOk result (λ o. o ≡ (if is_none (fault_of index.now.image.now f) then Some (blocks_of index.now.image.now f) else None)) }
{
    let runs = match index.runs(alloc, f) {
        Ok(runs) => runs,
        Err(Unreadable::NoMemory) => return Err(NoMemory),
        Err(_) => return Ok(None),
    };
    let blocks = without_words(alloc, runs.as_slice())?;
    Ok(Some(Blocks::of(blocks)))
}
