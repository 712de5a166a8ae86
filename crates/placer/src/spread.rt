//! Functions with their blocks in order, worked out by several threads.

ghost use Rattle.std.specs.Prelude.{◌≡◌, ◌<◌, ◌≤◌, ◌*◌, length, map, All, None, Some, IfOk};
ghost use Rattle.blocks.specs.Faults.{fault_of};
ghost use Rattle.branch_ring.specs.Profiles.{counted, IsKept};
ghost use Rattle.placer.specs.Joined.{joined};
ghost use Rattle.placer.specs.Planned.{AreParts};
ghost use Rattle.placer.specs.Shares.{AreTargets};

use crate::parts::parts_of;
use crate::rows::by_target;
use blocks::index::FuncIndex;
use branch_ring::profile::Profile;
use oc_base::fault::NoMemory;
use plans::plan::Moved;
use std::alloc::Global;
use std::thread::{Threads, map_chunks};

/// Into how many chunks the functions of a plan are cut at most.
const MOST_CHUNKS: usize = 8;

/// How many functions a chunk has.
fn chunk_size(count: usize) -> usize
    ensures some { 0 < result }
    ensures few { count ≤ 8 * result }
{
    count.div_ceil(MOST_CHUNKS).max(1)
}

/// The parts of all chunks in their order.
fn joined(alloc: Global, answers: Vec<Result<Vec<Moved>, NoMemory>>) -> Result<Vec<Moved>, NoMemory>
    ensures { IfOk result (λ parts. joined answers.items ≡ Some parts.items) }
{
    let mut parts = Vec::new(alloc);
    for answer in answers {
        let mut more = answer?;
        parts.append(&mut more)?;
    }
    Ok(parts)
}

/// Each of some functions with its blocks in chains. Each chunk of the functions has a thread of its own, where one can be started.
pub fn parts_by_threads<R: Threads + Sync>(
    rt: &R,
    alloc: Global,
    index: &FuncIndex,
    profile: &Profile,
    funcs: &[u32],
) -> Result<Vec<Moved>, NoMemory>
    requires there { All (λ f. f < length index.now.image.now.funcs) funcs.now }
    requires readable { All (λ f. fault_of index.now.image.now f ≡ None) funcs.now }
    ensures { IfOk result (λ parts. AreParts index.now.image.now profile.now funcs.now parts.items) }
{
    profile.kept();
    let rows = profile.counts();
    let targets = by_target(alloc, rows)?;
    let targets = targets.as_slice();
    let chains = |_start: usize, chunk: &[u32]| -> Result<Vec<Moved>, NoMemory>
        requires { All (λ f. f < length index.now.image.now.funcs) chunk.now × All (λ f. fault_of index.now.image.now f ≡ None) chunk.now × IsKept (map counted rows.now) × AreTargets rows.now targets.now }
        ensures { IfOk result (λ parts. AreParts index.entry.now.image.now (map counted rows.entry.now) chunk.entry.now parts.items) }
    { parts_of(alloc, index, rows, targets, chunk) };
    let answers = map_chunks(rt, alloc, funcs, chunk_size(funcs.len()), &chains)?;
    joined(alloc, answers)
}
