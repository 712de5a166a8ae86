//! The layouts that nothing refers to.

ghost use Rattle.std.specs.Prelude.{◌<◌, ◌^◌, ◌++◌, length, AllPairs, IfOk};
ghost use Rattle.layout.specs.Apart.{LieApart};
ghost use Rattle.retire.specs.References.{AreUnreferenced};
ghost use Rattle.retire.specs.Marks.{IsClosing, AreReferred, AreUnmarked};

use crate::aims::aims_of;
use crate::index::Index;
use crate::marks::Marks;
use layout::layout::Layout;
use oc_base::fault::NoMemory;
use std::alloc::Global;

/// Marks the layouts into which pointers point.
fn pointed(
    alloc: Global,
    index: &Index,
    pcs: &[u64],
    links: &[u64],
    aims: &[u64],
) -> Result<Marks, NoMemory>
    ensures { IfOk result (IsClosing index.now.lives.now (pcs.now ++ links.now ++ aims.now)) }
{
    let mut marks = Marks::none(alloc, index.lives.len())?;
    marks.mark_holders(index, pcs)?;
    marks.mark_holders(index, links)?;
    marks.mark_holders(index, aims)?;
    Ok(marks)
}

/// Which layouts are referred to.
fn referred(
    alloc: Global,
    index: &Index,
    pcs: &[u64],
    links: &[u64],
    aims: &[u64],
) -> Result<Vec<bool>, NoMemory>
    ensures { IfOk result (λ v. AreReferred index.now.lives.now (pcs.now ++ links.now ++ aims.now) v.items) }
{
    let mut marks = pointed(alloc, index, pcs, links, aims)?;
    while let Some(k) = marks.waiting.pop() {
        let aims = aims_of(alloc, &index.lives[k])?;
        marks.mark_holders(index, &aims)?;
    }
    Ok(marks.marked)
}

/// The positions that aren't marked.
fn unmarked(alloc: Global, marked: &[bool]) -> Result<Vec<u32>, NoMemory>
    requires { length marked.now < 2 ^ 32 }
    ensures { IfOk result (λ v. AreUnmarked marked.now (length marked.now) v.items) }
{
    let mut positions = Vec::new(alloc);
    for k in 0..marked.len() {
        if !marked[k] {
            positions.push(k as u32)?;
        }
    }
    Ok(positions)
}

/// The positions of the layouts that nothing refers to, ascending. A layout is referred to by a pc, a link or an aim that points
/// into it, and by a call of another layout that is referred to. Aims are the targets of the calls of text.
pub fn unreferenced(
    alloc: Global,
    lives: &[Layout],
    pcs: &[u64],
    links: &[u64],
    aims: &[u64],
) -> Result<Vec<u32>, NoMemory>
    requires few { length lives.now < 2 ^ 32 }
    requires apart { AllPairs LieApart lives.now }
    ensures { IfOk result (λ v. AreUnreferenced lives.now (pcs.now ++ links.now ++ aims.now) v.items) }
{
    let index = Index::of(alloc, lives)?;
    let marked = referred(alloc, &index, pcs, links, aims)?;
    unmarked(alloc, &marked)
}
