//! Where the Starts of a layout are.

ghost use Rattle.std.specs.Prelude.{◌≡◌, ◌+◌, ◌*◌, ℕ, IfOk, OnOk, length, unwrap_or, drop, if◌then◌else◌, Some, All, ◌<◌, ◌^◌};
ghost use Rattle.std.specs.Ordering.{nat_cmp};
ghost use Rattle.std.specs.BTreeMap.{get};
ghost use Rattle.emit.specs.Entries.{calls_of, in_order, place, is_start, longest, reaches, is_far};

use crate::calls::CallTable;
use crate::entry::Entry;
use crate::unplaced::{Always, Far, Moving, push_runs};
use layout::point::Point;
use oc_base::fault::NoMemory;
use std::alloc::Global;
use std::collections::BTreeMap;

fn note(m: &mut BTreeMap<u64, usize>, p: Point, i: usize) -> Result<(), NoMemory>
    ensures { OnOk result ((x : ℕ) → get nat_cmp m.new x ≡ (if is_start x p then Some i else get nat_cmp m.old x)) }
{
    match p {
        Point::Start(x) => {
            m.insert(x, i)?;
            Ok(())
        }
        Point::Hop(_) => Ok(()),
        Point::Mid(_) => Ok(()),
    }
}

/// The place of the first Start of each address.
pub fn gather(alloc: Global, entries: &[Entry]) -> Result<BTreeMap<u64, usize>, NoMemory>
    ensures { IfOk result (λ m. (x : ℕ) → unwrap_or (get nat_cmp m x) (length entries.now) ≡ place x entries.now) }
{
    let mut m = BTreeMap::new(alloc);
    let mut i = entries.len();
    while i > 0 {
        i -= 1;
        note(&mut m, entries[i].point, i)?;
    }
    Ok(m)
}

/// A function, and where its Starts are when every branch is long.
#[derive(Drop)]
pub struct Measured<'a> {
    table: &'a CallTable<'a>,
    moving: &'a Moving<'a>,
    count: usize,
    starts: BTreeMap<u64, usize>,
    ghost places: { (x : ℕ) → unwrap_or (get nat_cmp starts x) count ≡ place x (longest (calls_of table.now.image.now table.now.parts.now) moving.now.func (in_order moving.now.runs.now moving.now.order.now)) },
}

/// Measures a function.
pub fn measure<'a>(
    alloc: Global,
    table: &'a CallTable<'a>,
    moving: &'a Moving<'a>,
) -> Result<Measured<'a>, NoMemory>
    ensures table { IfOk result (λ m. m.table.now ≡ table.now) }
    ensures moving { IfOk result (λ m. m.moving.now ≡ moving.now) }
{
    let mut longest = Vec::new(alloc);
    push_runs(&mut longest, table, moving, &Always)?;
    let starts = gather(alloc, &longest)?;
    Ok(Measured {
        table,
        moving,
        count: longest.len(),
        starts,
    })
}

fn reaches(k: usize, n: usize) -> bool
    ensures { result ≡ reaches k n }
{
    if k <= n { n - k <= 1023 } else { k - n <= 1024 }
}

impl Measured<'_> {
    fn place(&self, x: u64) -> usize
        ensures { result ≡ place x (longest (calls_of self.now.table.now.image.now self.now.table.now.parts.now) self.now.moving.now.func (in_order self.now.moving.now.runs.now self.now.moving.now.order.now)) }
    {
        self.starts.get(&x).copied().unwrap_or(self.count)
    }
}

#[tactic(auto, unfolding(crate::specs::Entries::is_far))]
impl Far for Measured<'_> {
    ghost use Rattle.emit.specs.Entries.{calls_of, in_order, is_far};

    ghost far = { λ m. is_far (calls_of m.table.now.image.now m.table.now.parts.now) m.moving.now.func (in_order m.moving.now.runs.now m.moving.now.order.now) };

    fn far(&self, x: u64, y: u64) -> bool {
        if y < self.moving.func.from {
            return true;
        }
        if self.moving.func.to <= y {
            return true;
        }
        !reaches(self.place(x), self.place(y))
    }
}
