//! The pairs of a profile that tell of one function.

ghost use Rattle.std.specs.Prelude.{◌≡◌, ℕ, map, None, Some, IfOk, OnOk, if◌then◌else◌};
ghost use Rattle.branch_ring.specs.Profiles.{counted, is_pair, IsKept};
ghost use Rattle.branch_ring.specs.Tallies.{count_at};
ghost use Rattle.placer.specs.Shares.{flip, put_rows, AreTargets, IsShare};

use crate::rows::{Row, rows_inside};
use branch_ring::profile::Profile;
use branch_ring::tally::{Tally, listed};
use image::ranges::Func;
use oc_base::fault::NoMemory;
use std::alloc::Global;
use std::collections::BTreeMap;

fn put(found: &mut Tally, row: Row) -> Result<(), NoMemory>
    ensures { OnOk result ((from to : ℕ) → count_at found.new from to ≡ (if is_pair from to (row.0, row.1) then Some row.2 else count_at found.old from to)) }
{
    found.insert((row.0, row.1), row.2)?;
    Ok(())
}

fn put_all(found: &mut Tally, rows: &[Row]) -> Result<(), NoMemory>
    ensures { OnOk result ((from to : ℕ) → count_at found.new from to ≡ put_rows rows.now from to (count_at found.old from to)) }
{
    for row in rows {
        put(found, *row)?;
    }
    Ok(())
}

fn put_flipped(found: &mut Tally, rows: &[Row]) -> Result<(), NoMemory>
    ensures { OnOk result ((from to : ℕ) → count_at found.new from to ≡ put_rows (map flip rows.now) from to (count_at found.old from to)) }
{
    for row in rows {
        put(found, (row.1, row.0, row.2))?;
    }
    Ok(())
}

fn gathered(alloc: Global, left: &[Row], entered: &[Row]) -> Result<Tally, NoMemory>
    ensures { IfOk result (λ found. (from to : ℕ) → count_at found from to ≡ put_rows (map flip entered.now) from to (put_rows left.now from to None)) }
{
    let mut found = BTreeMap::new(alloc);
    put_all(&mut found, left)?;
    put_flipped(&mut found, entered)?;
    Ok(found)
}

/// The pairs that come from a function or go to it, out of rows by their sources and by their targets. It takes time by their number.
pub fn share(
    alloc: Global,
    by_source: &[Row],
    by_target: &[Row],
    f: &Func,
) -> Result<Profile, NoMemory>
    requires kept { IsKept (map counted by_source.now) }
    requires targets { AreTargets by_source.now by_target.now }
    ensures { IfOk result (λ part. IsShare f.now (map counted by_source.now) part) }
{
    let left = rows_inside(by_source, f);
    let entered = rows_inside(by_target, f);
    let found = gathered(alloc, left, entered)?;
    let rows = listed(alloc, &found)?;
    Ok(Profile::of(rows))
}
