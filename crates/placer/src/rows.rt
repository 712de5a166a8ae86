//! Rows of a profile by an end.

ghost use Rattle.std.specs.Prelude.{◌≡◌, ◌<◌, ◌≤◌, ℕ, length, map, Contains, IfOk};
ghost use Rattle.std.specs.List.{AllWithin};
ghost use Rattle.std.specs.List.Sorted.{IsNonDecreasingBy, IsPermutation};
ghost use Rattle.placer.specs.Chosen.{row_from};
ghost use Rattle.placer.specs.Shares.{flip, AreTargets};

use image::ranges::Func;
use oc_base::fault::NoMemory;
use std::alloc::Global;

/// A pair of addresses and its count.
pub type Row = (u64, u64, u64);

/// How many rows have a first address below one.
pub fn rows_below(rows: &[Row], from: u64) -> usize
    requires { IsNonDecreasingBy row_from rows.now }
    ensures within { result ≤ length rows.now }
    ensures below { AllWithin (λ row. row_from row < from) rows.now 0 result }
    ensures others { AllWithin (λ row. from ≤ row_from row) rows.now result (length rows.now) }
{
    rows.partition_point(|row| row.0 < from)
}

/// The rows whose first address is in a function.
pub fn rows_inside<'a>(rows: &'a [Row], f: &Func) -> &'a [Row]
    requires { IsNonDecreasingBy row_from rows.now }
    ensures some { (row : ℕ × ℕ × ℕ) → Contains result.now row → Contains rows.now row }
    ensures all { (row : ℕ × ℕ × ℕ) → Contains rows.now row → f.now.from ≤ row_from row → row_from row < f.now.to → Contains result.now row }
{
    let first = rows_below(rows, f.from);
    let rest = &rows[first..];
    let count = rows_below(rest, f.to);
    &rest[..count]
}

fn sort(rows: &mut Vec<Row>)
    ensures same { IsPermutation rows.old.items rows.new.items }
    ensures rises { IsNonDecreasingBy row_from rows.new.items }
{
    rows.sort_unstable_by_key(|row| row.0);
}

fn flipped(alloc: Global, rows: &[Row]) -> Result<Vec<Row>, NoMemory>
    ensures { IfOk result (λ v. v.items ≡ map flip rows.now) }
{
    let mut flipped = Vec::with_capacity(alloc, rows.len())?;
    for row in rows {
        flipped.push((row.1, row.0, row.2))?;
    }
    Ok(flipped)
}

/// The rows with their ends exchanged, ascending by where they go.
pub fn by_target(alloc: Global, rows: &[Row]) -> Result<Vec<Row>, NoMemory>
    ensures { IfOk result (λ v. AreTargets rows.now v.items) }
{
    let mut all = flipped(alloc, rows)?;
    sort(&mut all);
    Ok(all)
}
