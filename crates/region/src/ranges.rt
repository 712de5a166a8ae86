//! Lists of free ranges, changed in place.

ghost use Rattle.std.specs.Prelude.{◌≡◌, ◌+◌, ◌<◌, ◌≤◌, ◌^◌, ◌-◌, ◌++◌, [], ◌∷◌, ℕ, length, take, drop, slice_index_or, nat_lt, nat_le, find, position, All};
ghost use Rattle.std.specs.List.{position_or_len};
ghost use Rattle.std.specs.Vec.{vec_capacity};
ghost use Rattle.std.specs.Option.{option_copied};
ghost use Rattle.oc_base.specs.declared.range.Range.{Range as RangeData};
ghost use Rattle.region.specs.Free.{holds, fit, largest, piece, put_before, put_here};

use oc_base::range::Range;

fn first_that_holds(free: &[Range], n: u64) -> Option<&Range>
    requires { All (λ r. r.from ≤ r.to) free.now }
    ensures { option_copied result ≡ find (holds n) free.now }
{
    free.iter().find(|r| n <= r.to - r.from)
}

/// Where the first range of `n` bytes or more begins.
#[tactic(auto, unfolding(crate::specs::Free::fit))]
pub fn fit(free: &[Range], n: u64) -> Option<u64>
    requires { All (λ r. r.from ≤ r.to) free.now }
    ensures { result ≡ fit free.now n }
{
    let r = first_that_holds(free, n)?;
    Some(r.from)
}

/// The size of the largest range.
#[tactic(auto, using(crate::proofs::FreeLaws::largest_more))]
pub fn largest(free: &[Range]) -> u64
    requires { All (λ r. r.from ≤ r.to) free.now }
    ensures { result ≡ largest free.now }
{
    let mut most = 0;
    for r in free {
        most = (r.to - r.from).max(most);
    }
    most
}

fn first_ending_behind(free: &[Range], at: u64) -> Option<usize>
    ensures { result ≡ position (λ r. nat_lt at r.to) free.now }
{
    free.iter().position(|r| at < r.to)
}

/// Where the first range stands that ends behind an address.
#[tactic(auto, using(crate::proofs::FreeLaws::place_found, crate::proofs::FreeLaws::place_none))]
pub fn place_ending_behind(free: &[Range], at: u64) -> usize
    ensures { result ≡ position_or_len (λ r. nat_lt at r.to) free.now }
{
    match first_ending_behind(free, at) {
        Some(i) => i,
        None => free.len(),
    }
}

fn first_ending_at(free: &[Range], at: u64) -> Option<usize>
    ensures { result ≡ position (λ r. nat_le at r.to) free.now }
{
    free.iter().position(|r| at <= r.to)
}

/// Where the first range stands that ends at an address or behind it.
#[tactic(auto, using(crate::proofs::FreeLaws::place_found, crate::proofs::FreeLaws::place_none))]
pub fn place_ending_at(free: &[Range], at: u64) -> usize
    ensures { result ≡ position_or_len (λ r. nat_le at r.to) free.now }
{
    match first_ending_at(free, at) {
        Some(i) => i,
        None => free.len(),
    }
}

/// Puts a range at a place.
fn insert(free: &mut Vec<Range>, i: usize, r: Range)
    requires place { i ≤ length free.old.items }
    requires room { length free.old.items < vec_capacity free.old }
    ensures items { free.new.items ≡ take i free.old.items ++ r ∷ drop i free.old.items }
    ensures len { length free.new.items ≡ length free.old.items + 1 }
    ensures capacity { vec_capacity free.old ≤ vec_capacity free.new }
{
    let _ = free.insert(i, r);
}

/// Puts a range in the place of another.
#[tactic(auto, using(crate::proofs::Taking::set_is))]
fn set(free: &mut Vec<Range>, i: usize, r: Range)
    requires { i < length free.old.items }
    ensures items { free.new.items ≡ take i free.old.items ++ r ∷ drop (i + 1) free.old.items }
    ensures len { length free.new.items ≡ length free.old.items }
    ensures capacity { vec_capacity free.old ≤ vec_capacity free.new }
{
    free[i] = r;
}

/// Where `n` bytes from an address on end, which is not behind `most`.
fn end_of(at: u64, n: u64, most: u64) -> u64
    requires { at + n ≤ most }
    ensures { result ≡ at + n }
{
    let _ = most;
    at + n
}

/// Takes a part out of the range at a place, which holds it.
pub fn cut_out(free: &mut Vec<Range>, i: usize, at: u64, n: u64)
    requires place { i < length free.old.items }
    requires room { length free.old.items < vec_capacity free.old }
    requires part { (d : RangeData) → at + n ≤ (slice_index_or free.old.items i d).to }
    ensures items { (d : RangeData) → free.new.items ≡ take i free.old.items ++ ((piece (slice_index_or free.old.items i d).from at ++ piece (at + n) (slice_index_or free.old.items i d).to) ++ drop (i + 1) free.old.items) }
    ensures len { length free.new.items ≤ length free.old.items + 1 }
    ensures capacity { vec_capacity free.old ≤ vec_capacity free.new }
{
    let r = free[i];
    let to = r.to;
    let end = end_of(at, n, to);
    if r.from < at {
        set(
            free,
            i,
            Range {
                from: r.from,
                to: at,
            },
        );
        if end < to {
            insert(free, i + 1, Range { from: end, to });
        }
    } else if end < to {
        set(free, i, Range { from: end, to });
    } else {
        free.remove(i);
    }
}

/// Puts a range before the one at a place, and makes them one where they touch.
fn put_before(free: &mut Vec<Range>, i: usize, r: Range)
    requires place { i ≤ length free.old.items }
    requires room { length free.old.items < vec_capacity free.old }
    ensures items { free.new.items ≡ take i free.old.items ++ put_before r (drop i free.old.items) }
    ensures len { length free.new.items ≤ length free.old.items + 1 }
    ensures capacity { vec_capacity free.old ≤ vec_capacity free.new }
{
    if i < free.len() && free[i].from == r.to {
        let to = free[i].to;
        set(free, i, Range { from: r.from, to });
    } else {
        insert(free, i, r);
    }
}

/// Puts a range before the one at a place, which ends at its begin or behind it, and makes those one that touch.
pub fn put_in(free: &mut Vec<Range>, i: usize, r: Range)
    requires place { i ≤ length free.old.items }
    requires room { length free.old.items < vec_capacity free.old }
    ensures items { free.new.items ≡ take i free.old.items ++ put_here r (drop i free.old.items) }
    ensures len { length free.new.items ≤ length free.old.items + 1 }
    ensures capacity { vec_capacity free.old ≤ vec_capacity free.new }
{
    if i < free.len() && free[i].to == r.from {
        let s = free.remove(i);
        put_before(
            free,
            i,
            Range {
                from: s.from,
                to: r.to,
            },
        );
    } else {
        put_before(free, i, r);
    }
}
