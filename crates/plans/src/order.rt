//! Orders of the numbers below a number.

ghost use Rattle.std.specs.Prelude.{◌≡◌, ◌<◌, ℕ, IfOk, OnOk, IfSome, is_none, not, ◌||◌, ◌==◌, length, nat_lt};
ghost use Rattle.std.specs.Ordering.{nat_cmp};
ghost use Rattle.std.specs.List.{list_all, range_with_len};
ghost use Rattle.std.specs.BTreeSet.{contains};
ghost use Rattle.plans.specs.Orders.{is_among, repeats, is_order};

use oc_base::fault::NoMemory;
use std::alloc::Global;
use std::collections::BTreeSet;

/// Adds a number, and tells whether it wasn't there.
fn put(set: &mut BTreeSet<usize>, n: usize) -> Result<bool, NoMemory>
    ensures fresh { IfOk result (λ b. b ≡ not (contains nat_cmp set.old n)) }
    ensures set { OnOk result ((q : ℕ) → contains nat_cmp set.new q ≡ (contains nat_cmp set.old q || (n == q))) }
{
    let fresh = set.insert(n)?;
    Ok(fresh)
}

/// The numbers as a set, and `None` where one of them stands twice.
pub fn numbers_of(alloc: Global, numbers: &[u32]) -> Result<Option<BTreeSet<usize>>, NoMemory>
    ensures once { IfOk result (λ o. is_none o ≡ repeats numbers.now) }
    ensures set { IfOk result (λ o. IfSome o (λ s. (q : ℕ) → contains nat_cmp s q ≡ is_among numbers.now q)) }
{
    let mut set = BTreeSet::new(alloc);
    for n in numbers {
        if !put(&mut set, *n as usize)? {
            return Ok(None);
        }
    }
    Ok(Some(set))
}

fn all_below(order: &[u32], k: usize) -> bool
    ensures { result ≡ list_all (λ o. nat_lt o k) order.now }
{
    order.iter().all(|o| (*o as usize) < k)
}

/// Whether a set has each number below `k`.
fn has_each(set: &BTreeSet<usize>, k: usize) -> bool
    ensures { result ≡ list_all (contains nat_cmp set.now) (range_with_len 0 k) }
{
    for j in 0..k {
        if !set.contains(&j) {
            return false;
        }
    }
    true
}

/// Whether an order has each number below `k` once.
#[tactic(auto, unfolding(crate::specs::Orders::is_order))]
pub fn is_order(alloc: Global, k: usize, order: &[u32]) -> Result<bool, NoMemory>
    ensures { IfOk result (λ b. b ≡ is_order k order.now) }
{
    if order.len() != k {
        return Ok(false);
    }
    if !all_below(order, k) {
        return Ok(false);
    }
    let Some(set) = numbers_of(alloc, order)? else {
        return Ok(false);
    };
    let each = has_each(&set, k);
    Ok(each)
}
