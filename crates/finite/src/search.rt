ghost use Rattle.std.specs.Prelude.{◌≡◌, ℕ, ◌<◌, ◌≤◌, ◌^◌, ◌==◌, ◌&&◌, nat_le, nat_lt, length, All, AllPairs, position, IfSome};
ghost use Rattle.std.specs.List.{AllWithin};
ghost use Rattle.std.specs.List.Sorted.{IsNonDecreasingBy};

/// What is looked up by a number.
pub trait Keyed {
    ghost key: { Self → ℕ };

    fn key(&self) -> u64
        ensures { result ≡ key self.now };
}

/// How many elements have a key below a number.
pub fn keys_below<T: Keyed>(items: &[T], key: u64) -> usize
    requires { IsNonDecreasingBy T.key items.now }
    ensures within { result ≤ length items.now }
    ensures below { AllWithin (λ x. T.key x < key) items.now 0 result }
    ensures others { AllWithin (λ x. key ≤ T.key x) items.now result (length items.now) }
{
    items.partition_point(|x| x.key() < key)
}

/// How many elements have a key up to a number.
pub fn keys_up_to<T: Keyed>(items: &[T], key: u64) -> usize
    requires { IsNonDecreasingBy T.key items.now }
    ensures within { result ≤ length items.now }
    ensures up_to { AllWithin (λ x. T.key x ≤ key) items.now 0 result }
    ensures others { AllWithin (λ x. key < T.key x) items.now result (length items.now) }
{
    items.partition_point(|x| x.key() <= key)
}

/// The place of the element with a key, by a binary search.
pub fn place_of<T: Keyed>(items: &[T], key: u64) -> Option<usize>
    requires { AllPairs (λ x y. T.key x < T.key y) items.now }
    ensures place { result ≡ position (λ x. T.key x == key) items.now }
    ensures within { IfSome result (λ i. i < length items.now) }
{
    let i = keys_below(items, key);
    if i >= items.len() {
        return None;
    }
    if items[i].key() != key {
        return None;
    }
    Some(i)
}

/// What reaches from its key up to an end.
pub trait Spanned: Keyed {
    ghost end: { Self → ℕ };

    fn end(&self) -> u64
        requires { end self.now < 2 ^ 64 }
        ensures { result ≡ end self.now };
}

/// The place of the element that covers a number, by a binary search.
// rare after `place_near`, so kept out of the loops that call that
#[inline(never)]
pub fn place_covering<T: Spanned>(items: &[T], at: u64) -> Option<usize>
    requires ordered { All (λ x. T.key x ≤ T.end x) items.now }
    requires fits { All (λ x. T.end x < 2 ^ 64) items.now }
    requires apart { AllPairs (λ x y. T.end x ≤ T.key y) items.now }
    ensures place { result ≡ position (λ x. nat_le (T.key x) at && nat_lt at (T.end x)) items.now }
    ensures within { IfSome result (λ i. i < length items.now) }
{
    let n = keys_up_to(items, at);
    if n == 0 {
        return None;
    }
    let i = n - 1;
    if at >= items[i].end() {
        return None;
    }
    Some(i)
}

/// The same, where the place `near` is tried before the search. It may be any number.
#[inline(always)]
pub fn place_near<T: Spanned>(items: &[T], near: usize, at: u64) -> Option<usize>
    requires ordered { All (λ x. T.key x ≤ T.end x) items.now }
    requires fits { All (λ x. T.end x < 2 ^ 64) items.now }
    requires apart { AllPairs (λ x y. T.end x ≤ T.key y) items.now }
    ensures place { result ≡ position (λ x. nat_le (T.key x) at && nat_lt at (T.end x)) items.now }
    ensures within { IfSome result (λ i. i < length items.now) }
{
    if near < items.len() {
        let item = &items[near];
        if item.key() <= at && at < item.end() {
            return Some(near);
        }
    }
    place_covering(items, at)
}
