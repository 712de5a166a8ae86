//! Laws of rings and profiles, each the contract of a call.

ghost use Rattle.std.specs.Prelude.{◌≡◌, ℕ, List, ◌++◌};
ghost use Rattle.branch_ring.specs.declared.counted.Counted.{Counted as CountedData};
ghost use Rattle.branch_ring.specs.Rings.{last};
ghost use Rattle.branch_ring.specs.Profiles.{IsProfile};

/// Says that the last of a list and more are the last of its last ones and more: a ring that keeps the last pairs of some
/// list keeps those of that list and one more after it has noted one. It does nothing.
pub fn last_goes_on()
    ensures { (n : ℕ) (pairs more : List (ℕ × ℕ)) → last n (last n pairs ++ more) ≡ last n (pairs ++ more) }
{}

/// Says that pairs have one profile. It does nothing.
pub fn one_profile()
    ensures { (pairs : List (ℕ × ℕ)) (xs ys : List CountedData) → IsProfile pairs xs → IsProfile pairs ys → xs ≡ ys }
{}
