ghost use Rattle.std.specs.Prelude.{◌≡◌, ℕ, List, Option};
ghost use Rattle.finite.specs.Lists.{Lists};

/// Two lists of one partial function are equal.
pub fn one_list()
    ensures { (f : ℕ → Option ℕ) (xs ys : List (ℕ × ℕ)) → Lists f xs → Lists f ys → xs ≡ ys }
{}
