//! Laws of references, each the contract of a call.

ghost use Rattle.std.specs.Prelude.{◌≡◌, ◌≢◌, ℕ, Bool, true, List, Contains};
ghost use Rattle.layout.specs.Laid.{Laid};
ghost use Rattle.retire.specs.References.{PointInto, CallsInto, Refers, AreUnreferenced};

/// Says that the layouts that are referred to are the least set: they are in every set that holds those into which pointers point, and
/// those into which another one of the set calls. It does nothing.
pub fn least_set()
    ensures { (lives : List Laid) (held : List ℕ) (set : ℕ → Bool)
        → ((k : ℕ) → PointInto lives held k → set k ≡ true)
        → ((j k : ℕ) → j ≢ k → set j ≡ true → CallsInto lives j k → set k ≡ true)
        → (k : ℕ) → Refers lives held k → set k ≡ true }
{}

/// Says that one list has the layouts that aren't referred to. It does nothing.
pub fn one_list()
    ensures { (lives : List Laid) (held xs ys : List ℕ) → AreUnreferenced lives held xs → AreUnreferenced lives held ys → xs ≡ ys }
{}

/// Says that no pointer points into a layout that isn't referred to, and that no call of one that is goes there. It does nothing.
pub fn nothing_points_there()
    ensures pointers { (lives : List Laid) (held positions : List ℕ) (k : ℕ)
        → AreUnreferenced lives held positions → Contains positions k → PointInto lives held k → ⊥ }
    ensures calls { (lives : List Laid) (held positions : List ℕ) (j k : ℕ)
        → AreUnreferenced lives held positions → Contains positions k → (Contains positions j → ⊥) → CallsInto lives j k → ⊥ }
{}
