//! What plans are, for callers' proofs.

ghost use Rattle.std.specs.Prelude.{◌≡◌, ◌≢◌, ◌↔◌, ℕ, List, AllPairs, false, None};
ghost use Rattle.image.specs.Picture.{Picture};
ghost use Rattle.plans.specs.declared.plan.Moved.{Moved as MovedData};
ghost use Rattle.plans.specs.Orders.{repeats};
ghost use Rattle.plans.specs.Given.{plan_fault, IsPlanOf};

/// Says that parts have no fault exactly where each is a function that is there, no function stands twice, and each
/// order has each of its function's blocks once; and that numbers of which none stands twice differ. It does nothing.
pub fn plans_of()
    ensures plan { (p : Picture) (parts : List MovedData) → (plan_fault p parts ≡ None) ↔ IsPlanOf p parts }
    ensures apart { (numbers : List ℕ) → repeats numbers ≡ false → AllPairs (λ x y. x ≢ y) numbers }
{}
