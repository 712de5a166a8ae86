//! What a plan of a profile is, for callers' proofs.

ghost use Rattle.std.specs.Prelude.{◌≡◌, List, None};
ghost use Rattle.image.specs.Picture.{Picture};
ghost use Rattle.plans.specs.declared.plan.Moved.{Moved as MovedData};
ghost use Rattle.plans.specs.Given.{plan_fault};
ghost use Rattle.branch_ring.specs.declared.counted.Counted.{Counted as CountedData};
ghost use Rattle.placer.specs.Planned.{IsPlanFor};

use place_blocks::laws::one_chain;
use place_funcs::laws::one_order;
use plans::laws::plans_of;

/// Says that a profile has one plan. It does nothing.
pub fn one_plan()
    ensures { (p : Picture) (profile : List CountedData) (xs ys : List MovedData) → IsPlanFor p profile xs → IsPlanFor p profile ys → xs ≡ ys }
{
    one_order();
    one_chain();
}

/// Says that the plan of a profile is one that the image takes. It does nothing.
pub fn fit_plans()
    ensures { (p : Picture) (profile : List CountedData) (parts : List MovedData) → IsPlanFor p profile parts → plan_fault p parts ≡ None }
{
    plans_of();
}
