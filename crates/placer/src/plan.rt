//! The plan of a profile.

ghost use Rattle.std.specs.Prelude.{◌≡◌, None, IfOk};
ghost use Rattle.plans.specs.Given.{plan_fault};
ghost use Rattle.placer.specs.Planned.{IsPlanFor};

use crate::laws::fit_plans;
use crate::order::order;
use crate::parts::parts;
use blocks::index::FuncIndex;
use branch_ring::profile::Profile;
use image::picture::Image;
use oc_base::fault::NoMemory;
use plans::plan::{Moved, Plan, PlanFault};
use std::alloc::Global;

/// The plan of an image that has parts without a fault.
pub fn plan_with(alloc: Global, image: &Image, parts: &[Moved]) -> Result<Plan, NoMemory>
    requires { plan_fault image.now parts.now ≡ None }
    ensures { IfOk result (λ plan. plan ≡ parts.now) }
{
    match Plan::given(alloc, image, parts) {
        Ok(plan) => Ok(plan),
        Err(PlanFault::NoMemory) => Err(NoMemory),
        Err(_) => unreachable!(),
    }
}

/// The plan that a profile asks for. It moves the functions from which some pair comes and which can be cut into blocks;
/// those that can't are passed over.
pub fn plan_of(alloc: Global, image: &Image, profile: &Profile) -> Result<Plan, NoMemory>
    ensures plan { IfOk result (λ plan. IsPlanFor image.now profile.now plan) }
    ensures given { IfOk result (λ plan. plan_fault image.now plan ≡ None) }
{
    fit_plans();
    let index = FuncIndex::new(alloc, image)?;
    let order = order(alloc, &index, profile)?;
    let parts = parts(alloc, &index, profile, &order)?;
    let plan = plan_with(alloc, image, &parts)?;
    Ok(plan)
}
