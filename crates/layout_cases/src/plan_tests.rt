//! Plans of guests. A row is a guest, a plan, as functions with their blocks in order, and whether it is one. What is wanted was told
//! by an independent implementation.

use cases::orders::{parts_of, plan_of, plan_text};
use cases::rows::check;
use image::picture::Image;
use plans::plan::{Plan, PlanFault};
use std::alloc::{AllocError, Global};
use std::test::Fail;

fn fault_text(alloc: Global, fault: PlanFault) -> Result<String, AllocError> {
    match fault {
        PlanFault::NoFunction => String::from_str(alloc, "no function"),
        PlanFault::NotAPlan => String::from_str(alloc, "not a plan"),
        PlanFault::NoMemory => String::from_str(alloc, "out of memory"),
    }
}

/// What becomes of a plan, with the number of its parts.
fn given_text(alloc: Global, image: &Image, case: &str) -> Result<String, Fail> {
    let parts = parts_of(alloc, case)?;
    match Plan::given(alloc, image, &parts) {
        Ok(plan) => {
            let n = plan.parts().len();
            Ok(format!(in alloc; "a plan of {n}")?)
        }
        Err(fault) => Ok(fault_text(alloc, fault)?),
    }
}

const PLANS: &str = "\
countdown | 1:2 1 0 = a plan of 1
countdown | 1:0 1 2; 0:0 = a plan of 2
countdown | 0:0; 1:2 1 0 = a plan of 2
countdown |  = a plan of 0
countdown | 1:2 1 = not a plan
countdown | 1:2 1 0 0 = not a plan
countdown | 1:2 1 1 = not a plan
countdown | 1:3 1 0 = not a plan
countdown | 1:0 1 2 3 = not a plan
countdown | 1: = not a plan
countdown | 0:0; 0:0 = not a plan
countdown | 1:2 1 0; 2:0 = no function
countdown | 2:0; 1:2 1 = no function";

#[test]
fn orders_of_blocks_are_plans(rt: HostRuntime) -> Result<(), Fail> {
    check(rt.alloc(), PLANS, given_text)
}

const ANY_ORDERS: &str = "\
zero word | 1:0 = a plan of 1
zero word | 1:2 0 1 = a plan of 1
zero word | 0:0; 1:1 0 = a plan of 2
zero word | 1:1 2 = not a plan
zero word | 1: = not a plan
zero word | 1:0; 1:0 = not a plan";

#[test]
fn a_function_without_blocks_takes_any_order(rt: HostRuntime) -> Result<(), Fail> {
    check(rt.alloc(), ANY_ORDERS, given_text)
}

/// The text of a plan's copy.
fn copy_text(alloc: Global, image: &Image, case: &str) -> Result<String, Fail> {
    let plan = plan_of(alloc, image, case)?;
    let copy = plan.copy(alloc)?;
    Ok(plan_text(alloc, &copy)?)
}

#[test]
fn a_plan_is_copied(rt: HostRuntime) -> Result<(), Fail> {
    check(rt.alloc(), "countdown | 1:2 0 1 = 1:2 0 1", copy_text)
}
