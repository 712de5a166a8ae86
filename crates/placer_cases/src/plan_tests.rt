//! Plans of profiles. A row is a guest, transfers as `from>to`, some with how often they are made, and the plan of their profile, as
//! functions with their blocks in order. What is wanted was told by an independent implementation.

use crate::runs::profile_of_run;
use cases::orders::plan_text;
use cases::rows::check;
use image::picture::Image;
use placer::plan::plan_of;
use std::alloc::Global;
use std::test::Fail;

/// The plan of the profile of some transfers.
fn planned(alloc: Global, image: &Image, case: &str) -> Result<String, Fail> {
    let profile = profile_of_run(alloc, case)?;
    let plan = plan_of(alloc, image, &profile)?;
    Ok(plan_text(alloc, &plan)?)
}

const COUNTDOWN: &str = "\
countdown | 10000>10010 10018>10014 10018>1001c 10024>10004 = 0:0; 1:0 1 2
countdown | 10018>1001c 10024>10004 = 1:0 1 2
countdown | 10004>10010*2 = 0:0
countdown | 10024>10004*3 = 1:0 2 1
countdown | 10018>10014*4 10024>10008*2 10018>1001c*2 = 1:0 1 2";

#[test]
fn functions_that_a_transfer_left_move(rt: HostRuntime) -> Result<(), Fail> {
    check(rt.alloc(), COUNTDOWN, planned)
}

const OTHERS: &str = "\
recursion | 10004>10010 10010>10014*3 10010>10030 10020>10010*3 10030>10024*3 10030>10008 = 0:0; 1:0 1 2
recursion | 10010>10030*5 10030>10024*5 10020>10010 = 1:0 2 1
loops | 10014>10010*3 10010>10014*3 1000c>10004 = 0:0 3 4 2 1 5
loops | 10014>10018*2 10010>10014*2 10008>1000c*2 = 0:0 3 4 5 1 2
neighbours | 1000c>10000*3 10004>10008*2 = 0:0; 1:0
jumps | 10000>10008 10008>1000c*2 10014>10000*2 10018>10020*3 10020>10010 = 0:0 2 3 1 4; 1:0";

#[test]
fn blocks_and_functions_stand_as_they_run(rt: HostRuntime) -> Result<(), Fail> {
    check(rt.alloc(), OTHERS, planned)
}

const PASSED_OVER: &str = "\
zero word | 10000>10004 1000c>10000*4 = 0:0
countdown | 0>10010*9 10018>1001c = 1:0 1 2";

#[test]
fn what_no_function_can_use_is_passed_over(rt: HostRuntime) -> Result<(), Fail> {
    check(rt.alloc(), PASSED_OVER, planned)
}

/// Rows without a plan: no function moves.
const NONE: &str = "\
zero word | 1000c>10000*4
faults | 10000>10000 10010>10010 10014>10014 1001c>10020 10024>10000 10030>10034
countdown | 10028>10000 fffc>10014";

#[test]
fn no_function_moves_that_cannot_be_cut(rt: HostRuntime) -> Result<(), Fail> {
    check(rt.alloc(), NONE, planned)
}
