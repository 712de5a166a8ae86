//! The plan of a job, worked out by several threads.

ghost use Rattle.std.specs.Prelude.{◌≡◌, IfOk};

use crate::laws::fit_plans;
use crate::order::order;
use crate::placed::{Job, Named, Placed};
use crate::plan::plan_with;
use crate::spread::parts_by_threads;
use blocks::index::FuncIndex;
use image::picture::Image;
use oc_base::fault::NoMemory;
use std::alloc::Global;
use std::thread::Threads;

/// Works out the plan of a job, which is the one of `plan_of`, with up to eight threads for the chains of the functions. It
/// waits for these alone, and does the work of one that can't be started itself.
pub fn place<J: Named, R: Threads + Sync>(
    rt: &R,
    alloc: Global,
    image: &Image,
    job: Job,
) -> Result<Placed<J>, NoMemory>
    requires { image.now ≡ J.image }
    ensures { IfOk result (λ placed. placed.job ≡ job) }
{
    fit_plans();
    let index = FuncIndex::new(alloc, image)?;
    let order = order(alloc, &index, &job.profile)?;
    let parts = parts_by_threads(rt, alloc, &index, &job.profile, &order)?;
    let plan = plan_with(alloc, image, &parts)?;
    Ok(Placed::new(job, plan))
}
