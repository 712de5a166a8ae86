//! The placer's thread.

ghost use Rattle.std.specs.Prelude.{◌≡◌};

use crate::desk::Shared;
use ahead::away::Away;
use board::board::Watched;
use image::picture::Image;
use oc_base::pace::Pace;
use placer::place::place;
use run_book::book::Run;
use std::marker::PhantomData;
use std::sync::Wait;
use std::thread::Threads;

/// The image of the run that `J` names, for its placer.
#[derive(Drop)]
pub struct Chart<J: Run> {
    image: Image,
    of: PhantomData<J>,
    ghost right: { image ≡ J.image },
}

impl<J: Run> Chart<J> {
    pub fn of(image: Image) -> Chart<J>
        requires { image ≡ J.image }
    {
        Chart {
            image,
            of: PhantomData,
        }
    }
}

/// Works the plan of the next job out. It is false once nothing is left to do. Out of memory, the job is dropped.
fn place_next<J: Watched, G: Pace<Away>, R: Threads + Wait + Sync>(
    rt: &R,
    shared: &Shared<'_, J>,
    pace: &G,
    chart: &Chart<J>,
) -> bool {
    let mut desk = shared.await_job(rt);
    if desk.board.book().is_done() {
        return false;
    }
    let Some(job) = desk.board.take_job(shared.alloc) else {
        return true;
    };
    drop(desk);
    let number = job.number;
    let Ok(placed) = place::<J, R>(rt, shared.alloc, &chart.image, job) else {
        return true;
    };
    shared.desk.lock(rt).board.put_plan(placed);
    pace.placed(number);
    true
}

/// Works plans out, until nothing is left to do.
pub fn place_all<J: Watched, G: Pace<Away>, R: Threads + Wait + Sync>(
    rt: &R,
    shared: &Shared<'_, J>,
    pace: &G,
    chart: &Chart<J>,
) {
    for _ in rt.forever() {
        if !place_next(rt, shared, pace, chart) {
            return;
        }
    }
}
