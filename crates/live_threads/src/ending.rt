//! The end of a run, once its threads have ended.

ghost use Rattle.std.specs.Prelude.{◌≡◌, ◌<◌, false, IfOk, IfSome};
ghost use Rattle.run_book.specs.Booked.{Ends};
ghost use Rattle.board.specs.Boarded.{IsShowing};
ghost use Rattle.live_threads.specs.Ran.{HasRun};

use crate::run::Ran;
use board::board::{Board, Watched};
use oc_base::fault::NoMemory;
use run_book::ended::Ended;
use run_book::hand::Hand;
use std::alloc::Global;
use std::sync::Wait;
use watch::watch::Pass;

/// A section of each worker.
fn sections<J: Watched, R: Wait>(
    rt: &R,
    alloc: Global,
    board: &mut Board<'_, J>,
    workers: u32,
    all: &mut Hand<J>,
)
    requires { 0 < all.old.parts }
    ensures { all.new.parts ≡ all.old.parts }
{
    for worker in 0..workers {
        board.section(rt, alloc, worker, all);
    }
}

/// Makes sections of each worker in turn until nothing is left to do, and says how the run has ended. After a whole run of threads nothing
/// is. Out of memory, it says nothing.
fn end<J: Watched, R: Wait>(
    rt: &R,
    alloc: Global,
    board: &mut Board<'_, J>,
    workers: u32,
    all: &mut Hand<J>,
) -> Option<Ended>
    requires { 0 < all.old.parts }
    ensures spent { IfSome result (λ e. board.new.book.spent ≡ false) }
    ensures ends { IfSome result (λ e. Ends J.terms.limit board.new.book.world e) }
    ensures parts { all.new.parts ≡ all.old.parts }
{
    for _ in rt.forever() {
        if board.book().is_spent() {
            return None;
        }
        if let Some(ended) = board.book().ended() {
            return Some(ended);
        }
        sections(rt, alloc, board, workers, all);
    }
    None
}

/// Ends a run, and closes its book. The writer's pass comes back, and its watch shows the whole run.
pub fn close<J: Watched, R: Wait>(
    rt: &R,
    alloc: Global,
    board: Board<'_, J>,
    workers: u32,
    all: Hand<J>,
) -> Result<(Ran, Pass), NoMemory>
    requires some { 0 < J.parts }
    requires parts { all.parts ≡ J.parts }
    ensures run { IfOk result (λ r. HasRun J.terms r.0) }
    ensures shown { IfOk result (λ r. IsShowing J.cell J.terms r.0.recorder r.1) }
{
    let mut board = board;
    let mut all = all;
    let Some(ended) = end(rt, alloc, &mut board, workers, &mut all) else {
        return Err(NoMemory);
    };
    board.kept();
    let strangers = board.book().strangers();
    let (book, writer) = board.into_parts();
    let recorder = book.close(&mut all);
    let ran = Ran {
        recorder,
        ended,
        shares: all.made(),
        strangers,
    };
    Ok((ran, writer))
}
