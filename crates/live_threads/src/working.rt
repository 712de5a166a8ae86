//! The rounds of workers.

ghost use Rattle.std.specs.Prelude.{◌≡◌, ◌<◌};

use crate::desk::Shared;
use ahead::ahead::ahead;
use ahead::away::Away;
use board::board::Watched;
use oc_base::pace::Pace;
use run_book::hand::{Hand, Seat};
use run_book::running::Begun;
use std::sync::Wait;
use std::sync::atomic::{AtomicBool, Ordering};

/// The most real steps of a visit.
const VISIT_LIMIT: u32 = 64;

/// A visit of a worker from where its hart has left: its steps out of the lock, and then the section that takes it home. It is false once
/// nothing is left to do.
fn visit<J: Watched, G: Pace<Away>, R: Wait>(
    rt: &R,
    shared: &Shared<'_, J>,
    pace: &G,
    worker: u32,
    number: u64,
    away: Away,
    hand: &mut Hand<J>,
) -> bool
    requires { 0 < hand.old.parts }
    ensures { hand.new.parts ≡ hand.old.parts }
{
    let mut away = away;
    ahead(&mut away, VISIT_LIMIT);
    pace.away(worker, number, &away);
    let mut desk = shared.desk.lock(rt);
    desk.board.end(rt, shared.alloc, away, hand);
    let news = desk.news();
    drop(desk);
    shared.tell(news);
    !news.is_done
}

/// One round of a worker, which makes at most one visit. The thread waits until one of its workers can begin one. It is false once nothing
/// is left to do.
fn round<J: Watched, G: Pace<Away>, R: Wait>(
    rt: &R,
    shared: &Shared<'_, J>,
    pace: &G,
    workers: &[u32],
    worker: u32,
    number: u64,
    hand: &mut Hand<J>,
) -> bool
    requires { 0 < hand.old.parts }
    ensures { hand.new.parts ≡ hand.old.parts }
{
    pace.before(worker, number);
    let mut desk = shared.await_visit(rt, workers);
    let begun = desk.board.begin(rt, shared.alloc, worker);
    let news = desk.news();
    drop(desk);
    shared.tell(news);
    match begun {
        Begun::Left(away) => visit(rt, shared, pace, worker, number, away, hand),
        Begun::Held | Begun::Nothing => !news.is_done,
    }
}

/// The rounds of one number, of each of these workers in turn. It is false once nothing is left to do.
fn turn<J: Watched, G: Pace<Away>, R: Wait>(
    rt: &R,
    shared: &Shared<'_, J>,
    pace: &G,
    workers: &[u32],
    number: u64,
    hand: &mut Hand<J>,
) -> bool
    requires { 0 < hand.old.parts }
    ensures { hand.new.parts ≡ hand.old.parts }
{
    for worker in workers {
        if !round(rt, shared, pace, workers, *worker, number, hand) {
            return false;
        }
    }
    true
}

/// Makes the rounds of these workers, until nothing is left to do.
pub fn serve<J: Watched, G: Pace<Away>, R: Wait>(
    rt: &R,
    shared: &Shared<'_, J>,
    pace: &G,
    workers: &[u32],
    hand: &mut Hand<J>,
)
    requires { 0 < hand.old.parts }
    ensures { hand.new.parts ≡ hand.old.parts }
{
    let mut number = 0u64;
    for _ in rt.forever() {
        if !turn(rt, shared, pace, workers, number, hand) {
            return;
        }
        number = number.wrapping_add(1);
    }
}

/// A worker's thread. Where no thread could be started for it, it gives its seat back at once.
pub fn work<J: Watched, G: Pace<Away>, R: Wait>(
    rt: &R,
    shared: &Shared<'_, J>,
    pace: &G,
    worker: u32,
    is_refused: &AtomicBool,
    seat: Seat<J>,
) -> Seat<J> {
    if is_refused.load(Ordering::SeqCst) {
        return seat;
    }
    let Seat { mut hand } = seat;
    serve(rt, shared, pace, &[worker], &mut hand);
    Seat::of(hand)
}
