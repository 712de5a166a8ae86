//! The threads of a run.

ghost use Rattle.std.specs.Prelude.{◌≡◌, ◌<◌, ◌+◌, length, vec_len, IfOk};

use crate::desk::Shared;
use crate::placing::{Chart, place_all};
use crate::working::{serve, work};
use ahead::away::Away;
use board::board::Watched;
use oc_base::fault::NoMemory;
use oc_base::pace::Pace;
use run_book::hand::{Hand, Seat};
use std::alloc::Global;
use std::sync::Wait;
use std::sync::atomic::{AtomicBool, Ordering};
use std::thread;
use std::thread::{JoinHandle, Threads};

/// For each worker, that it hasn't been refused a thread.
fn none_refused(alloc: Global, workers: u32) -> Result<Vec<AtomicBool>, NoMemory>
    ensures { IfOk result (λ v. length v.items ≡ workers) }
{
    let mut refused = Vec::with_capacity(alloc, workers as usize)?;
    for _worker in 0..workers {
        refused.push(AtomicBool::new(false))?;
    }
    Ok(refused)
}

/// Waits for threads of workers, and takes their seats in.
fn gather<J: Watched, R: Threads + Wait>(
    rt: &R,
    shared: &Shared<'_, J>,
    children: Vec<JoinHandle<Seat<J>>>,
    all: &mut Hand<J>,
)
    ensures { all.new.parts ≡ all.old.parts + vec_len children }
{
    let mut children = children;
    while let Some(child) = children.pop() {
        let seat = child.join(rt);
        shared.desk.lock(rt).board.merge(all, seat.hand);
    }
}

/// Starts a placer and the workers but worker 0, whose rounds are the caller's, as are those of each worker for which no thread can be
/// started. It gives the ledger back once they have ended.
fn with_threads<J: Watched + Send + Sync, G: Pace<Away> + Sync, R: Threads + Wait + Sync>(
    rt: &R,
    shared: &Shared<'_, J>,
    pace: &G,
    chart: &Chart<J>,
    refused: &[AtomicBool],
    workers: u32,
    all: Hand<J>,
) -> Result<Hand<J>, NoMemory>
    requires parts { all.parts ≡ workers }
    requires some { 0 < workers }
    requires flags { length refused.now ≡ workers }
    ensures { IfOk result (λ h. h.parts ≡ workers) }
{
    thread::scope(
        thread::scope_env(),
        rt,
        move |scope| -> Result<Hand<J>, NoMemory>
            requires { (all.parts ≡ workers) × (0 < workers) × (length refused.now ≡ workers) }
            ensures { IfOk result (λ h. h.parts ≡ workers) }
        {
            let mut all = all;
            let mut own = Vec::with_capacity(shared.alloc, workers as usize)?;
            let mut children = Vec::with_capacity(shared.alloc, workers as usize)?;
            own.push_reserved(0);
            let _ = scope.spawn(move || place_all(rt, shared, pace, chart));
            for worker in 1..workers {
                let seat = all.seat();
                let is_refused = &refused[worker as usize];
                match scope.spawn(move || work(rt, shared, pace, worker, is_refused, seat)) {
                    Ok(child) => children.push_reserved(child),
                    Err(back) => {
                        is_refused.store(true, Ordering::SeqCst);
                        let seat = (back.value)();
                        shared.desk.lock(rt).board.merge(&mut all, seat.hand);
                        own.push_reserved(worker);
                    }
                }
            }
            serve(rt, shared, pace, own.as_slice(), &mut all);
            gather(rt, shared, children, &mut all);
            Ok(all)
        },
    )
}

/// Runs the workers and a placer over a book, until nothing is left to do.
pub fn run_crew<J: Watched + Send + Sync, G: Pace<Away> + Sync, R: Threads + Wait + Sync>(
    rt: &R,
    shared: &Shared<'_, J>,
    pace: &G,
    chart: &Chart<J>,
    workers: u32,
    all: Hand<J>,
) -> Result<Hand<J>, NoMemory>
    requires parts { all.parts ≡ workers }
    requires some { 0 < workers }
    ensures { IfOk result (λ h. h.parts ≡ workers) }
{
    let refused = none_refused(shared.alloc, workers)?;
    with_threads(rt, shared, pace, chart, refused.as_slice(), workers, all)
}
