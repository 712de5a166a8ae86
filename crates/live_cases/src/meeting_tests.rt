//! Threads that have to meet: workers are threads of their own, harts of two of them are out of the lock at once, and a plan is placed
//! beside the worker that goes on.

use crate::calls::{Seen, is_told, must, program, run};
use crate::meeting::{Meeting, Place};
use sched_log::event::Event;
use std::alloc::Global;
use std::sync::Wait;
use std::test::Fail;
use std::thread::Threads;

/// A run of the guest of one thousand rounds in which two threads meet.
fn met<R: Threads + Wait + Sync>(
    rt: &R,
    alloc: Global,
    words: &str,
    meeting: &Meeting,
) -> Result<Seen, Fail> {
    let program = program(alloc, "generated 1")?;
    let seen = run(rt, alloc, program, words, "", ("", ""), meeting)?;
    if !meeting.was() {
        return Err(Fail::new("they haven't met"));
    }
    Ok(seen)
}

#[test]
fn two_workers_are_two_threads(rt: HostRuntime) -> Result<(), Fail> {
    let alloc = rt.alloc();
    let meeting = Meeting::of(
        Place::Before {
            worker: 0,
            round: 0,
        },
        Place::Before {
            worker: 1,
            round: 0,
        },
    );
    let seen = met(&rt, alloc, "p --workers 2", &meeting)?;
    must(
        is_told(alloc, &seen, "0|18000/|ocolos: exit 0/")?,
        "another end",
    )
}

// Hart 0 makes the others. The worker of harts 0 and 2 waits, with steps of hart 2 made out of the lock, for the other to have made some too.
#[test]
fn harts_of_two_workers_are_out_of_the_lock_at_once(rt: HostRuntime) -> Result<(), Fail> {
    let alloc = rt.alloc();
    let meeting = Meeting::of(
        Place::Away { worker: 0, hart: 2 },
        Place::AnyAway { worker: 1 },
    );
    let words = "p --workers 2 --every 100000000";
    let seen = met(&rt, alloc, words, &meeting)?;
    must(
        is_told(alloc, &seen, "0|18000/|ocolos: exit 0/")?,
        "another end",
    )
}

/// A log begins with a visit of hart 0, and a snapshot whose plan is put in place next.
fn begins_with_an_attempt(log: &[Event]) -> bool {
    matches!(
        log,
        [
            Event::Real { h: 0, .. },
            Event::Snap,
            Event::Retire,
            Event::Replace,
            ..
        ]
    )
}

#[test]
fn a_plan_is_placed_by_a_thread_of_its_own(rt: HostRuntime) -> Result<(), Fail> {
    let alloc = rt.alloc();
    let meeting = Meeting::of(
        Place::Before {
            worker: 0,
            round: 1,
        },
        Place::Placed { job: 1 },
    );
    let words = "p --workers 1 --every 1 --limit 1000";
    let seen = met(&rt, alloc, words, &meeting)?;
    must(
        is_told(alloc, &seen, "117||ocolos: limit 1000/")?,
        "another end",
    )?;
    must(begins_with_an_attempt(&seen.log), "another beginning")
}

/// The most visits between a snapshot and its attempt.
fn longest_wait(log: &[Event]) -> u32 {
    let (mut longest, mut waited): (u32, u32) = (0, 0);
    for event in log {
        match event {
            Event::Snap => waited = 0,
            Event::Real { .. } => waited = waited.saturating_add(1),
            Event::Retire => longest = longest.max(waited),
            _ => {}
        }
    }
    longest
}

// The placer is held after its first plan until round 100, so a snapshot is overdue after 1000 steps, in visits of 64. If the placer comes
// late by itself, one is too.
#[test]
fn a_plan_that_comes_late_is_worked_out_by_a_worker(rt: HostRuntime) -> Result<(), Fail> {
    let alloc = rt.alloc();
    let meeting = Meeting::of(
        Place::AnyPlaced,
        Place::Before {
            worker: 0,
            round: 100,
        },
    );
    let words = "p --workers 1 --every 1000";
    let seen = met(&rt, alloc, words, &meeting)?;
    must(
        is_told(alloc, &seen, "0|18000/|ocolos: exit 0/")?,
        "another end",
    )?;
    must(longest_wait(&seen.log) >= 15, "no plan was late")
}
