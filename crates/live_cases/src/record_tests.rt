//! Records of runs, played again.

use crate::calls::{is_told, must, played, program, run};
use cases::guests::with_newlines;
use cases::rows::split;
use oc_base::pace::NoPace;
use sched_log::event::Event;
use std::alloc::Global;
use std::sync::Wait;
use std::test::Fail;
use std::thread::Threads;

// Guests whose output doesn't depend on what their threads do: words, and what is printed.
const WAYS: &str = "\
by one worker: generated 1 | --workers 1 --every 5000 = 18000
snapshots in each few visits: generated 1 | --workers 2 --every 700 = 18000
a short ring: generated 1 | --workers 4 --every 5000 --ring 64 = 18000
more workers than harts: generated 1 | --workers 8 --every 100000 = 18000
a longer run: generated 7 | --workers 4 --every 5000 = 126000";

/// The real steps of a log.
fn reals(log: &[Event]) -> u64 {
    let mut sum: u64 = 0;
    for event in log {
        if let Event::Real { n, .. } = event {
            sum = sum.saturating_add(*n);
        }
    }
    sum
}

fn check<R: Threads + Wait + Sync>(rt: &R, alloc: Global, row: &str) -> Result<(), Fail> {
    let (guest, case, printed) = split(row);
    let words = format!(in alloc; "p --record record {case}")?;
    let elf = program(alloc, guest)?;
    let again = elf.to_vec(alloc)?;
    let seen = run(rt, alloc, elf, &words, "", ("", ""), &NoPace)?;
    let wanted = format!(in alloc; "0|{printed}/|ocolos: exit 0/")?;
    if !is_told(alloc, &seen, &wanted)? || seen.shares != reals(&seen.log) {
        return Err(Fail::new(format!(in alloc; "{row}: another end")?));
    }
    let more = if case.ends_with("--ring 64") {
        "--ring 64"
    } else {
        ""
    };
    if played(alloc, again, seen.record, more)? != seen.out {
        return Err(Fail::new(format!(in alloc; "{row}: another output")?));
    }
    Ok(())
}

#[test]
fn a_record_plays_again_whoever_serves_the_harts(rt: HostRuntime) -> Result<(), Fail> {
    for row in WAYS.lines() {
        check(&rt, rt.alloc(), row)?;
    }
    Ok(())
}

#[test]
fn a_record_is_the_log_line_by_line(rt: HostRuntime) -> Result<(), Fail> {
    let alloc = rt.alloc();
    let guest = program(alloc, "line")?;
    let seen = run(
        &rt,
        alloc,
        guest,
        "p --record record",
        "",
        ("", ""),
        &NoPace,
    )?;
    must(
        seen.record == with_newlines(alloc, "real 0 8/end/")?,
        "another record",
    )
}
