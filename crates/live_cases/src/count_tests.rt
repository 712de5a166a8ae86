//! Counts of a run on a watch: after it, and while it goes on.

use crate::calls::{Seen, must, program, run_on};
use crate::looking::{Looking, Reader};
use oc_base::pace::NoPace;
use std::alloc::Global;
use std::test::Fail;
use watch::watch::{Counts, Watch};

/// The number that follows a word of a report.
fn number_after(text: &str, word: &str) -> Option<u64> {
    let (_, rest) = text.split_once(word)?;
    rest.split_whitespace().next()?.parse().ok()
}

/// The counts that a report tells.
fn reported(alloc: Global, seen: &Seen) -> Result<Counts, Fail> {
    let text = String::from_utf8_lossy(alloc, &seen.err)?;
    Ok(Counts {
        real: number_after(&text, "real ").unwrap_or(0),
        done: number_after(&text, "done ").unwrap_or(0),
        retired: number_after(&text, "retired ").unwrap_or(0),
    })
}

// By the guest's own text it makes 17 steps.
#[test]
fn the_last_counts_are_those_of_the_whole_run(rt: HostRuntime) -> Result<(), Fail> {
    let alloc = rt.alloc();
    let (watch, mut writer) = Watch::new(alloc)?;
    let mut reader = watch.split(&rt, &mut writer);
    let guest = program(alloc, "seven")?;
    run_on(&rt, alloc, guest, "p --workers 1", &NoPace, &watch, writer)?;
    let wanted = Counts {
        real: 17,
        done: 0,
        retired: 0,
    };
    must(watch.look(&rt, &mut reader) == wanted, "other counts")
}

#[test]
fn counts_of_moved_code_are_those_of_the_report(rt: HostRuntime) -> Result<(), Fail> {
    let alloc = rt.alloc();
    let (watch, mut writer) = Watch::new(alloc)?;
    let mut reader = watch.split(&rt, &mut writer);
    let guest = program(alloc, "generated 1")?;
    let words = "p --workers 2 --every 700 --report";
    let seen = run_on(&rt, alloc, guest, words, &NoPace, &watch, writer)?;
    let counts = watch.look(&rt, &mut reader);
    must(counts.done > 1, "no code was moved")?;
    must(counts == reported(alloc, &seen)?, "other counts")
}

#[test]
fn counts_are_looked_at_while_a_run_goes_on(rt: HostRuntime) -> Result<(), Fail> {
    let alloc = rt.alloc();
    let (watch, mut writer) = Watch::new(alloc)?;
    let pass = watch.split(&rt, &mut writer);
    let looking = Looking::of(&rt, Reader::of(&watch, pass));
    let guest = program(alloc, "generated 1")?;
    let words = "p --workers 2 --every 700 --report";
    let seen = run_on(&rt, alloc, guest, words, &looking, &watch, writer)?;
    let mut reader = looking.reader.lock(&rt);
    must(reader.changes > 1, "no look came between")?;
    reader.look(&rt);
    must(reader.rises, "counts went back")?;
    must(reader.last == reported(alloc, &seen)?, "other counts")
}
