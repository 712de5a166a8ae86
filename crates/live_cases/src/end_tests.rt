//! How runs end. A row says what it shows, and has a guest, words with the input after a `<`, and what is wanted: the status, and both outputs with `/` for a newline. What is wanted was told by an independent implementation, or follows from
//! the guest alone.

use crate::calls::{Seen, is_told, program, run, told};
use cases::rows::split;
use oc_base::pace::NoPace;
use std::alloc::Global;
use std::sync::Wait;
use std::test::Fail;
use std::thread::Threads;

const ENDS: &str = "\
a line is printed: line | p = 0|hi/|ocolos: exit 0/
by one worker: line | p --workers 1 = 0|hi/|ocolos: exit 0/
by sixteen: line | p --workers 16 --every 1 = 0|hi/|ocolos: exit 0/
an input is read whole: echo | p < hello = 5|hello|ocolos: exit 5/
a loop comes to its limit: endless | p --limit 1000 = 117||ocolos: limit 1000/
and to another: endless | p --workers 3 --limit 1 --every 1 = 117||ocolos: limit 1/
a hart waits for a word that nobody wakes: waits | p --limit 1000 = 116||ocolos: stalled/
more harts than there can be: clones | p --workers 4 = 113||ocolos: harts full/
moved code counts down as before: countdown | p --every 1 = 28||ocolos: exit 28/
a return address is read as a number: added link | p = 119||ocolos: link use 1 at 0x10004/
a report is written: seven | p --workers 1 --report = 0||real 17 layout 0/snaps 0 attempts 0 done 0 refused 0 retired 0/sites 0 slots 0/hart 0 ended/ocolos: exit 0/
no region is outside: line | p --region 0x10000:4096 = 123||ocolos: program image 4 0x10000/
words are refused: line | p --workers 0 = 120||ocolos: usage/
and two programs: line | p q = 120||ocolos: usage/";

/// What a row comes to.
fn ended<R: Threads + Wait + Sync>(
    rt: &R,
    alloc: Global,
    guest: &str,
    case: &str,
) -> Result<Seen, Fail> {
    let (words, input) = case.split_once("< ").unwrap_or((case, ""));
    run(
        rt,
        alloc,
        program(alloc, guest)?,
        words,
        input,
        ("", ""),
        &NoPace,
    )
}

/// Fails at the first row that comes to something else than is wanted.
fn check<R: Threads + Wait + Sync>(rt: &R, alloc: Global, rows: &str) -> Result<(), Fail> {
    for row in rows.lines() {
        let (guest, case, wanted) = split(row);
        let seen = ended(rt, alloc, guest, case)?;
        fail_unless(alloc, row, &seen, wanted)?;
    }
    Ok(())
}

fn fail_unless(alloc: Global, row: &str, seen: &Seen, wanted: &str) -> Result<(), Fail> {
    if is_told(alloc, seen, wanted)? {
        return Ok(());
    }
    let text = told(alloc, seen)?;
    let text = String::from_utf8_lossy(alloc, &text)?;
    Err(Fail::new(format!(in alloc; "{row}: {text}")?))
}

#[test]
fn runs_end_as_their_guests_do(rt: HostRuntime) -> Result<(), Fail> {
    check(&rt, rt.alloc(), ENDS)
}

// Calls whose devices fail: which device, the number of its call that fails, and what is wanted.
const FAULTS: &str = "\
the program can't be read: files | 1 = 121||ocolos: cannot read p/
the first write fails: out | 1 = 122||
the record can't be written: files | 2 = 122|hi/|";

fn fault<R: Threads + Wait + Sync>(rt: &R, alloc: Global, row: &str) -> Result<(), Fail> {
    let (device, number, wanted) = split(row);
    let fails = if device == "files" {
        (number, "")
    } else {
        ("", number)
    };
    let program = program(alloc, "line")?;
    let seen = run(rt, alloc, program, "p --record record", "", fails, &NoPace)?;
    fail_unless(alloc, row, &seen, wanted)
}

#[test]
fn a_fault_ends_the_call_where_it_comes(rt: HostRuntime) -> Result<(), Fail> {
    for row in FAULTS.lines() {
        fault(&rt, rt.alloc(), row)?;
    }
    Ok(())
}
