//! Logs of what worlds were asked for, and what is due. A row says what it shows, and has a guest, commands, and what `log` and `due N`
//! among them tell, with `/` at the end of each line of a log. What is wanted was worked out by hand.

use cases::images::image_of;
use cases::orders::{number, plan_of};
use cases::rows::{expect, separate, split};
use recorder::marks::Due;
use recorder::recorder::Recorder;
use sched_log::facts::Refusal;
use sched_log::write::write_log;
use std::alloc::Global;
use std::test::Fail;
use world::world::World;

const LOGS: &str = "\
steps of a hart are one entry: countdown | step 0, step 0, log = steps 0 2/end/
real steps are another entry: countdown | step 0, real 0 2, step 0, log = steps 0 1/real 0 2/steps 0 1/end/
another hart begins an entry: countdown | real 0, real 1 2, real 0, log = real 0 1/real 1 2/real 0 1/end/
the end of a visit begins an entry: countdown | real 0, end visit, real 0 2, end visit, end visit, log = real 0 1/real 0 2/end/
a snapshot is an entry: countdown | real 0, snap, real 0, snap, snap, log = real 0 1/snap/real 0 1/snap/snap/end/
an attempt is an entry: countdown | real 0, replace 1:2 1 0, real 0, log = real 0 1/replace 1:2 1 0/real 0 1/end/
a refused attempt is an entry: zero word | replace 1:0, real 0, log = replace 1:0/real 0 1/end/
a retirement is an entry: countdown | retire, step 1, retire, log = retire/steps 1 1/retire/end/
steps of layouts are counted: countdown | replace 1:2 1 0, step 0 6, log = replace 1:2 1 0/steps 0 6/end/
after the end there is none: exit | real 0 5, step 0, snap, replace 0:0, retire, step 1, log = real 0 2/end/";

#[test]
fn a_log_has_what_was_asked_for(rt: HostRuntime) -> Result<(), Fail> {
    check(rt.alloc(), LOGS)
}

const DUES: &str = "\
a snapshot is due: endless | real 0 2, due 3, real 0, due 3, real 0, due 3 = nothing, snap, snap
an attempt is pending, and then overdue: endless | real 0 2, snap, due 3, real 0 2, due 3, real 0, due 3, real 0, due 3 = pending, pending, overdue, overdue
it is counted from the last attempt: endless | real 0 3, replace , real 0 2, due 3, real 0, due 3, real 0, due 3 = nothing, snap, snap
an attempt ends what is pending: endless | real 0 3, snap, real 0, replace , due 1, real 0, due 2, due 1 = nothing, nothing, snap
a refused attempt does too: zero word | real 0, snap, due 1, replace 1:0, due 1, real 0, due 1 = pending, nothing, snap
of two snapshots the last is meant: endless | real 0 2, snap, real 0 2, snap, real 0 2, due 3, due 2 = pending, overdue
a retirement is no attempt: endless | real 0 3, retire, due 3, snap, retire, due 1 = snap, pending
each 0 steps all is due: endless | due 0, snap, due 0 = snap, overdue
after the end no snapshot is made: exit | real 0 5, snap, due 2, due 3 = snap, nothing";

#[test]
fn snapshots_and_attempts_are_due(rt: HostRuntime) -> Result<(), Fail> {
    check(rt.alloc(), DUES)
}

fn replace(alloc: Global, recorder: &mut Recorder, plan: &str) -> Result<(), Fail> {
    let plan = plan_of(alloc, recorder.world().image(), plan)?;
    if let Err(Refusal::NoMemory) = recorder.replace(&plan) {
        return Err(Fail::new("out of memory"));
    }
    Ok(())
}

/// A hart and how many steps, one where none are given.
fn hart_of(text: &str) -> (u32, u32) {
    match text.split_once(' ') {
        Some((hart, steps)) => (number(hart), number(steps)),
        None => (number(text), 1),
    }
}

fn steps(recorder: &mut Recorder, text: &str) -> Result<(), Fail> {
    let (hart, steps) = hart_of(text);
    for _step in 0..steps {
        let Ok(_) = recorder.step(hart) else {
            return Err(Fail::new("out of memory"));
        };
    }
    Ok(())
}

fn real_steps(recorder: &mut Recorder, text: &str) -> Result<(), Fail> {
    let (hart, steps) = hart_of(text);
    for _step in 0..steps {
        let Ok(_) = recorder.real_step(hart) else {
            return Err(Fail::new("out of memory"));
        };
    }
    Ok(())
}

fn snap(recorder: &mut Recorder) -> Result<(), Fail> {
    let Ok(()) = recorder.snap() else {
        return Err(Fail::new("out of memory"));
    };
    Ok(())
}

fn retire(recorder: &mut Recorder) -> Result<(), Fail> {
    let Ok(_) = recorder.retire() else {
        return Err(Fail::new("out of memory"));
    };
    Ok(())
}

/// `step H`, `step H N`, `real H`, `real H N`, `snap`, `retire`, `end visit` or `replace PLAN`.
fn obey(alloc: Global, recorder: &mut Recorder, command: &str) -> Result<(), Fail> {
    if command == "snap" {
        return snap(recorder);
    }
    if command == "retire" {
        return retire(recorder);
    }
    let (word, rest) = command.split_once(' ').unwrap_or(("", ""));
    if word == "end" {
        recorder.end_visit();
        return Ok(());
    }
    if word == "step" {
        return steps(recorder, rest);
    }
    if word == "real" {
        return real_steps(recorder, rest);
    }
    replace(alloc, recorder, rest)
}

fn due_text(due: Due) -> &'static str {
    match due {
        Due::Nothing => "nothing",
        Due::Snap => "snap",
        Due::Pending => "pending",
        Due::Overdue => "overdue",
    }
}

/// Adds the log as a script, with `/` at the end of each line.
fn add_log(text: &mut String, alloc: Global, recorder: &Recorder) -> Result<(), Fail> {
    let script = write_log(alloc, recorder.log())?;
    for byte in script.as_slice() {
        text.push(if *byte == b'\n' { '/' } else { *byte as char })?;
    }
    Ok(())
}

/// Adds what `log` or `due N` tells, or obeys another command.
fn add(
    text: &mut String,
    alloc: Global,
    recorder: &mut Recorder,
    command: &str,
) -> Result<(), Fail> {
    if command == "log" {
        separate(text, ", ")?;
        return add_log(text, alloc, recorder);
    }
    let Some(every) = command.strip_prefix("due ") else {
        return obey(alloc, recorder, command);
    };
    separate(text, ", ")?;
    let due = recorder.due(u64::from(number(every)));
    Ok(text.push_str(due_text(due))?)
}

fn begun(alloc: Global, guest: &str) -> Result<Recorder, Fail> {
    let image = image_of(alloc, guest)?;
    let Ok(world) = World::start(alloc, image, Vec::new(alloc), 16) else {
        return Err(Fail::new("out of memory"));
    };
    let Ok(recorder) = Recorder::keep_log(alloc, world) else {
        return Err(Fail::new("out of memory"));
    };
    Ok(recorder)
}

fn told_by(alloc: Global, recorder: &mut Recorder, commands: &str) -> Result<String, Fail> {
    let mut text = String::new(alloc);
    for command in commands.split(", ") {
        add(&mut text, alloc, recorder, command)?;
    }
    Ok(text)
}

/// What is told of a guest under commands, which stand apart by `, `.
fn told(alloc: Global, guest: &str, commands: &str) -> Result<String, Fail> {
    let mut recorder = begun(alloc, guest)?;
    told_by(alloc, &mut recorder, commands)
}

fn check(alloc: Global, rows: &str) -> Result<(), Fail> {
    for row in rows.lines() {
        let (guest, commands, wanted) = split(row);
        let text = told(alloc, guest, commands)?;
        expect(alloc, row, &text, wanted)?;
    }
    Ok(())
}
