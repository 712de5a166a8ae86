//! Harts that leave the lock, run ahead and come home. A row says what it shows, and has a guest, commands, and what they tell. What is
//! wanted was worked out by hand.

use ahead::ahead::ahead;
use ahead::away::Away;
use ahead::home::Stranger;
use cases::images::image_of;
use cases::orders::{number, plan_of};
use cases::rows::{expect, separate, split};
use recorder::fault::AwayFault;
use recorder::recorder::Recorder;
use sched_log::facts::HartFact;
use sched_log::write::write_log;
use std::alloc::Global;
use std::test::Fail;
use stop_gate::fault::StillAway;
use world::world::World;

const VISITS: &str = "\
steps ahead are real steps: countdown | leave 0, ahead 5, home, place = left, 5, home, 5 at 65560
it stops before the call of the system: countdown | leave 0, ahead 64, home, place = left, 19, home, 19 at 65548
it goes on where it stopped: countdown | leave 0, ahead 5, ahead 3, home, place = left, 5, 3, home, 8 at 65572
they are one entry with those after them: countdown | leave 0, ahead 5, home, real 2, log = left, 5, home, real 0 7/end/
a hart that is away makes a stop wait: countdown | leave 0, stop, home, leave 0 = left, still away 0, home, held
a stop that was had is wanted no more: countdown | leave 0, stop, home, stop, leave 0 = left, still away 0, home, stopped, left
a hart is a stranger to changed code: countdown | leave 0, replace 1:2 1 0, home, log = left, stranger 1 0, replace 1:2 1 0/end/
and to steps that it didn't make: countdown | leave 0, real 1, home, log = left, stranger 1 0, real 0 1/end/
a stranger may leave again: countdown | leave 0, real 1, home, leave 0, ahead 2, home, place = left, stranger 1 0, left, 2, home, 3 at 65560
a hart that isn't made doesn't leave: countdown | leave 9, leave 64 = not live, not live
after the end none does: exit | real 5, leave 0 = not live";

#[test]
fn harts_leave_and_come_home(rt: HostRuntime) -> Result<(), Fail> {
    check(rt.alloc(), VISITS)
}

fn left(recorder: &mut Recorder, out: &mut Option<Away>, h: u32) -> &'static str {
    if recorder.is_away(h) {
        return "away";
    }
    match recorder.take_away(h) {
        Ok(away) => {
            *out = Some(away);
            "left"
        }
        Err(AwayFault::Held) => "held",
        Err(AwayFault::NotLive) => "not live",
        Err(AwayFault::NoMemory) => "out of memory",
    }
}

fn run_ahead(out: &mut Option<Away>, most: u32) -> u32 {
    match out {
        Some(away) => ahead(away, most),
        None => 0,
    }
}

fn come_home(
    text: &mut String,
    alloc: Global,
    recorder: &mut Recorder,
    out: &mut Option<Away>,
) -> Result<(), Fail> {
    let Some(away) = out.take() else {
        return Err(Fail::new("no hart is away"));
    };
    let Err(Stranger { kept, brought }) = recorder.home(away) else {
        return Ok(text.push_str("home")?);
    };
    Ok(text.push_str(&format!(in alloc; "stranger {kept} {brought}")?)?)
}

fn stop(text: &mut String, alloc: Global, recorder: &mut Recorder) -> Result<(), Fail> {
    let Err(StillAway { h }) = recorder.stopped() else {
        return Ok(text.push_str("stopped")?);
    };
    Ok(text.push_str(&format!(in alloc; "still away {h}")?)?)
}

fn pc_of(hart: &HartFact) -> u64 {
    match hart {
        HartFact::Live { pc, .. } => *pc,
        _ => 0,
    }
}

/// The real steps by now, and the pc of hart 0.
fn place(text: &mut String, alloc: Global, recorder: &Recorder) -> Result<(), Fail> {
    let Ok(facts) = recorder.world().facts(alloc) else {
        return Err(Fail::new("out of memory"));
    };
    let real = facts.real;
    for hart in facts.harts.as_slice() {
        let pc = pc_of(hart);
        return Ok(text.push_str(&format!(in alloc; "{real} at {pc}")?)?);
    }
    Ok(())
}

fn real_steps(recorder: &mut Recorder, steps: u32) -> Result<(), Fail> {
    for _step in 0..steps {
        let Ok(_) = recorder.real_step(0) else {
            return Err(Fail::new("out of memory"));
        };
    }
    Ok(())
}

fn replace(alloc: Global, recorder: &mut Recorder, plan: &str) -> Result<(), Fail> {
    let plan = plan_of(alloc, recorder.world().image(), plan)?;
    let Ok(()) = recorder.replace(&plan) else {
        return Err(Fail::new("refused"));
    };
    Ok(())
}

/// The log as a script, with `/` at the end of each line.
fn add_log(text: &mut String, alloc: Global, recorder: &Recorder) -> Result<(), Fail> {
    let script = write_log(alloc, recorder.log())?;
    for byte in script.as_slice() {
        text.push(if *byte == b'\n' { '/' } else { *byte as char })?;
    }
    Ok(())
}

/// `real N` or `replace PLAN`, which tell nothing.
fn obey(alloc: Global, recorder: &mut Recorder, word: &str, rest: &str) -> Result<bool, Fail> {
    if word == "real" {
        real_steps(recorder, number(rest))?;
        return Ok(true);
    }
    if word == "replace" {
        replace(alloc, recorder, rest)?;
        return Ok(true);
    }
    Ok(false)
}

/// `leave H`, `ahead N`, `home`, `stop`, `place` and `log`, which tell something.
fn tell(
    text: &mut String,
    alloc: Global,
    recorder: &mut Recorder,
    out: &mut Option<Away>,
    command: &str,
) -> Result<(), Fail> {
    let (word, rest) = command.split_once(' ').unwrap_or((command, ""));
    if obey(alloc, recorder, word, rest)? {
        return Ok(());
    }
    separate(text, ", ")?;
    if word == "leave" {
        return Ok(text.push_str(left(recorder, out, number(rest)))?);
    }
    if word == "ahead" {
        let made = run_ahead(out, number(rest));
        return Ok(text.push_str(&format!(in alloc; "{made}")?)?);
    }
    if word == "home" {
        return come_home(text, alloc, recorder, out);
    }
    if word == "stop" {
        return stop(text, alloc, recorder);
    }
    if word == "place" {
        return place(text, alloc, recorder);
    }
    add_log(text, alloc, recorder)
}

fn tell_all(
    text: &mut String,
    alloc: Global,
    recorder: &mut Recorder,
    out: &mut Option<Away>,
    commands: &str,
) -> Result<(), Fail> {
    for command in commands.split(", ") {
        tell(text, alloc, recorder, out, command)?;
    }
    Ok(())
}

fn begun(alloc: Global, guest: &str) -> Result<Recorder, Fail> {
    let image = image_of(alloc, guest)?;
    let Ok(world) = World::start(alloc, image, Vec::new(alloc), 16) else {
        return Err(Fail::new("out of memory"));
    };
    let Ok(recorder) = Recorder::keep_log(alloc, world) else {
        return Err(Fail::new("out of memory"));
    };
    Ok(recorder)
}

fn told(text: &mut String, alloc: Global, guest: &str, commands: &str) -> Result<(), Fail> {
    let mut recorder = begun(alloc, guest)?;
    let mut out = None;
    tell_all(text, alloc, &mut recorder, &mut out, commands)
}

fn check(alloc: Global, rows: &str) -> Result<(), Fail> {
    for row in rows.lines() {
        let (guest, commands, wanted) = split(row);
        let mut text = String::new(alloc);
        told(&mut text, alloc, guest, commands)?;
        expect(alloc, row, &text, wanted)?;
    }
    Ok(())
}
