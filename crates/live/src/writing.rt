//! Writing what was decided.

ghost use Rattle.std.specs.Prelude.{◌≡◌, [], ◌∷◌, ◌++◌, Ok, Err, IfOk};
ghost use Rattle.top_call.specs.Call.{EndsWith};
ghost use Rattle.top_call.specs.Outside.{Outside, with_files, with_out, with_err};
ghost use Rattle.top_call.specs.Writing.{to_out, to_err, WroteAll};
ghost use Rattle.report.specs.Cause.{answer_by, err_of};
ghost use Rattle.live.specs.Ending.{record_writes, unlived, answer_of, unwritten_of, lived_ending};

use crate::life::{Life, RecordFile};
use crate::lived::Lived;
use oc_base::fault::{Failed, NoMemory};
use oc_base::files::Files;
use oc_base::items::Items;
use oc_base::sink::Sink;
use report::answer::{Answer, Ended, status};
use report::line::last_line;
use report::writing::{Delivery, finish, give_up};
use std::alloc::Global;
use top_call::writing::{write_err, write_file, write_out};

// The bytes of a run for the second output.
fn err_text(alloc: Global, delivery: &Delivery) -> Result<Items<u8>, NoMemory>
    ensures { IfOk result (λ text. text ≡ err_of delivery.now) }
{
    let last = last_line(alloc, &Ended::Ran(delivery.outcome))?;
    let mut text = Items::from_slice(alloc, delivery.err.as_slice())?;
    if delivery.shown {
        text.extend_from_slice(delivery.report.as_slice())?;
    }
    text.extend_from_slice(last.as_slice())?;
    Ok(text)
}

// Writes the record, if there is one.
fn write_record<F: Files>(files: &mut F, file: &Option<RecordFile>) -> Result<(), Failed>
    ensures { (rest : Outside) → WroteAll (record_writes file.now) (with_files F.Files files.old rest) (with_files F.Files files.new rest) result }
{
    let Some(file) = file else {
        return Ok(());
    };
    write_file(files, file.name.as_str(), file.text.as_slice())
}

// Writes what a run delivers, with this text for the second output.
fn write_life<F: Files, O: Sink, E: Sink>(
    life: &Life,
    text: &[u8],
    files: &mut F,
    out: &mut O,
    err: &mut E,
) -> Result<(), Failed>
    ensures { (rest : Outside) → WroteAll (to_out life.now.delivery.out ∷ (record_writes life.now.file ++ to_err text.now ∷ []))
        (with_files F.Files files.old (with_out O.Sink out.old (with_err E.Sink err.old rest)))
        (with_files F.Files files.new (with_out O.Sink out.new (with_err E.Sink err.new rest))) result }
{
    let Ok(()) = write_out(out, life.delivery.out.as_slice()) else {
        return Err(Failed);
    };
    let Ok(()) = write_record(files, &life.file) else {
        return Err(Failed);
    };
    write_err(err, text)
}

// An answer with no report.
fn unreported(alloc: Global, ended: Ended) -> Answer
    ensures { result ≡ answer_by ended [] }
{
    Answer {
        status: status(&ended),
        ended,
        report: Items::new(alloc),
    }
}

/// An answer without a run.
pub fn unlived(alloc: Global, answer: Answer) -> Lived
    ensures { result ≡ unlived answer }
{
    Lived {
        answer,
        log: Items::new(alloc),
        shares: 0,
    }
}

// The answer of a run that was written.
fn answer_of(life: Life) -> Lived
    ensures { result ≡ answer_of (Ok life) }
{
    let Life {
        delivery,
        log,
        shares,
        ..
    } = life;
    let ended = Ended::Ran(delivery.outcome);
    let answer = Answer {
        status: status(&ended),
        ended,
        report: delivery.report,
    };
    Lived {
        answer,
        log,
        shares,
    }
}

// The answer of a run that couldn't be written.
fn unwritten_of(alloc: Global, life: Life) -> Lived
    ensures { result ≡ unwritten_of (Ok life) }
{
    Lived {
        answer: unreported(alloc, Ended::WriteFault),
        log: life.log,
        shares: life.shares,
    }
}

// Writes and answers a run.
fn finish_life<F: Files, O: Sink, E: Sink>(
    alloc: Global,
    life: Life,
    files: &mut F,
    out: &mut O,
    err: &mut E,
) -> Lived
    ensures { (rest : Outside) → EndsWith lived_ending Ended.NoMemory (Ok life)
        (with_files F.Files files.old (with_out O.Sink out.old (with_err E.Sink err.old rest)))
        (with_files F.Files files.new (with_out O.Sink out.new (with_err E.Sink err.new rest))) result }
{
    let Ok(text) = err_text(alloc, &life.delivery) else {
        return unlived(alloc, give_up(alloc, err));
    };
    match write_life(&life, text.as_slice(), files, out, err) {
        Ok(()) => answer_of(life),
        Err(Failed) => unwritten_of(alloc, life),
    }
}

/// Writes and answers a decision: the first output, then the record, and then the second output, until one fails. Where there is no
/// memory for the text of it, that is what is answered.
pub fn finish_call<F: Files, O: Sink, E: Sink>(
    alloc: Global,
    decision: Result<Life, Ended>,
    files: &mut F,
    out: &mut O,
    err: &mut E,
) -> Lived
    ensures { (rest : Outside) → EndsWith lived_ending Ended.NoMemory decision
        (with_files F.Files files.old (with_out O.Sink out.old (with_err E.Sink err.old rest)))
        (with_files F.Files files.new (with_out O.Sink out.new (with_err E.Sink err.new rest))) result }
{
    match decision {
        Ok(life) => finish_life(alloc, life, files, out, err),
        Err(ended) => unlived(alloc, finish(alloc, Err(ended), out, err)),
    }
}
