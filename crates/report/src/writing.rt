//! What a call writes, and writing it.

ghost use Rattle.std.specs.Prelude.{◌≡◌, ◌≢◌, ◌++◌, [], ◌∷◌, Err, IfOk, if◌then◌else◌};
ghost use Rattle.top_call.specs.Call.{Written, EndsWith};
ghost use Rattle.top_call.specs.Outside.{Outside, with_out, with_err};
ghost use Rattle.top_call.specs.Writing.{to_out, to_err, WroteAll};
ghost use Rattle.report.specs.Cause.{answer_by, run_ending, writing_of, Answers};

use crate::answer::{Answer, Ended, status};
use crate::line::last_line;
use machine::outcome::Outcome;
use oc_base::fault::{Failed, NoMemory};
use oc_base::items::Items;
use oc_base::sink::Sink;
use std::alloc::Global;
use top_call::writing::{write_err, write_out};

/// How a run ended, and what it wrote: its first output, and its second with a newline at its end; its report, and whether that
/// is to be shown.
#[derive(Debug, Drop)]
pub struct Delivery {
    pub outcome: Outcome,
    pub out: Items<u8>,
    pub err: Items<u8>,
    pub report: Items<u8>,
    pub shown: bool,
}

/// What is to be written.
#[derive(Debug, Drop)]
pub enum Writing {
    /// The outputs of a run, the second with its report and the last line; and the report.
    Run {
        outcome: Outcome,
        out: Items<u8>,
        err: Items<u8>,
        report: Items<u8>,
    },
    /// The line of a refusal.
    Refusal {
        ended: Ended,
        line: Items<u8>,
    },
}

// The second output, the report where it is to be shown, and the last line.
fn closing(alloc: Global, err: &[u8], shown: &[u8], last: &[u8]) -> Result<Items<u8>, NoMemory>
    ensures { IfOk result (λ all. all ≡ (err.now ++ shown.now) ++ last.now) }
{
    let mut all = Items::new(alloc);
    all.extend_from_slice(err)?;
    all.extend_from_slice(shown)?;
    all.extend_from_slice(last)?;
    Ok(all)
}

// The part of a report that is shown.
fn shown(report: &[u8], is_shown: bool) -> &[u8]
    ensures { result.now ≡ (if is_shown then report.now else []) }
{
    if is_shown { report } else { &[] }
}

// All text of a decision, made before the first byte is written. A decision that was never made, when out of memory, has no text.
fn prepare(alloc: Global, decision: Result<Delivery, Ended>) -> Result<Writing, NoMemory>
    ensures is { IfOk result (λ writing. writing ≡ writing_of decision) }
    ensures memory { IfOk result (λ _. decision ≢ Err Ended.NoMemory) }
{
    match decision {
        Ok(delivery) => {
            let Delivery {
                outcome,
                out,
                err,
                report,
                shown: is_shown,
            } = delivery;
            let last = last_line(alloc, &Ended::Ran(outcome))?;
            let shown = shown(report.as_slice(), is_shown);
            let err = closing(alloc, err.as_slice(), shown, last.as_slice())?;
            Ok(Writing::Run {
                outcome,
                out,
                err,
                report,
            })
        }
        Err(Ended::NoMemory) => Err(NoMemory),
        Err(ended) => {
            let line = last_line(alloc, &ended)?;
            Ok(Writing::Refusal { ended, line })
        }
    }
}

// An answer without a run.
fn refused(alloc: Global, ended: Ended) -> Answer
    ensures { result ≡ answer_by ended [] }
{
    Answer {
        status: status(&ended),
        ended,
        report: Items::new(alloc),
    }
}

// Writes the outputs of a run.
fn write_run<O: Sink, E: Sink>(
    out: &mut O,
    err: &mut E,
    first: &[u8],
    second: &[u8],
) -> Result<(), Failed>
    ensures { (rest : Outside) → WroteAll (to_out first.now ∷ to_err second.now ∷ [])
        (with_out O.Sink out.old (with_err E.Sink err.old rest)) (with_out O.Sink out.new (with_err E.Sink err.new rest)) result }
{
    let Ok(()) = write_out(out, first) else {
        return Err(Failed);
    };
    write_err(err, second)
}

// Writes the line of a refusal.
fn refuse<E: Sink>(alloc: Global, ended: Ended, line: &[u8], err: &mut E) -> Answer
    ensures { (rest : Outside) → Answers (Writing.Refusal ended line.now) (with_err E.Sink err.old rest) (with_err E.Sink err.new rest) result }
{
    let Ok(()) = write_err(err, line) else {
        return refused(alloc, Ended::WriteFault);
    };
    refused(alloc, ended)
}

// Writes until a device fails.
fn deliver<O: Sink, E: Sink>(alloc: Global, writing: Writing, out: &mut O, err: &mut E) -> Answer
    ensures { (rest : Outside) → Answers writing
        (with_out O.Sink out.old (with_err E.Sink err.old rest)) (with_out O.Sink out.new (with_err E.Sink err.new rest)) result }
{
    match writing {
        Writing::Run {
            outcome,
            out: first,
            err: second,
            report,
        } => {
            let Ok(()) = write_run(out, err, first.as_slice(), second.as_slice()) else {
                return refused(alloc, Ended::WriteFault);
            };
            let ended = Ended::Ran(outcome);
            Answer {
                status: status(&ended),
                ended,
                report,
            }
        }
        Writing::Refusal { ended, line } => refuse(alloc, ended, line.as_slice(), err),
    }
}

/// The answer of a call that ran out of memory. Its last line is written, up to a fault.
pub fn give_up<E: Sink>(alloc: Global, err: &mut E) -> Answer
    ensures { (rest : Outside) → Written run_ending (Err Ended.NoMemory) (with_err E.Sink err.old rest) (with_err E.Sink err.new rest) result }
{
    let _ = write_err(err, b"ocolos: out of memory\n");
    refused(alloc, Ended::NoMemory)
}

/// Writes and answers a decision: the first output and then the second, until one fails. Where there is no memory for the text of it,
/// that is what is answered.
pub fn finish<O: Sink, E: Sink>(
    alloc: Global,
    decision: Result<Delivery, Ended>,
    out: &mut O,
    err: &mut E,
) -> Answer
    ensures { (rest : Outside) → EndsWith run_ending Ended.NoMemory decision
        (with_out O.Sink out.old (with_err E.Sink err.old rest)) (with_out O.Sink out.new (with_err E.Sink err.new rest)) result }
{
    let Ok(writing) = prepare(alloc, decision) else {
        return give_up(alloc, err);
    };
    deliver(alloc, writing, out, err)
}
