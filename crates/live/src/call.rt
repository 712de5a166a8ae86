//! The call itself: decide from words, program and input, make all text, write it.

ghost use Rattle.std.specs.Prelude.{◌≡◌, IfSome, map, string_bytes};
ghost use Rattle.image.specs.Picture.{IsPaged};
ghost use Rattle.live_words.specs.Words.{AreInRange};
ghost use Rattle.board.specs.Boarded.{new_writer};
ghost use Rattle.top_call.specs.Call.{Decided};
ghost use Rattle.top_call.specs.Outside.{Outside, no_device, with_files, with_input, with_out, with_err};
ghost use Rattle.live.specs.Decision as decision;
ghost use Rattle.live.specs.Promise.{Promise};

use crate::PROGRAM_LIMIT;
use crate::life::Life;
use crate::lived::Lived;
use crate::run::run;
use crate::writing::finish_call;
use ahead::away::Away;
use command_words::fault::WordsFault;
use live_words::words::{Words, read_words};
use oc_base::files::Files;
use oc_base::pace::Pace;
use oc_base::sink::Sink;
use oc_base::source::Source;
use report::answer::Ended;
use std::alloc::Global;
use std::sync::Wait;
use std::thread::Threads;
use top_call::reading::{fetch, fetch_input};
use watch::watch::{Pass, Watch};

// What the program's file and the input ask for.
fn decide_words<F: Files, I: Source, G: Pace<Away> + Sync, R: Threads + Wait + Sync>(
    rt: &R,
    alloc: Global,
    said: &Words,
    files: &mut F,
    input: &mut I,
    pace: &G,
    watch: &Watch,
    writer: Pass,
) -> Result<Life, Ended>
    requires pages { IfSome said.now.region IsPaged }
    requires ranges { AreInRange said.now }
    requires writer { writer ≡ new_writer watch.now }
    ensures { (rest : Outside) → Decided decision.live (decision.reading_by said.now)
        (with_files F.Files files.old (with_input I.Source input.old rest)) (with_files F.Files files.new (with_input I.Source input.new rest)) result }
{
    let program = match fetch(alloc, files, said.program.as_str(), PROGRAM_LIMIT) {
        Ok(bytes) => bytes,
        Err(why) => return Err(Ended::from(why)),
    };
    let bytes = match fetch_input(alloc, input) {
        Ok(bytes) => bytes,
        Err(why) => return Err(Ended::from(why)),
    };
    run(
        rt,
        alloc,
        program.as_slice(),
        bytes.into_vec(),
        said,
        pace,
        watch,
        writer,
    )
}

// What the words, the files and the input ask for.
fn decide<F: Files, I: Source, G: Pace<Away> + Sync, R: Threads + Wait + Sync>(
    rt: &R,
    alloc: Global,
    words: &[String],
    files: &mut F,
    input: &mut I,
    pace: &G,
    watch: &Watch,
    writer: Pass,
) -> Result<Life, Ended>
    requires { writer ≡ new_writer watch.now }
    ensures { (rest : Outside) → Decided decision.live (decision.reading_of (map string_bytes words.now))
        (with_files F.Files files.old (with_input I.Source input.old rest)) (with_files F.Files files.new (with_input I.Source input.new rest)) result }
{
    let said = match read_words(alloc, words) {
        Ok(said) => said,
        Err(WordsFault::Usage) => return Err(Ended::Usage),
        Err(WordsFault::NoMemory) => return Err(Ended::NoMemory),
    };
    decide_words(rt, alloc, &said, files, input, pace, watch, writer)
}

/// Runs a program by threads and writes what the run delivers.
///
/// The words are the name of the program and options: how many workers serve the guest's harts, how many real steps after an attempt to
/// move code there is a snapshot, how many real steps end the run, a region for moved code, how many transfers of each hart are kept, a
/// file for the record, and whether the report is written. `files` gives the program and takes the record, `input` gives what the guest
/// reads, `out` takes what the guest writes to its first output, and `err` what it writes to its second, then the report, and then the
/// last line. `pace` may hold threads back, as tests do. The call waits for its own threads, and the promise holds if it returns.
///
/// The answer has the report of a run, written or not, and the log of the run, of which the record is the text: as a script for the same
/// program with the same input, region and ring it comes to the same end. On every refusal only the last line is written; to run out of
/// memory is such a refusal.
pub fn live<F: Files, I: Source, O: Sink, E: Sink, G: Pace<Away> + Sync, R: Threads + Wait + Sync>(
    rt: &R,
    alloc: Global,
    words: &[String],
    files: &mut F,
    input: &mut I,
    out: &mut O,
    err: &mut E,
    pace: &G,
) -> Lived
    ensures { Promise (map string_bytes words.now)
        (with_files F.Files files.old (with_input I.Source input.old (with_out O.Sink out.old (with_err E.Sink err.old no_device))))
        (with_files F.Files files.new (with_input I.Source input.new (with_out O.Sink out.new (with_err E.Sink err.new no_device)))) result }
{
    let Ok((watch, writer)) = Watch::new(alloc) else {
        return finish_call(alloc, Err(Ended::NoMemory), files, out, err);
    };
    live_shown(
        rt, alloc, words, files, input, out, err, pace, &watch, writer,
    )
}

/// Does what `live` does, and shows the counts of the run on a watch while it goes on: after each section under the lock those of the world so far. So
/// `pace`, or another thread, may look with a reader's pass. `writer` is the writer's pass of the watch, on which nothing was shown yet.
pub fn live_shown<
    F: Files,
    I: Source,
    O: Sink,
    E: Sink,
    G: Pace<Away> + Sync,
    R: Threads + Wait + Sync,
>(
    rt: &R,
    alloc: Global,
    words: &[String],
    files: &mut F,
    input: &mut I,
    out: &mut O,
    err: &mut E,
    pace: &G,
    watch: &Watch,
    writer: Pass,
) -> Lived
    requires { writer ≡ new_writer watch.now }
    ensures { Promise (map string_bytes words.now)
        (with_files F.Files files.old (with_input I.Source input.old (with_out O.Sink out.old (with_err E.Sink err.old no_device))))
        (with_files F.Files files.new (with_input I.Source input.new (with_out O.Sink out.new (with_err E.Sink err.new no_device)))) result }
{
    let decision = decide(rt, alloc, words, files, input, pace, watch, writer);
    finish_call(alloc, decision, files, out, err)
}
