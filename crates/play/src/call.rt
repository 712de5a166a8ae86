//! The call itself: decide from words, files and input, make all text, write it.

ghost use Rattle.std.specs.Prelude.{◌≡◌, List, IfSome, map, string_bytes};
ghost use Rattle.image.specs.Picture.{IsPaged};
ghost use Rattle.play_words.specs.Words.{IsCounted};
ghost use Rattle.play_words.specs.declared.words.Guest.{Guest};
ghost use Rattle.top_call.specs.Call.{Decided};
ghost use Rattle.top_call.specs.Outside.{Outside, no_device, with_files, with_input, with_out, with_err};
ghost use Rattle.play.specs.Decision as decision;
ghost use Rattle.play.specs.Promise.{Promise};

use crate::generated::{guest_file, guest_script};
use crate::run::run;
use crate::{PROGRAM_LIMIT, SCRIPT_LIMIT};
use oc_base::files::Files;
use oc_base::sink::Sink;
use oc_base::source::Source;
use placer::laws::one_plan;
use play_words::words::{Guest, Words, WordsFault, read_words};
use report::answer::{Answer, Ended};
use report::writing::{Delivery, finish};
use std::alloc::Global;
use top_call::reading::{fetch, fetch_input};

// What the files of these names and the input ask for.
fn decide_files<F: Files, I: Source>(
    alloc: Global,
    said: &Words,
    program: &str,
    script: &str,
    files: &mut F,
    input: &mut I,
) -> Result<Delivery, Ended>
    requires pages { IfSome said.now.region IsPaged }
    ensures { (rest : Outside) → Decided decision.play (decision.reading_by (Guest.Files program.now script.now) said.now)
        (with_files F.Files files.old (with_input I.Source input.old rest)) (with_files F.Files files.new (with_input I.Source input.new rest)) result }
{
    let program = match fetch(alloc, files, program, PROGRAM_LIMIT) {
        Ok(bytes) => bytes,
        Err(why) => return Err(Ended::from(why)),
    };
    let script = match fetch(alloc, files, script, SCRIPT_LIMIT) {
        Ok(bytes) => bytes,
        Err(why) => return Err(Ended::from(why)),
    };
    let bytes = match fetch_input(alloc, input) {
        Ok(bytes) => bytes,
        Err(why) => return Err(Ended::from(why)),
    };
    run(
        alloc,
        program.as_slice(),
        script.as_slice(),
        bytes.into_vec(),
        said,
    )
}

// What a generated guest and the input ask for.
fn decide_guest<I: Source>(
    alloc: Global,
    said: &Words,
    count: u32,
    input: &mut I,
) -> Result<Delivery, Ended>
    requires pages { IfSome said.now.region IsPaged }
    requires counted { IsCounted (Guest.Generated count) }
    ensures { (rest : Outside) → Decided decision.play (decision.reading_by (Guest.Generated count) said.now)
        (with_input I.Source input.old rest) (with_input I.Source input.new rest) result }
{
    let bytes = match fetch_input(alloc, input) {
        Ok(bytes) => bytes,
        Err(why) => return Err(Ended::from(why)),
    };
    let Ok(program) = guest_file(alloc, count) else {
        return Err(Ended::NoMemory);
    };
    let Ok(script) = guest_script(alloc, count) else {
        return Err(Ended::NoMemory);
    };
    run(
        alloc,
        program.as_slice(),
        script.as_slice(),
        bytes.into_vec(),
        said,
    )
}

// What the words, the files and the input ask for.
fn decide<F: Files, I: Source>(
    alloc: Global,
    words: &[String],
    files: &mut F,
    input: &mut I,
) -> Result<Delivery, Ended>
    ensures { (rest : Outside) → Decided decision.play (decision.reading_of (map string_bytes words.now))
        (with_files F.Files files.old (with_input I.Source input.old rest)) (with_files F.Files files.new (with_input I.Source input.new rest)) result }
{
    let said = match read_words(alloc, words) {
        Ok(said) => said,
        Err(WordsFault::Usage) => return Err(Ended::Usage),
        Err(WordsFault::NoMemory) => return Err(Ended::NoMemory),
    };
    match &said.guest {
        Guest::Files { program, script } => {
            decide_files(
                alloc,
                &said,
                program.as_str(),
                script.as_str(),
                files,
                input,
            )
        }
        Guest::Generated { count } => decide_guest(alloc, &said, *count, input),
    }
}

/// Runs a program under a script and writes what the run delivers.
///
/// The words are the names of the program and of the script, or the size of a guest to generate, which has its own script, and
/// options: a region for moved code, how many transfers of each hart are kept, and whether the report is written. `files` gives both files, `input` what the guest reads, `out` takes what the guest writes to its first output, and `err`
/// what it writes to its second, then the report, and then the last line. The answer has the report of a run, written or not.
/// On every refusal only the last line is written; to run out of memory is such a refusal.
pub fn play<F: Files, I: Source, O: Sink, E: Sink>(
    alloc: Global,
    words: &[String],
    files: &mut F,
    input: &mut I,
    out: &mut O,
    err: &mut E,
) -> Answer
    ensures { Promise (map string_bytes words.now)
        (with_files F.Files files.old (with_input I.Source input.old (with_out O.Sink out.old (with_err E.Sink err.old no_device))))
        (with_files F.Files files.new (with_input I.Source input.new (with_out O.Sink out.new (with_err E.Sink err.new no_device)))) result }
{
    one_plan();
    let decision = decide(alloc, words, files, input);
    finish(alloc, decision, out, err)
}
