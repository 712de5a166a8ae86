//! The call itself: decide from words, files and input, then write what is seen or the lines that tell of a refusal.

ghost use Rattle.std.specs.Prelude.{◌≡◌, ◌∷◌, map, Err, IfSome, string_bytes};
ghost use Rattle.image.specs.Picture.{IsPaged};
ghost use Rattle.look_words.specs.declared.words.Subject.{Subject};
ghost use Rattle.top_call.specs.Call.{Decided, Written, EndsWith};
ghost use Rattle.top_call.specs.Outside.{Outside, no_device, with_files, with_input, with_out, with_err};
ghost use Rattle.top_call.specs.Writing.{to_out, WroteAll};
ghost use Rattle.look.specs.Decision.{ending, answer_by, put, look, reading_by, reading_of};
ghost use Rattle.look.specs.Promise.{Promise};
ghost use Rattle.look.specs.declared.decision.Refusal.{Refusal};

use crate::answer::{Answer, Looked, status};
use crate::decision::{Refusal, Seen};
use crate::run::show_run;
use crate::show::show;
use crate::{PROGRAM_LIMIT, SCRIPT_LIMIT};
use look_words::words::{ScriptedRun, Subject, Words, WordsFault, read_words};
use oc_base::fault::Failed;
use oc_base::files::Files;
use oc_base::sink::Sink;
use oc_base::source::Source;
use oc_base::text::Text;
use placer::laws::one_plan;
use std::alloc::Global;
use top_call::reading::{fetch, fetch_input};
use top_call::writing::{write_err, write_file, write_out};

// What the program's file asks for.
fn decide_program<F: Files>(
    alloc: Global,
    said: &Words,
    function: &Option<Text>,
    files: &mut F,
) -> Result<Seen, Refusal>
    requires pages { IfSome said.now.region IsPaged }
    ensures { (rest : Outside) → Decided look (reading_by (Subject.Program function.now) said.now)
        (with_files F.Files files.old rest) (with_files F.Files files.new rest) result }
{
    let program = match fetch(alloc, files, said.program.as_str(), PROGRAM_LIMIT) {
        Ok(bytes) => bytes,
        Err(why) => return Err(Refusal::from(why)),
    };
    show(alloc, program.as_slice(), said.region, function)
}

// What the files of program and script and the input ask for.
fn decide_run<F: Files, I: Source>(
    alloc: Global,
    said: &Words,
    run: &ScriptedRun,
    files: &mut F,
    input: &mut I,
) -> Result<Seen, Refusal>
    requires pages { IfSome said.now.region IsPaged }
    ensures { (rest : Outside) → Decided look (reading_by (Subject.Run run.now) said.now)
        (with_files F.Files files.old (with_input I.Source input.old rest)) (with_files F.Files files.new (with_input I.Source input.new rest)) result }
{
    let program = match fetch(alloc, files, said.program.as_str(), PROGRAM_LIMIT) {
        Ok(bytes) => bytes,
        Err(why) => return Err(Refusal::from(why)),
    };
    let script = match fetch(alloc, files, run.script.as_str(), SCRIPT_LIMIT) {
        Ok(bytes) => bytes,
        Err(why) => return Err(Refusal::from(why)),
    };
    let bytes = match fetch_input(alloc, input) {
        Ok(bytes) => bytes,
        Err(why) => return Err(Refusal::from(why)),
    };
    show_run(
        alloc,
        program.as_slice(),
        said.region,
        script.as_slice(),
        bytes.into_vec(),
        run,
    )
}

// What the words, the files and the input ask for.
fn decide<F: Files, I: Source>(
    alloc: Global,
    words: &[String],
    files: &mut F,
    input: &mut I,
) -> Result<Seen, Refusal>
    ensures { (rest : Outside) → Decided look (reading_of (map string_bytes words.now))
        (with_files F.Files files.old (with_input I.Source input.old rest)) (with_files F.Files files.new (with_input I.Source input.new rest)) result }
{
    let said = match read_words(alloc, words) {
        Ok(said) => said,
        Err(WordsFault::Usage) => return Err(Refusal::Usage),
        Err(WordsFault::NoMemory) => return Err(Refusal::NoMemory),
    };
    match &said.subject {
        Subject::Program { function } => decide_program(alloc, &said, function, files),
        Subject::Run(run) => decide_run(alloc, &said, run, files, input),
    }
}

pub(crate) fn answered(what: Looked) -> Answer
    ensures { result ≡ answer_by what }
{
    Answer {
        status: status(what),
        what,
    }
}

/// Answers a look for which there is no room in memory. Its line is written, up to a fault.
pub fn give_up<E: Sink>(err: &mut E) -> Answer
    ensures { (rest : Outside) → Written ending (Err Refusal.NoMemory) (with_err E.Sink err.old rest) (with_err E.Sink err.new rest) result }
{
    let _ = write_err(err, b"ocolos_look: out of memory\n");
    answered(Looked::NoMemory)
}

// Writes the lines of a refusal, which are made before they are written.
fn refuse<E: Sink>(alloc: Global, refusal: &Refusal, err: &mut E) -> Answer
    ensures { (rest : Outside) → EndsWith ending Refusal.NoMemory (Err refusal.now) (with_err E.Sink err.old rest) (with_err E.Sink err.new rest) result }
{
    let Ok(lines) = refusal.lines(alloc) else {
        return give_up(err);
    };
    let Ok(()) = write_err(err, lines.as_slice()) else {
        return answered(Looked::WriteFault);
    };
    answered(refusal.what())
}

// Writes the text, and then the picture.
fn put_seen<F: Files, O: Sink>(seen: &Seen, files: &mut F, out: &mut O) -> Result<(), Failed>
    ensures { (rest : Outside) → WroteAll (to_out seen.now.text ∷ put seen.now.picture)
        (with_files F.Files files.old (with_out O.Sink out.old rest)) (with_files F.Files files.new (with_out O.Sink out.new rest)) result }
{
    let Ok(()) = write_out(out, seen.text.as_slice()) else {
        return Err(Failed);
    };
    let Some(picture) = &seen.picture else {
        return Ok(());
    };
    write_file(files, picture.name.as_str(), picture.bytes.as_slice())
}

// Writes what was decided.
fn deliver<F: Files, O: Sink, E: Sink>(
    alloc: Global,
    decision: Result<Seen, Refusal>,
    files: &mut F,
    out: &mut O,
    err: &mut E,
) -> Answer
    ensures { (rest : Outside) → EndsWith ending Refusal.NoMemory decision
        (with_files F.Files files.old (with_out O.Sink out.old (with_err E.Sink err.old rest)))
        (with_files F.Files files.new (with_out O.Sink out.new (with_err E.Sink err.new rest))) result }
{
    let seen = match decision {
        Ok(seen) => seen,
        Err(refusal) => return refuse(alloc, &refusal, err),
    };
    let Ok(()) = put_seen(&seen, files, out) else {
        return answered(Looked::WriteFault);
    };
    answered(Looked::Done)
}

/// Shows a program, one of its functions, or what a run under a script does to it.
///
/// The words are the name of the program's file and options: the region for moved code, as for a run; and a function by its number or
/// name, or the name of a script's file, with how many transfers of each hart are kept and the name of the file that takes a picture of
/// the moved code. `files` gives the files and takes the picture, `input` is what the guest of a run reads, `out` takes the text, and
/// `err` the lines that tell of a refusal. All is made before anything is written; the picture is written after the text.
pub fn look<F: Files, I: Source, O: Sink, E: Sink>(
    alloc: Global,
    words: &[String],
    files: &mut F,
    input: &mut I,
    out: &mut O,
    err: &mut E,
) -> Answer
    ensures { Promise (map string_bytes words.now)
        (with_files F.Files files.old (with_input I.Source input.old (with_out O.Sink out.old (with_err E.Sink err.old no_device))))
        (with_files F.Files files.new (with_input I.Source input.new (with_out O.Sink out.new (with_err E.Sink err.new no_device)))) result }
{
    one_plan();
    let decision = decide(alloc, words, files, input);
    deliver(alloc, decision, files, out, err)
}
