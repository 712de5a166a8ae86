//! Calls of `live` and `play` over devices in memory.

ghost use Rattle.std.specs.Prelude.{◌≡◌};
ghost use Rattle.board.specs.Boarded.{new_writer};

use ahead::away::Away;
use cases::guests::with_newlines;
use cases::images::file_of;
use guest_gen::call::make;
use live::call::{live, live_shown};
use live::lived::Lived;
use oc_base::memory::{MemFiles, MemSink, MemSource};
use oc_base::pace::Pace;
use play::call::play;
use sched_log::event::Event;
use std::alloc::Global;
use std::sync::Wait;
use std::test::Fail;
use std::thread::Threads;
use watch::watch::{Pass, Watch};

/// What a call came to.
#[derive(Drop)]
pub struct Seen {
    pub status: u8,
    pub out: Vec<u8>,
    pub err: Vec<u8>,
    /// The file `record`, if it is there.
    pub record: Vec<u8>,
    pub log: Vec<Event>,
    pub shares: u64,
}

/// The words of a text.
pub fn words_of(alloc: Global, text: &str) -> Result<Vec<String>, Fail> {
    let mut words = Vec::new(alloc);
    for word in text.split_whitespace() {
        words.push(String::from_str(alloc, word)?)?;
    }
    Ok(words)
}

/// The numbers of calls that fail, such as `0 2`.
fn numbers(alloc: Global, text: &str) -> Result<Vec<u64>, Fail> {
    let mut fails = Vec::new(alloc);
    for word in text.split_whitespace() {
        fails.push(word.parse().unwrap_or(0))?;
    }
    Ok(fails)
}

/// The executable of the guest that `ocolos_asm --generate N` makes, of `N` as text.
pub fn generated(alloc: Global, count: &str) -> Result<Vec<u8>, Fail> {
    let text = format!(in alloc; "--generate {count} p")?;
    let words = words_of(alloc, &text)?;
    let mut files = MemFiles::new(Vec::new(alloc), Vec::new(alloc));
    let mut out = MemSink::new(Vec::new(alloc), Vec::new(alloc));
    let mut err = MemSink::new(Vec::new(alloc), Vec::new(alloc));
    let answer = make(alloc, &words, &mut files, &mut out, &mut err);
    if answer.status != 0 {
        return Err(Fail::new("nothing is made"));
    }
    Ok(files.file("p").unwrap_or(&[]).to_vec(alloc)?)
}

/// The executable of a guest: `generated N`, or the name of one of `cases`.
pub fn program(alloc: Global, guest: &str) -> Result<Vec<u8>, Fail> {
    match guest.split_once("generated ") {
        Some((_, count)) => generated(alloc, count),
        None => file_of(alloc, guest),
    }
}

/// Files with this program as `p`.
fn files_with(alloc: Global, program: Vec<u8>, fails: &str) -> Result<MemFiles, Fail> {
    let mut files = Vec::new(alloc);
    files.push((String::from_str(alloc, "p")?, program))?;
    Ok(MemFiles::new(files, numbers(alloc, fails)?))
}

/// What a call is given.
#[derive(Drop)]
struct Given {
    words: Vec<String>,
    files: MemFiles,
    input: MemSource,
    out: MemSink,
    err: MemSink,
}

/// The program `p`, these words and this input. The calls of the files and of the first output that have these numbers fail.
fn prepared(
    alloc: Global,
    program: Vec<u8>,
    words: &str,
    input: &str,
    fails: (&str, &str),
) -> Result<Given, Fail> {
    Ok(Given {
        words: words_of(alloc, words)?,
        files: files_with(alloc, program, fails.0)?,
        input: MemSource::new(input.as_bytes().to_vec(alloc)?, Vec::new(alloc)),
        out: MemSink::new(Vec::new(alloc), numbers(alloc, fails.1)?),
        err: MemSink::new(Vec::new(alloc), Vec::new(alloc)),
    })
}

/// What it came to.
fn outcome(alloc: Global, lived: Lived, given: &Given) -> Result<Seen, Fail> {
    Ok(Seen {
        status: lived.answer.status,
        out: given.out.held().to_vec(alloc)?,
        err: given.err.held().to_vec(alloc)?,
        record: given.files.file("record").unwrap_or(&[]).to_vec(alloc)?,
        log: lived.log.into_vec(),
        shares: lived.shares,
    })
}

/// Runs the program `p` with these words and this input. The calls of the files and of the first output that have these numbers fail.
pub fn run<G: Pace<Away> + Sync, R: Threads + Wait + Sync>(
    rt: &R,
    alloc: Global,
    program: Vec<u8>,
    words: &str,
    input: &str,
    fails: (&str, &str),
    pace: &G,
) -> Result<Seen, Fail> {
    let mut on = prepared(alloc, program, words, input, fails)?;
    let lived = live(
        rt,
        alloc,
        &on.words,
        &mut on.files,
        &mut on.input,
        &mut on.out,
        &mut on.err,
        pace,
    );
    outcome(alloc, lived, &on)
}

/// Runs the program `p` with these words and no input, and shows its counts on a watch.
pub fn run_on<G: Pace<Away> + Sync, R: Threads + Wait + Sync>(
    rt: &R,
    alloc: Global,
    program: Vec<u8>,
    words: &str,
    pace: &G,
    watch: &Watch,
    writer: Pass,
) -> Result<Seen, Fail>
    requires { writer ≡ new_writer watch.now }
{
    let mut on = prepared(alloc, program, words, "", ("", ""))?;
    let lived = live_shown(
        rt,
        alloc,
        &on.words,
        &mut on.files,
        &mut on.input,
        &mut on.out,
        &mut on.err,
        pace,
        watch,
        writer,
    );
    outcome(alloc, lived, &on)
}

/// What `play` of a program and a script writes to its first output.
pub fn played(
    alloc: Global,
    program: Vec<u8>,
    script: Vec<u8>,
    more: &str,
) -> Result<Vec<u8>, Fail> {
    let text = format!(in alloc; "p script {more}")?;
    let words = words_of(alloc, &text)?;
    let mut files = Vec::new(alloc);
    files.push((String::from_str(alloc, "p")?, program))?;
    files.push((String::from_str(alloc, "script")?, script))?;
    let mut files = MemFiles::new(files, Vec::new(alloc));
    let mut input = MemSource::new(Vec::new(alloc), Vec::new(alloc));
    let mut out = MemSink::new(Vec::new(alloc), Vec::new(alloc));
    let mut err = MemSink::new(Vec::new(alloc), Vec::new(alloc));
    play(alloc, &words, &mut files, &mut input, &mut out, &mut err);
    Ok(out.held().to_vec(alloc)?)
}

/// Status, first output and second, as a row wants them: `0|hi/|ocolos: exit 0/`.
pub fn told(alloc: Global, seen: &Seen) -> Result<Vec<u8>, Fail> {
    let status = seen.status;
    let mut text = format!(in alloc; "{status}|")?.into_bytes();
    text.extend_from_slice(&seen.out)?;
    text.push(b'|')?;
    text.extend_from_slice(&seen.err)?;
    Ok(text)
}

/// Whether a call came to what a row wants, with `/` for a newline.
pub fn is_told(alloc: Global, seen: &Seen, wanted: &str) -> Result<bool, Fail> {
    Ok(told(alloc, seen)? == with_newlines(alloc, wanted)?)
}

/// Fails where something isn't so, and says what.
pub fn must(holds: bool, what: &'static str) -> Result<(), Fail> {
    if holds {
        return Ok(());
    }
    Err(Fail::new(what))
}
