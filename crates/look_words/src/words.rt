//! What the words say.

ghost use Rattle.std.specs.Prelude.{◌≡◌, ◌≢◌, Some, None, IfOk, IfErr, map, string_bytes, option_map};
ghost use Rattle.std.specs.Option.{IfSome};
ghost use Rattle.image.specs.Picture.{IsPaged};
ghost use Rattle.clap.specs.Words.{first_value, found_of};
ghost use Rattle.command_words.specs.declared.fault.WordsFault.{WordsFault};
ghost use Rattle.look_words.specs.Words.{subject_by, words_by, words_of};
ghost use Rattle.look_words.specs.declared.words.Subject.{Subject};

use crate::command::command;
use clap::ArgMatches;
use command_words::command::matches;
pub use command_words::fault::WordsFault;
use command_words::value::{region_in, ring_in};
use oc_base::range::Range;
use oc_base::text::Text;
use std::alloc::Global;

/// A run whose moved code is shown.
#[derive(Debug, Drop)]
pub struct ScriptedRun {
    /// The name of the script's file.
    pub script: Text,
    /// How many transfers of each hart are kept.
    pub ring: u32,
    /// The name of the file that takes the picture, if the words say it.
    pub picture: Option<Text>,
}

/// What is shown.
#[derive(Debug, Drop)]
pub enum Subject {
    /// The program, or its function of this number or name.
    Program { function: Option<Text> },
    /// What a run does to the program.
    Run(ScriptedRun),
}

/// What the words of `ocolos_look` say.
#[derive(Debug, Drop)]
pub struct Words {
    /// The name of the program's file.
    pub program: Text,
    /// Where moved code may lie, if the words say it.
    pub region: Option<Range>,
    pub subject: Subject,
}

// A copy of a value that may be missing.
fn copy_of(alloc: Global, value: Option<&str>) -> Result<Option<Text>, WordsFault>
    ensures ok { IfOk result (λ copy. copy ≡ option_map (λ v. v.now) value.entry) }
    ensures err { IfErr result (λ e. e ≡ WordsFault.NoMemory) }
{
    let Some(text) = value else {
        return Ok(None);
    };
    let Ok(copy) = Text::copy_of(alloc, text) else {
        return Err(WordsFault::NoMemory);
    };
    Ok(Some(copy))
}

// The program, or one of its functions.
fn program_by(alloc: Global, function: Option<&str>) -> Result<Subject, WordsFault>
    ensures ok { IfOk result (λ subject. subject ≡ Subject.Program (option_map (λ v. v.now) function.entry)) }
    ensures err { IfErr result (λ e. e ≡ WordsFault.NoMemory) }
{
    let Ok(function) = copy_of(alloc, function) else {
        return Err(WordsFault::NoMemory);
    };
    Ok(Subject::Program { function })
}

// A run of a script.
fn run_by(
    alloc: Global,
    script: &str,
    ring: Option<&str>,
    svg: Option<&str>,
) -> Result<Subject, WordsFault>
    ensures ok { IfOk result (λ subject. subject_by (Some script.now) None (option_map (λ v. v.now) ring.entry) (option_map (λ v. v.now) svg.entry) ≡ Some subject) }
    ensures err { IfErr result (λ e. e ≢ WordsFault.NoMemory → subject_by (Some script.now) None (option_map (λ v. v.now) ring.entry) (option_map (λ v. v.now) svg.entry) ≡ None) }
{
    let Some(ring) = ring_in(ring) else {
        return Err(WordsFault::Usage);
    };
    let Ok(script) = Text::copy_of(alloc, script) else {
        return Err(WordsFault::NoMemory);
    };
    let Ok(picture) = copy_of(alloc, svg) else {
        return Err(WordsFault::NoMemory);
    };
    Ok(Subject::Run(ScriptedRun {
        script,
        ring,
        picture,
    }))
}

// What is shown, where the options go together.
fn subject_by(
    alloc: Global,
    script: Option<&str>,
    function: Option<&str>,
    ring: Option<&str>,
    svg: Option<&str>,
) -> Result<Subject, WordsFault>
    ensures ok { IfOk result (λ subject. subject_by (option_map (λ v. v.now) script.entry) (option_map (λ v. v.now) function.entry) (option_map (λ v. v.now) ring.entry) (option_map (λ v. v.now) svg.entry) ≡ Some subject) }
    ensures err { IfErr result (λ e. e ≢ WordsFault.NoMemory → subject_by (option_map (λ v. v.now) script.entry) (option_map (λ v. v.now) function.entry) (option_map (λ v. v.now) ring.entry) (option_map (λ v. v.now) svg.entry) ≡ None) }
{
    match (script, function, ring, svg) {
        (None, function, None, None) => program_by(alloc, function),
        (Some(script), None, ring, svg) => run_by(alloc, script, ring, svg),
        _ => Err(WordsFault::Usage),
    }
}

#[tactic(auto, unfolding(crate::specs::Words::words_by))]
fn words_by(alloc: Global, matches: &ArgMatches<'_>) -> Result<Words, WordsFault>
    ensures ok { IfOk result (λ words. words_by (first_value (found_of matches.now)) ≡ Some words) }
    ensures pages { IfOk result (λ words. IfSome words.region IsPaged) }
    ensures err { IfErr result (λ e. e ≢ WordsFault.NoMemory → words_by (first_value (found_of matches.now)) ≡ None) }
{
    let Some(region) = region_in(matches.get_str("region")) else {
        return Err(WordsFault::Usage);
    };
    let Some(program) = matches.get_str("program") else {
        return Err(WordsFault::Usage);
    };
    let Ok(program) = Text::copy_of(alloc, program) else {
        return Err(WordsFault::NoMemory);
    };
    let script = matches.get_str("script");
    let function = matches.get_str("function");
    let ring = matches.get_str("ring");
    let subject = match subject_by(alloc, script, function, ring, matches.get_str("svg")) {
        Ok(subject) => subject,
        Err(fault) => return Err(fault),
    };
    Ok(Words {
        program,
        region,
        subject,
    })
}

/// What the words after the program's name say: `PROGRAM`, with `--region BASE:SIZE`, and with `--function NAME` or with
/// `--script SCRIPT`, `--ring N` and `--svg FILE`.
pub fn read_words(alloc: Global, words: &[String]) -> Result<Words, WordsFault>
    ensures ok { IfOk result (λ said. words_of (map string_bytes words.now) ≡ Some said) }
    ensures pages { IfOk result (λ said. IfSome said.region IsPaged) }
    ensures err { IfErr result (λ e. e ≢ WordsFault.NoMemory → words_of (map string_bytes words.now) ≡ None) }
{
    let Ok(command) = command(alloc) else {
        return Err(WordsFault::NoMemory);
    };
    let matches = matches(command, words)?;
    words_by(alloc, &matches)
}
