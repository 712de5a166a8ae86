//! What the words say.

ghost use Rattle.std.specs.Prelude.{◌≡◌, ◌≢◌, Some, None, IfOk, IfErr, map, string_bytes, option_map};
ghost use Rattle.std.specs.Option.{IfSome};
ghost use Rattle.image.specs.Picture.{IsPaged};
ghost use Rattle.clap.specs.Words.{first_value, found_of};
ghost use Rattle.command_words.specs.declared.fault.WordsFault.{WordsFault};
ghost use Rattle.live_words.specs.Words.{words_by, words_of, AreInRange};

use crate::command::command;
use crate::{MOST_STEPS, MOST_WORKERS, USUAL_EVERY, USUAL_LIMIT, USUAL_WORKERS};
use clap::ArgMatches;
use command_words::command::matches;
use command_words::fault::WordsFault;
use command_words::value::{is_used, number_in, region_in, ring_in};
use oc_base::fault::NoMemory;
use oc_base::range::Range;
use oc_base::text::Text;
use std::alloc::Global;

/// What the words of `ocolos` say.
#[derive(Debug, Drop)]
pub struct Words {
    /// The name of the program's file.
    pub program: Text,
    /// How many workers serve the harts.
    pub workers: u32,
    /// How many real steps after an attempt, or after the start, there is a snapshot.
    pub every: u64,
    /// How many real steps end the run.
    pub limit: u64,
    /// Where moved code may lie, if the words say it.
    pub region: Option<Range>,
    /// How many transfers of each hart are kept.
    pub ring: u32,
    /// The name of the file to which the log is written, if the words say it.
    pub log_name: Option<Text>,
    /// Whether the report is written.
    pub report: bool,
}

// A copy of the option's value.
fn copy_in(alloc: Global, value: Option<&str>) -> Result<Option<Text>, NoMemory>
    ensures { IfOk result (λ copy. copy ≡ option_map (λ v. v.now) value.entry) }
{
    let Some(text) = value else {
        return Ok(None);
    };
    Ok(Some(Text::copy_of(alloc, text)?))
}

#[tactic(auto, unfolding(crate::specs::Words::words_by))]
fn words_by(alloc: Global, matches: &ArgMatches<'_>) -> Result<Words, WordsFault>
    ensures ok { IfOk result (λ words. words_by (first_value (found_of matches.now)) ≡ Some words) }
    ensures pages { IfOk result (λ words. IfSome words.region IsPaged) }
    ensures ranges { IfOk result AreInRange }
    ensures err { IfErr result (λ e. e ≢ WordsFault.NoMemory → words_by (first_value (found_of matches.now)) ≡ None) }
{
    let Some(program) = matches.get_str("program") else {
        return Err(WordsFault::Usage);
    };
    let workers = matches.get_str("workers");
    let Some(workers) = number_in(workers, 1, MOST_WORKERS, USUAL_WORKERS) else {
        return Err(WordsFault::Usage);
    };
    let Some(every) = number_in(matches.get_str("every"), 1, MOST_STEPS, USUAL_EVERY) else {
        return Err(WordsFault::Usage);
    };
    let Some(limit) = number_in(matches.get_str("limit"), 1, MOST_STEPS, USUAL_LIMIT) else {
        return Err(WordsFault::Usage);
    };
    let Some(region) = region_in(matches.get_str("region")) else {
        return Err(WordsFault::Usage);
    };
    let Some(ring) = ring_in(matches.get_str("ring")) else {
        return Err(WordsFault::Usage);
    };
    let Ok(program) = Text::copy_of(alloc, program) else {
        return Err(WordsFault::NoMemory);
    };
    let Ok(log_name) = copy_in(alloc, matches.get_str("record")) else {
        return Err(WordsFault::NoMemory);
    };
    Ok(Words {
        program,
        workers,
        every: u64::from(every),
        limit: u64::from(limit),
        region,
        ring,
        log_name,
        report: is_used(matches.get_str("report")),
    })
}

/// What the words after the program's name say: `PROGRAM`, with `--workers W`, `--every N`, `--limit L`, `--region BASE:SIZE`,
/// `--ring N`, `--record FILE` and `--report`.
pub fn read_words(alloc: Global, words: &[String]) -> Result<Words, WordsFault>
    ensures ok { IfOk result (λ said. words_of (map string_bytes words.now) ≡ Some said) }
    ensures pages { IfOk result (λ said. IfSome said.region IsPaged) }
    ensures ranges { IfOk result AreInRange }
    ensures err { IfErr result (λ e. e ≢ WordsFault.NoMemory → words_of (map string_bytes words.now) ≡ None) }
{
    let Ok(command) = command(alloc) else {
        return Err(WordsFault::NoMemory);
    };
    let matches = matches(command, words)?;
    words_by(alloc, &matches)
}
