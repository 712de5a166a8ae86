//! What the words say.

ghost use Rattle.std.specs.Prelude.{◌≡◌, ◌≢◌, Some, None, IfOk, IfErr, map, string_bytes, option_map};
ghost use Rattle.std.specs.Option.{IfSome};
ghost use Rattle.image.specs.Picture.{IsPaged};
ghost use Rattle.clap.specs.Words.{first_value, found_of};
ghost use Rattle.command_words.specs.declared.fault.WordsFault.{WordsFault};
ghost use Rattle.play_words.specs.Words.{guest_by, IsCounted, words_by, words_of};

use crate::LARGEST_COUNT;
use crate::command::command;
use clap::ArgMatches;
use command_words::command::matches;
pub use command_words::fault::WordsFault;
use command_words::value::{is_used, number_within, region_in, ring_in};
use oc_base::range::Range;
use oc_base::text::Text;
use std::alloc::Global;

/// What is run.
#[derive(Debug, Drop)]
pub enum Guest {
    /// The program and the script in the files of these names.
    Files { program: Text, script: Text },
    /// A generated program with its own script, by its thousands of rounds.
    Generated { count: u32 },
}

/// What the words of `ocolos_play` say.
#[derive(Debug, Drop)]
pub struct Words {
    pub guest: Guest,
    /// Where moved code may lie, if the words say it.
    pub region: Option<Range>,
    /// How many transfers of each hart are kept.
    pub ring: u32,
    /// Whether the report is written.
    pub report: bool,
}

// Two names of files, or the number of a generated guest.
fn guest_by(
    alloc: Global,
    program: Option<&str>,
    script: Option<&str>,
    count: Option<&str>,
) -> Result<Guest, WordsFault>
    ensures ok { IfOk result (λ guest. guest_by (option_map (λ v. v.now) program.entry) (option_map (λ v. v.now) script.entry) (option_map (λ v. v.now) count.entry) ≡ Some guest) }
    ensures counted { IfOk result IsCounted }
    ensures err { IfErr result (λ e. e ≢ WordsFault.NoMemory → guest_by (option_map (λ v. v.now) program.entry) (option_map (λ v. v.now) script.entry) (option_map (λ v. v.now) count.entry) ≡ None) }
{
    match (program, script, count) {
        (Some(program), Some(script), None) => {
            let Ok(program) = Text::copy_of(alloc, program) else {
                return Err(WordsFault::NoMemory);
            };
            let Ok(script) = Text::copy_of(alloc, script) else {
                return Err(WordsFault::NoMemory);
            };
            Ok(Guest::Files { program, script })
        }
        (None, None, Some(count)) => match number_within(count, 1, LARGEST_COUNT) {
            Some(count) => Ok(Guest::Generated { count }),
            None => Err(WordsFault::Usage),
        },
        _ => Err(WordsFault::Usage),
    }
}

#[tactic(auto, unfolding(crate::specs::Words::words_by))]
fn words_by(alloc: Global, matches: &ArgMatches<'_>) -> Result<Words, WordsFault>
    ensures ok { IfOk result (λ words. words_by (first_value (found_of matches.now)) ≡ Some words) }
    ensures pages { IfOk result (λ words. IfSome words.region IsPaged) }
    ensures counted { IfOk result (λ words. IsCounted words.guest) }
    ensures err { IfErr result (λ e. e ≢ WordsFault.NoMemory → words_by (first_value (found_of matches.now)) ≡ None) }
{
    let Some(region) = region_in(matches.get_str("region")) else {
        return Err(WordsFault::Usage);
    };
    let Some(ring) = ring_in(matches.get_str("ring")) else {
        return Err(WordsFault::Usage);
    };
    let program = matches.get_str("program");
    let script = matches.get_str("script");
    let guest = match guest_by(alloc, program, script, matches.get_str("generate")) {
        Ok(guest) => guest,
        Err(fault) => return Err(fault),
    };
    Ok(Words {
        guest,
        region,
        ring,
        report: is_used(matches.get_str("report")),
    })
}

/// What the words after the program's name say: `PROGRAM SCRIPT` or `--generate N`, with `--region BASE:SIZE`, `--ring N` and `--report`.
pub fn read_words(alloc: Global, words: &[String]) -> Result<Words, WordsFault>
    ensures ok { IfOk result (λ said. words_of (map string_bytes words.now) ≡ Some said) }
    ensures pages { IfOk result (λ said. IfSome said.region IsPaged) }
    ensures counted { IfOk result (λ said. IsCounted said.guest) }
    ensures err { IfErr result (λ e. e ≢ WordsFault.NoMemory → words_of (map string_bytes words.now) ≡ None) }
{
    let Ok(command) = command(alloc) else {
        return Err(WordsFault::NoMemory);
    };
    let matches = matches(command, words)?;
    words_by(alloc, &matches)
}
