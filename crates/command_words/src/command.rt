//! Simple commands, and how words are read as one.

ghost use Rattle.std.specs.Prelude.{◌≡◌, ◌≢◌, IfOk, IfErr, OnOk, true, false, map, string_bytes};
ghost use Rattle.clap.specs.Words.{app_of, new_app, with_rule, matches_of, rows_of, found_of, is_simple_and_free};
ghost use Rattle.command_words.specs.Commands.{positional, option, flag, unnamed, is_taken};
ghost use Rattle.command_words.specs.declared.fault.WordsFault.{WordsFault};

use crate::fault::WordsFault;
use clap::error::ErrorKind;
use clap::{Arg, ArgAction, ArgMatches, Command};
use oc_base::fault::NoMemory;
use std::alloc::Global;

/// A command whose words are those after its name.
pub fn unnamed<'a>(alloc: Global, name: &'a str) -> Command<'a>
    ensures { app_of result ≡ unnamed (new_app name.entry.now) }
{
    Command::new(alloc, name).no_binary_name(true)
}

/// The command with one more positional.
pub fn with_positional<'a>(
    alloc: Global,
    command: Command<'a>,
    name: &'a str,
) -> Result<Command<'a>, NoMemory>
    ensures { IfOk result (λ c. app_of c ≡ with_rule (app_of command.entry) (positional name.now)) }
{
    let arg = Arg::new(alloc, name);
    Ok(command.arg(arg)?)
}

/// The command with one more option, `--name`, that takes a value.
pub fn with_option<'a>(
    alloc: Global,
    command: Command<'a>,
    name: &'a str,
) -> Result<Command<'a>, NoMemory>
    ensures { IfOk result (λ c. app_of c ≡ with_rule (app_of command.entry) (option name.now)) }
{
    let arg = Arg::new(alloc, name).long(name);
    Ok(command.arg(arg)?)
}

/// The command with one more option, `--name`, that takes no value.
pub fn with_flag<'a>(
    alloc: Global,
    command: Command<'a>,
    name: &'a str,
) -> Result<Command<'a>, NoMemory>
    ensures { IfOk result (λ c. app_of c ≡ with_rule (app_of command.entry) (flag name.now)) }
{
    let arg = Arg::new(alloc, name).long(name).action(ArgAction::SetTrue);
    Ok(command.arg(arg)?)
}

/// What the words give the command. Every refusal of the library is `Usage`, help too, except out of memory.
pub fn matches<'a>(command: Command<'a>, words: &'a [String]) -> Result<ArgMatches<'a>, WordsFault>
    requires { is_simple_and_free (app_of command) ≡ true }
    ensures taken { OnOk result (is_taken (app_of command.entry) (map string_bytes words.now) ≡ true) }
    ensures rows { IfOk result (λ m. rows_of (found_of m) ≡ matches_of (app_of command.entry) (map string_bytes words.now)) }
    ensures refused { IfErr result (λ e. e ≢ WordsFault.NoMemory → is_taken (app_of command.entry) (map string_bytes words.now) ≡ false) }
{
    match command.try_get_matches_from(words) {
        Ok(matches) => Ok(matches),
        Err(error) => {
            if error.kind() == ErrorKind::OutOfMemory {
                return Err(WordsFault::NoMemory);
            }
            Err(WordsFault::Usage)
        }
    }
}
