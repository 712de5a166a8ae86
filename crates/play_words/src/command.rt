//! The command that the words are read as.

ghost use Rattle.std.specs.Prelude.{◌≡◌, IfOk};
ghost use Rattle.clap.specs.Words.{app_of};
ghost use Rattle.play_words.specs.Words.{command};

use clap::Command;
use command_words::command::{unnamed, with_flag, with_option, with_positional};
use oc_base::fault::NoMemory;
use std::alloc::Global;

/// Two positionals, three options and a flag.
pub fn command<'a>(alloc: Global) -> Result<Command<'a>, NoMemory>
    ensures { IfOk result (λ c. app_of c ≡ command) }
{
    let named = with_positional(alloc, unnamed(alloc, "ocolos_play"), "program")?;
    let scripted = with_positional(alloc, named, "script")?;
    let placed = with_option(alloc, scripted, "region")?;
    let recorded = with_option(alloc, placed, "ring")?;
    let generated = with_option(alloc, recorded, "generate")?;
    with_flag(alloc, generated, "report")
}
