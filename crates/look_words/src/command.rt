//! The command that the words are read as.

ghost use Rattle.std.specs.Prelude.{◌≡◌, IfOk};
ghost use Rattle.clap.specs.Words.{app_of};
ghost use Rattle.look_words.specs.Words.{command};

use clap::Command;
use command_words::command::{unnamed, with_option, with_positional};
use oc_base::fault::NoMemory;
use std::alloc::Global;

/// A positional and five options.
pub fn command<'a>(alloc: Global) -> Result<Command<'a>, NoMemory>
    ensures { IfOk result (λ c. app_of c ≡ command) }
{
    let named = with_positional(alloc, unnamed(alloc, "ocolos_look"), "program")?;
    let placed = with_option(alloc, named, "region")?;
    let chosen = with_option(alloc, placed, "function")?;
    let scripted = with_option(alloc, chosen, "script")?;
    let recorded = with_option(alloc, scripted, "ring")?;
    with_option(alloc, recorded, "svg")
}
