//! The command that the words are read as.

ghost use Rattle.std.specs.Prelude.{◌≡◌, IfOk};
ghost use Rattle.clap.specs.Words.{app_of};
ghost use Rattle.live_words.specs.Words.{command};

use clap::Command;
use command_words::command::{unnamed, with_flag, with_option, with_positional};
use oc_base::fault::NoMemory;
use std::alloc::Global;

/// A positional, six options and a flag.
pub fn command<'a>(alloc: Global) -> Result<Command<'a>, NoMemory>
    ensures { IfOk result (λ c. app_of c ≡ command) }
{
    let named = with_positional(alloc, unnamed(alloc, "ocolos"), "program")?;
    let shared = with_option(alloc, named, "workers")?;
    let timed = with_option(alloc, shared, "every")?;
    let limited = with_option(alloc, timed, "limit")?;
    let placed = with_option(alloc, limited, "region")?;
    let noted = with_option(alloc, placed, "ring")?;
    let recorded = with_option(alloc, noted, "record")?;
    with_flag(alloc, recorded, "report")
}
