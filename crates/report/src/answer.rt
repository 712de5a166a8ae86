//! How a call ends, with its exit status.

ghost use Rattle.std.specs.Prelude.{◌≡◌};
ghost use Rattle.report.specs.Answer.{status_of};

use elf_read::fault::ElfFault;
use machine::outcome::Outcome;
use oc_base::items::Items;
use oc_base::text::Text;
use relocs::fault::ImageFault;
use sched_log::fault::ScriptFault;
use thiserror::Error;
use top_call::reading::Unread;

/// Why a file is no program.
#[derive(Clone, Copy, Debug, PartialEq, Eq, Error)]
pub enum ProgramFault {
    /// The file is no executable that can be read.
    #[error("program elf: {0}")]
    Elf(ElfFault),
    /// The executable has no image.
    #[error("program image: {0}")]
    Image(ImageFault),
}

/// How a call ends.
#[derive(Debug, Drop)]
pub enum Ended {
    /// The program ran under the script, and all that it delivers is written.
    Ran(Outcome),
    /// The words don't have the form that the call asks for.
    Usage,
    /// What has this name, a file or the input, could not be read.
    ReadFault(Text),
    /// What has this name, a file or the input, is longer than its limit.
    TooLong(Text),
    /// The file of the program is none, for its first fault. To be out of memory is never this fault.
    Program(ProgramFault),
    /// The script is none, for the first line with a fault. To be out of memory is never this fault.
    Script(ScriptFault),
    /// An output could not be written.
    WriteFault,
    /// The call ran out of memory.
    NoMemory,
}

impl From<Unread> for Ended {
    ghost use Rattle.report.specs.Cause.{refusal_of};

    ghost from_gives = { λ why ended. ended ≡ refusal_of why };

    fn from(why: Unread) -> Ended {
        match why {
            Unread::Failed(name) => Ended::ReadFault(name),
            Unread::TooLong(name) => Ended::TooLong(name),
            Unread::NoMemory => Ended::NoMemory,
        }
    }
}

/// What a call answers.
#[derive(Debug, Drop)]
pub struct Answer {
    /// The exit status of the program that made the call.
    pub status: u8,
    pub ended: Ended,
    /// The report of the run, where the call ran one and wrote all that it delivers; else empty.
    pub report: Items<u8>,
}

/// The exit status of a call that ended so.
pub fn status(ended: &Ended) -> u8
    ensures { result ≡ status_of ended.now }
{
    match ended {
        Ended::Ran(Outcome::Exit(code)) => *code,
        Ended::Ran(Outcome::OutputFull) => 112,
        Ended::Ran(Outcome::HartsFull) => 113,
        Ended::Ran(Outcome::Landing { .. }) => 114,
        Ended::Ran(Outcome::Unfinished) => 115,
        Ended::Ran(Outcome::Stalled) => 116,
        Ended::Ran(Outcome::Limit { .. }) => 117,
        Ended::Ran(Outcome::Trap { .. }) => 118,
        Ended::Ran(Outcome::LinkUse { .. }) => 119,
        Ended::Usage => 120,
        Ended::ReadFault(_) => 121,
        Ended::WriteFault => 122,
        Ended::Program(_) => 123,
        Ended::Script(_) => 124,
        Ended::NoMemory => 125,
        Ended::TooLong(_) => 126,
    }
}
