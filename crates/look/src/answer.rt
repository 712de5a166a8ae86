//! How a look ends, with its exit status.

ghost use Rattle.std.specs.Prelude.{◌≡◌};
ghost use Rattle.look.specs.Answer.{status_of};

use report::answer::ProgramFault;
use sched_log::fault::ScriptFault;

/// How a look ends.
#[derive(Clone, Copy, Debug, PartialEq, Eq)]
pub enum Looked {
    /// All that is shown is written.
    Done,
    /// The words don't have the form that the call asks for.
    Usage,
    /// A file or the input could not be read.
    ReadFault,
    /// A file or the input is longer than its limit.
    TooLong,
    /// The file is no program, for its first fault. Want of memory is never this fault.
    Program(ProgramFault),
    /// The file is no script for the program, for its first line with a fault. Want of memory is never this fault.
    Script(ScriptFault),
    /// The program has no function of the number or name that the words give.
    NoFunction,
    /// An output or the picture could not be written.
    WriteFault,
    /// There was no room in memory.
    NoMemory,
}

/// What a look answers.
#[derive(Clone, Copy, Debug, PartialEq, Eq)]
pub struct Answer {
    /// The exit status of the program that made the call.
    pub status: u8,
    pub what: Looked,
}

/// The exit status of a look that ended so.
pub fn status(what: Looked) -> u8
    ensures { result ≡ status_of what }
{
    match what {
        Looked::Done => 0,
        Looked::Usage | Looked::NoFunction => 120,
        Looked::ReadFault => 121,
        Looked::WriteFault => 122,
        Looked::Program(_) => 123,
        Looked::Script(_) => 124,
        Looked::NoMemory => 125,
        Looked::TooLong => 126,
    }
}
