//! How a call ends, with its exit status.

ghost use Rattle.std.specs.Prelude.{◌≡◌};
ghost use Rattle.guest_gen.specs.Answer.{status_of};

use rv_asm::fault::AsmFault;

/// How a call ends.
#[derive(Clone, Copy, Debug, PartialEq, Eq)]
pub enum MadeWhat {
    /// The program's file is written.
    Done,
    /// The words have no form of a call.
    Usage,
    /// The text could not be read.
    ReadFault,
    /// The text is longer than its limit.
    TooLong,
    /// The text has a fault: its first one. Want of memory is never this fault.
    Asm(AsmFault),
    /// The file, the line that tells of it, or the line that tells of a refusal could not be written.
    WriteFault,
    /// There was no room in memory.
    NoMemory,
}

/// What a call answers.
#[derive(Clone, Copy, Debug, PartialEq, Eq)]
pub struct Made {
    /// The exit status of the program that made the call.
    pub status: u8,
    pub what: MadeWhat,
}

/// The exit status of a call that ended so.
pub fn status(what: MadeWhat) -> u8
    ensures { result ≡ status_of what }
{
    match what {
        MadeWhat::Done => 0,
        MadeWhat::Usage => 120,
        MadeWhat::ReadFault => 121,
        MadeWhat::WriteFault => 122,
        MadeWhat::Asm(_) => 123,
        MadeWhat::NoMemory => 125,
        MadeWhat::TooLong => 126,
    }
}
