//! Why bytes are no script.

ghost use Rattle.std.specs.Prelude.{◌≡◌};

use oc_base::fault::NoMemory as Full;
use thiserror::Error;

/// The kind of a line that is no command, or has the wrong form.
pub const WRONG_FORM: u8 = 1;

/// The kind of a line with a number that can't be read or is out of its range.
pub const BAD_NUMBER: u8 = 2;

/// The kind of a line with a function's number that isn't there.
pub const NO_FUNCTION: u8 = 3;

/// The kind of a line that gives a function twice, or blocks in an order that is none of its function's.
pub const NOT_A_PLAN: u8 = 4;

/// The kind of a script without `end`.
pub const NO_END: u8 = 5;

/// The kind of a command after `end`.
pub const AFTER_END: u8 = 6;

/// The kind of a line at which the sum of all counts passes `COUNT_LIMIT`.
pub const PAST_LIMIT: u8 = 7;

#[derive(Clone, Copy, Debug, PartialEq, Eq, Error)]
pub enum ScriptFault {
    /// The first line with a fault, counted from 1, and its kind.
    #[error("line {line} fault {kind}")]
    Line { line: u64, kind: u8 },
    #[error("out of memory")]
    NoMemory,
}

impl From<Full> for ScriptFault {
    ghost use Rattle.sched_log.specs.declared.fault.ScriptFault.TheVariants.{NoMemory};

    ghost from_gives = { λ _ e. e ≡ NoMemory };

    fn from(_full: Full) -> ScriptFault {
        ScriptFault::NoMemory
    }
}
