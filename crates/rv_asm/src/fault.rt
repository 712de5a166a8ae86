//! Why a text is not assembled.

ghost use Rattle.std.specs.Prelude.{◌≡◌};
ghost use Rattle.rv_asm.specs.Order.{number_of, rank, earlier};

use oc_base::fault::NoMemory as Full;
use thiserror::Error;

/// What is wrong with a statement.
#[derive(Clone, Copy, Debug, PartialEq, Eq)]
pub enum FaultKind {
    /// No statement has this name.
    Unknown,
    /// A statement of the other section.
    Misplaced,
    /// The operands don't have the form that the statement asks for.
    Malformed,
    /// It is nested, is ended without a begin, or isn't ended.
    Unpaired,
    /// A name that an earlier statement gives.
    GivenAgain,
    /// A name without the meaning that the statement asks for, or a text without a function.
    Undefined,
    /// A number out of range, or an address out of reach.
    OutOfRange,
    /// The section has more bytes than it may have.
    TooLarge,
}

impl FaultKind {
    /// The number by which it is reported, 1 to 8.
    pub fn number(self) -> u8
        ensures { result ≡ number_of self }
    {
        match self {
            FaultKind::Unknown => 1,
            FaultKind::Malformed => 2,
            FaultKind::OutOfRange => 3,
            FaultKind::Undefined => 4,
            FaultKind::GivenAgain => 5,
            FaultKind::Unpaired => 6,
            FaultKind::Misplaced => 7,
            FaultKind::TooLarge => 8,
        }
    }

    /// The place among the kinds in one line, of which the first counts.
    fn rank(self) -> u8
        ensures { result ≡ rank self }
    {
        match self {
            FaultKind::Unknown => 0,
            FaultKind::Misplaced => 1,
            FaultKind::Malformed => 2,
            FaultKind::Unpaired => 3,
            FaultKind::GivenAgain => 4,
            FaultKind::Undefined => 5,
            FaultKind::OutOfRange => 6,
            FaultKind::TooLarge => 7,
        }
    }
}

/// A fault and its line, counted from 1.
#[derive(Clone, Copy, Debug, PartialEq, Eq)]
pub struct LineFault {
    pub line: u32,
    pub kind: FaultKind,
}

impl LineFault {
    /// The one of two faults that counts first: by the line, and in one line by the kind.
    pub fn earlier(self, other: LineFault) -> LineFault
        ensures { result ≡ earlier self other }
    {
        if self.line < other.line
            || (self.line == other.line && self.kind.rank() <= other.kind.rank())
        {
            self
        } else {
            other
        }
    }
}

/// Why a text is not assembled.
#[derive(Clone, Copy, Debug, PartialEq, Eq, Error)]
pub enum AsmFault {
    /// The first line with a fault, counted from 1, and its kind, 1 to 8.
    #[error("line {line} fault {kind}")]
    Line { line: u64, kind: u8 },
    #[error("out of memory")]
    NoMemory,
}

impl From<Full> for AsmFault {
    ghost use Rattle.rv_asm.specs.declared.fault.AsmFault.TheVariants.{NoMemory};

    ghost from_gives = { λ _ e. e ≡ NoMemory };

    fn from(_full: Full) -> AsmFault {
        AsmFault::NoMemory
    }
}
