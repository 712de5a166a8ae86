//! Why bytes are no executable.

ghost use Rattle.std.specs.Prelude.{◌≡◌};
ghost use Rattle.elf_read.specs.declared.fault.ElfFault.TheVariants.{NoMemory};

use oc_base::fault::NoMemory as OutOfMemory;
use thiserror::Error;

/// What is wrong with the bytes: the first of these that applies.
#[derive(Clone, Copy, Debug, PartialEq, Eq, Error)]
pub enum ElfFault {
    #[error("no ELF file")]
    NotElf,
    #[error("no RISC-V 64 executable")]
    NotRiscv64Exec,
    #[error("compressed instructions")]
    Compressed,
    #[error("a floating point ABI")]
    FloatAbi,
    #[error("the file ends before the range at {0}")]
    Truncated(u64),
    #[error("bad segment {0}")]
    BadSegment(u16),
    #[error("too large")]
    TooLarge,
    #[error("no text")]
    NoText,
    #[error("no symbols")]
    NoSymbols,
    #[error("out of memory")]
    NoMemory,
}

impl From<OutOfMemory> for ElfFault {
    ghost from_gives = { λ _ e. e ≡ NoMemory };

    fn from(_e: OutOfMemory) -> ElfFault {
        ElfFault::NoMemory
    }
}
