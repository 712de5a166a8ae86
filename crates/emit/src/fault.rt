//! Why a plan has no layout.

ghost use Rattle.std.specs.Prelude.{◌≡◌};
ghost use Rattle.emit.specs.declared.fault.EmitFault.TheVariants.{NoMemory};

use blocks::fault::Unreadable;
use oc_base::fault::NoMemory as OutOfMemory;
use thiserror::Error;

/// Why a plan has no layout at a base, or no size.
#[derive(Clone, Copy, Debug, PartialEq, Eq, Error)]
pub enum EmitFault {
    /// The first function of the plan that can't be cut into blocks.
    #[error("function {func} can't be cut into blocks: {why}")]
    Unreadable { func: u32, why: Unreadable },
    /// The first word that is out of reach: a JAL at this address of this target, or an AUIPC of this value.
    #[error("the word at {at:#x} can't reach {target:#x}")]
    BranchReach { at: u64, target: u64 },
    #[error("out of memory")]
    NoMemory,
}

impl From<OutOfMemory> for EmitFault {
    ghost from_gives = { λ _ e. e ≡ NoMemory };

    fn from(_e: OutOfMemory) -> EmitFault {
        EmitFault::NoMemory
    }
}
