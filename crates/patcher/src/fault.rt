//! Why calls can't be retargeted.

ghost use Rattle.std.specs.Prelude.{◌≡◌};
ghost use Rattle.patcher.specs.declared.fault.ReachFault.TheVariants.{NoMemory};

use oc_base::fault::NoMemory as OutOfMemory;
use thiserror::Error;

/// Why calls can't be retargeted.
#[derive(Clone, Copy, Debug, PartialEq, Eq, Error)]
pub enum ReachFault {
    /// The first call that is out of reach: the word at this address can't be a JAL to this target.
    #[error("the word at {at:#x} can't reach {target:#x}")]
    BranchReach { at: u64, target: u64 },
    #[error("out of memory")]
    NoMemory,
}

impl From<OutOfMemory> for ReachFault {
    ghost from_gives = { λ _ e. e ≡ NoMemory };

    fn from(_e: OutOfMemory) -> ReachFault {
        ReachFault::NoMemory
    }
}
