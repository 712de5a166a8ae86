//! How a run ends.

/// How a run ends.
#[derive(Clone, Copy, Debug, PartialEq, Eq)]
pub enum Outcome {
    /// The guest exited with this status.
    Exit(u8),
    /// The guest trapped: the cause's number, the original address of the instruction, and the cause's own value.
    Trap { cause: u8, pc: u64, value: u64 },
    /// A link was used as this rule forbids, by the instruction at an original address.
    LinkUse { rule: u8, pc: u64 },
    /// A jump by a register went to the second word of a far call, which has this address.
    Landing { pc: u64 },
    /// A write would have passed the limit of an output.
    OutputFull,
    /// There would have been more harts than a run may make.
    HartsFull,
    /// A hart hasn't ended, and every such hart waits.
    Stalled,
    /// The script ended before the guest did.
    Unfinished,
    /// A run of threads made at least so many real steps, or its log is full.
    Limit { most: u64 },
}
