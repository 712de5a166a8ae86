//! What a system call answers.

use oc_base::items::Items;
use oc_base::range::Range;

/// What the machine does for the hart that called.
#[derive(Clone, Copy, Debug, PartialEq, Eq)]
pub enum Reply {
    /// `x10` gets a number.
    Answer(u64),
    /// The hart waits at an address, and is answered 0 when it is woken.
    Wait {
        addr: u64,
    },
    /// The hart ends.
    EndHart,
    /// The run ends with this code.
    EndAll(u8),
    /// There is a new hart: a copy of this one, but for its stack pointer, its thread pointer where one is given, its
    /// clear address, and `x10`, which is 0. The hart that called is answered the new one's tid.
    Clone {
        stack: u64,
        tls: Option<u64>,
        clear: u64,
        tid: u32,
    },
    /// The hart has another clear address, and is answered its tid.
    SetClear {
        clear: u64,
    },
    /// A register that the call reads holds a link.
    LinkUse {
        reg: u8,
    },
    /// An output would have more than `OUTPUT_LIMIT` bytes.
    OutputFull,
    /// There are `HART_LIMIT` harts.
    HartsFull,
}

/// What a system call does beside its changes of memory and of the system.
#[derive(Debug, Drop)]
pub struct Effect {
    pub reply: Reply,
    /// The harts that are woken, in the order of their waiting.
    pub woken: Items<u32>,
    /// The bytes of memory that the call wrote. No range is empty.
    pub written: Items<Range>,
}
