//! A layout before it is placed: what stands in each word.

use layout::point::Point;
use rv_isa::fields::Reg;
use rv_isa::instr::Cond;

/// Where a jump of a layout goes.
#[derive(Clone, Copy, Debug, PartialEq, Eq)]
pub enum To {
    /// The Start of this original address in the layout.
    Here(u64),
    /// The address itself.
    There(u64),
    /// The word after the next one.
    Over,
}

/// What a word is made of.
#[derive(Clone, Copy, Debug, PartialEq, Eq)]
pub enum Made {
    Same(u32),
    Jump {
        rd: Reg,
        to: To,
    },
    Branch {
        cond: Cond,
        rs1: Reg,
        rs2: Reg,
        to: To,
    },
    /// The AUIPC of two words that make a value.
    High {
        rd: Reg,
        value: u64,
    },
    /// The ADDI after it.
    Low {
        rd: Reg,
        value: u64,
    },
}

/// A word of a layout that isn't placed yet.
#[derive(Clone, Copy, Debug, PartialEq, Eq)]
pub struct Entry {
    pub point: Point,
    pub made: Made,
}
