//! What is told of a run whose code is moved.

use blocks::fault::Unreadable;
use oc_base::items::Items;
use thiserror::Error;

/// Why a replacement was refused.
#[derive(Clone, Copy, Debug, PartialEq, Eq, Error)]
pub enum Refusal {
    /// No free range of the region has so many bytes; the largest one has these.
    #[error("the region has no free range of {need} bytes: its largest has {largest}")]
    RegionFull { need: u64, largest: u64 },
    /// The word at an address can't reach its target from there.
    #[error("the word at {at:#x} can't reach {target:#x}")]
    BranchReach { at: u64, target: u64 },
    /// A function, by its number, can't be cut into blocks. The cause is never `NoMemory`.
    #[error("function {func} can't be cut into blocks: {why}")]
    Unreadable { func: u32, why: Unreadable },
    #[error("out of memory")]
    NoMemory,
}

/// A refused attempt. Attempts are counted from 1.
#[derive(Clone, Copy, Debug, PartialEq, Eq)]
pub struct Refused {
    pub attempt: u64,
    pub refusal: Refusal,
}

/// A live layout: its number, counted from 1 in the order in which layouts are made, its first address, and how many words it has.
#[derive(Clone, Copy, Debug, PartialEq, Eq)]
pub struct LayoutFact {
    pub number: u64,
    pub base: u64,
    pub words: u64,
}

/// Where a hart is: the original address of its next instruction, and the address now.
#[derive(Clone, Copy, Debug, PartialEq, Eq)]
pub enum HartFact {
    Live { original: u64, pc: u64 },
    Waiting { original: u64, pc: u64 },
    Ended,
}

/// The counts of a run, what was refused, and what stands at its end. Every count stays at the greatest number of 64 bits once it
/// is there.
#[derive(Debug, Drop)]
pub struct Facts {
    /// Steps of the original machine, idle ones included.
    pub real: u64,
    /// Steps of layouts alone.
    pub layout: u64,
    pub snaps: u64,
    pub attempts: u64,
    pub done: u64,
    /// Layouts that were given up.
    pub retired: u64,
    /// In the order of their attempts.
    pub refusals: Items<Refused>,
    /// Sites and second words of pairs in text that differ from the original ones.
    pub sites: u64,
    /// Slots that hold a link into the region.
    pub slots: u64,
    /// Ascending by number.
    pub layouts: Items<LayoutFact>,
    /// By their numbers.
    pub harts: Items<HartFact>,
}
