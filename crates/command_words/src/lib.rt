//! Command lines: simple commands of positionals, options and flags, and what the values of their arguments write.
#![tactic(auto)]

pub mod command;
pub mod fault;
mod number;
mod region;
pub mod value;

/// The size of a page: a region has whole ones.
pub const PAGE: u64 = 4096;

/// The most bytes of a region.
pub const LARGEST_REGION: u64 = 8388608;

/// How many transfers of each hart are kept where no option says it.
pub const USUAL_RING: u32 = 4096;

/// The most transfers of a hart that are kept.
pub const LARGEST_RING: u32 = 65536;
