//! The memory of a machine.
use crate::paged::PagedMem;

/// The memory that a machine has: its users name this alone.
pub type GuestMem = PagedMem;
