//! Tagged memory of a guest: bytes, one tag for each aligned word of 8 bytes, and rights for each byte.
//!
//! `GuestStore` is what the crates above see, and `specs/Access.antt` says what its calls find and leave. `PagedMem`,
//! which is the `GuestMem` of a machine, meets it by a table of pages, and `FlatMem` by ordered maps. Loads, stores and
//! transfers are written once, over the few calls of `WordStore`.
#![tactic(auto)]

mod access;
mod bits;
mod bytes;
mod clearing;
pub mod fault;
pub mod flat;
pub mod memory;
pub mod page;
pub mod paged;
pub mod store;
#[cfg(test)]
mod tests;
mod transfer;
pub mod words;

/// The end of the guest's addresses.
pub const GUEST_END: u64 = 0x1000_0000;

/// The bytes of a page.
pub const PAGE: u64 = 4096;
