//! Functions, objects and relocations.

use oc_base::items::Items;

/// A function or an object, from its first address up to, but not with, `to`.
#[derive(Debug, Drop)]
pub struct Named {
    pub name: Items<u8>,
    pub from: u64,
    pub to: u64,
}

/// A relocation: its address, its number (17 for a jump to a function, 19 for a call, 2 for the address of a
/// function in data), and the function's place in the list of functions.
#[derive(Clone, Copy, Debug, PartialEq, Eq)]
pub struct Fixup {
    pub at: u64,
    pub kind: u8,
    pub func: u32,
}
