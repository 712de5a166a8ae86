//! The pieces of a line.

use oc_base::items::Items;

/// A piece of a line.
#[derive(Debug, Drop)]
pub enum Token {
    /// A byte, and the name bytes after it.
    Word(Items<u8>),
    /// The bytes between two quotes, as they stand.
    Text(Items<u8>),
    Comma,
    Colon,
    Semicolon,
    Open,
    Close,
    /// A quote that isn't closed in its line.
    Broken,
}

/// What the bytes at a place of a line belong to.
#[derive(Clone, Copy, Debug, PartialEq, Eq)]
pub enum Mode {
    Plain,
    Quoted,
    Comment,
}
