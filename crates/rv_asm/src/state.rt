//! Where the next statement stands.

use asm_text::keyword::Section;
use asm_text::name::Name;

/// A function or an object that isn't ended: its line, its name, and the bytes of its section before it.
#[derive(Debug, Drop)]
pub struct Open {
    pub line: u32,
    pub name: Name,
    pub from: u64,
}

/// The section, the bytes of text and of data so far, the functions that are ended, and what is open.
#[derive(Debug, Drop)]
pub struct State {
    pub section: Section,
    pub text_len: u64,
    pub data_len: u64,
    pub funcs: u32,
    pub func: Option<Open>,
    pub object: Option<Open>,
}
