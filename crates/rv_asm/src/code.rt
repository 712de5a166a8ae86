//! What a word of text stands for.

use asm_text::body::Encodable;

#[derive(Clone, Copy, Debug)]
pub enum Code {
    Instruction(Encodable),
    /// A word of `.word`, which may be no instruction.
    Raw(u32),
}
