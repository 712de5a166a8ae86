//! Words of text as statements of the assembler, which reads each of them back as the same word.
#![tactic(auto)]

mod names;
mod statement;

ghost use Rattle.std.specs.Prelude.{◌≡◌, ◌++◌, string_bytes, IfOk, OnOk};
ghost use Rattle.disasm.specs.Shown.{shown, word_text};

use oc_base::fault::NoMemory;
use oc_base::items::Items;
use rv_decode::decode;
use statement::{push_instruction, push_word};
use std::alloc::Global;

/// The statement of the word at an address, which the targets of jumps and branches are told by.
pub fn disassemble(alloc: Global, word: u32, at: u64) -> Result<Items<u8>, NoMemory>
    ensures { IfOk result (λ text. text ≡ shown word at) }
{
    let mut text = String::new(alloc);
    push_shown(&mut text, word, at)?;
    Ok(Items::from_vec(text.into_bytes()))
}

/// Adds the statement of the word at an address to a text.
#[tactic(auto, unfolding(crate::specs::Shown::shown))]
pub fn push_shown(text: &mut String, word: u32, at: u64) -> Result<(), NoMemory>
    ensures { OnOk result (string_bytes text.new ≡ string_bytes text.old ++ shown word at) }
{
    match decode(word) {
        Some(instr) => push_instruction(text, word, at, &instr),
        None => push_word(text, word),
    }
}

#[cfg(test)]
mod tests;
