//! Words of a function.

ghost use Rattle.std.specs.Prelude.{◌≡◌, [], ◌∷◌, ◌++◌, OnOk};
ghost use Rattle.blocks.specs.Words.{falls_of};

use oc_base::fault::NoMemory;
use rv_isa::instr::Instr;

/// A word of text and the instruction that it reads as.
#[derive(Clone, Copy, Debug, PartialEq, Eq)]
pub struct Word {
    pub at: u64,
    pub word: u32,
    pub instr: Instr,
}

/// Whether the word after an instruction may come next by itself or by a return.
pub fn falls(i: &Instr) -> bool
    ensures { result ≡ falls_of i.now }
{
    match i {
        Instr::Jal { rd, .. } => rd.get() != 0,
        Instr::Jalr { rd, .. } => rd.get() != 0,
        Instr::Branch { .. } => false,
        _ => true,
    }
}

/// Adds a word at the end.
pub(crate) fn push_word(words: &mut Vec<Word>, w: &Word) -> Result<(), NoMemory>
    ensures { OnOk result (words.new.items ≡ words.old.items ++ w.now ∷ []) }
{
    let instr: Instr = w.instr;
    words.push(Word {
        at: w.at,
        word: w.word,
        instr,
    })?;
    Ok(())
}
