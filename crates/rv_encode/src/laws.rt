//! Laws of words and instructions, each the contract of a call.
ghost use Rattle.std.specs.Prelude.{◌≡◌, ◌<◌, ℕ, ◌^◌, IsNone, ◌↔◌};
ghost use Rattle.rv_isa.specs.Instr.{HasWord};
ghost use Rattle.rv_isa.specs.Reads.{Reads};
ghost use Rattle.rv_isa.specs.declared.instr.Instr.{Instr};

use crate::encode;
use rv_decode::decode;
use rv_isa::instr::Instr;

/// Decodes the word of an instruction, which gives the instruction again.
pub fn decode_encoded(i: &Instr) -> Option<Instr>
    requires { HasWord i.now }
    ensures { result ≡ Some i.now }
{
    decode(encode(i))
}

/// Encodes the instruction of a word, which gives the word again. `None` where the word reads as no instruction.
pub fn encode_decoded(w: u32) -> Option<u32>
    ensures back { (i : Instr) → Reads w i → result ≡ Some w }
    ensures none { IsNone result ↔ ((i : Instr) → Reads w i → ⊥) }
{
    let i = decode(w)?;
    Some(encode(&i))
}

/// Says that an instruction has one word at most. It does nothing.
pub fn one_word()
    ensures { (v w : ℕ) (i : Instr) → v < 2 ^ 32 → w < 2 ^ 32 → Reads v i → Reads w i → v ≡ w }
{}
