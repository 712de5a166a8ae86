//! What `disasm` shows of a word is read back by the assembler as that word.
#![tactic(auto)]

ghost use Rattle.std.specs.Prelude.{◌≡◌, IfSome};
ghost use Rattle.rv_isa.specs.Decoded.{decoded};
ghost use Rattle.disasm.specs.Shown.{shown};
ghost use Rattle.disasm_laws.specs.Back.{ReadsBack, HasRanges};

use rv_decode::decode;
use rv_isa::instr::Instr;

/// Says that the assembler reads the statement of a word at an address back as this word, wherever in the text of a
/// program that is its place. It does nothing.
pub fn reads_back(word: u32, at: u64)
    ensures { ReadsBack (shown word at) at word }
{
    match decode(word) {
        Some(instr) => has_ranges(&instr),
        None => {}
    }
}

// The operands of an instruction are in their ranges.
fn has_ranges(instr: &Instr)
    ensures { HasRanges instr.now }
{
    match *instr {
        Instr::Alu { rd, rs1, rs2, .. } => {
            let _ = (rd.get(), rs1.get(), rs2.get());
        }
        Instr::AluImm { rd, rs1, imm, .. } => {
            let _ = (rd.get(), rs1.get(), imm.get());
        }
        Instr::ShiftImm { rd, rs1, by, .. } => {
            let _ = (rd.get(), rs1.get(), by.get());
        }
        Instr::Lui { rd, imm } | Instr::Auipc { rd, imm } => {
            let _ = (rd.get(), imm.get());
        }
        Instr::Jal { rd, off } => {
            let _ = (rd.get(), off.get());
        }
        Instr::Jalr { rd, rs1, off } => {
            let _ = (rd.get(), rs1.get(), off.get());
        }
        Instr::Branch { rs1, rs2, off, .. } => {
            let _ = (rs1.get(), rs2.get(), off.get());
        }
        Instr::Load { rd, rs1, off, .. } => {
            let _ = (rd.get(), rs1.get(), off.get());
        }
        Instr::Store { rs2, rs1, off, .. } => {
            let _ = (rs2.get(), rs1.get(), off.get());
        }
        Instr::Lr { rd, rs1, .. } => {
            let _ = (rd.get(), rs1.get());
        }
        Instr::Sc { rd, rs1, rs2, .. } => {
            let _ = (rd.get(), rs1.get(), rs2.get());
        }
        Instr::Amo { rd, rs1, rs2, .. } => {
            let _ = (rd.get(), rs1.get(), rs2.get());
        }
        Instr::Fence { .. } | Instr::Ecall | Instr::Ebreak => {}
    }
}
