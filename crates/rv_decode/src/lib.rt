//! The decoder: from a word of 32 bits to the instruction that it reads as.
#![tactic(auto)]

ghost use Rattle.std.specs.Prelude.{◌≡◌, ◌⊎◌, [], ◌∷◌, IfSome, IsNone, ◌↔◌};
ghost use Rattle.rv_isa.specs.declared.instr.Instr.{Instr};
ghost use Rattle.rv_isa.specs.Instr.{HasWord};
ghost use Rattle.rv_isa.specs.Word.{opcode, funct3};
ghost use Rattle.rv_isa.specs.Decoded.{decoded};
ghost use Rattle.rv_isa.specs.Reads.{Reads, amount_of, width_row};
ghost use Rattle.rv_isa.specs.Rows.{Has};

mod tables;
mod word;

use rv_isa::fields::Shift;
use rv_isa::instr::{Instr, ShiftOp};
use tables::{alu_op, amo_op, cond, imm_op, load_width, shift_op, store_width};
use word::{
    bits, funct3, imm_b, imm_i, imm_j, imm_s, imm_u, opcode, order, rd, rs1, rs2, shift, shift_w,
};

/// The instruction that `w` reads as, and `None` where no row of the instruction set reads it.
///
/// Reserved encodings and the words of other extensions are `None`. A hint is a word of its row like any other, and
/// FENCE is read with any operands.
#[inline(always)]
#[tactic(auto, unfolding(rv_isa::specs::Reads::Reads))]
pub fn decode(w: u32) -> Option<Instr>
    ensures is { result ≡ decoded w }
    ensures reads { IfSome result (Reads w) }
    ensures only { (i : Instr) → Reads w i → result ≡ Some i }
    ensures none { IsNone result ↔ ((i : Instr) → Reads w i → ⊥) }
    ensures ok { IfSome result HasWord }
{
    instruction(w)
}

/// Says that a word reads as one instruction at most, and that `decoded` is that one. It does nothing.
pub fn one_reading(w: u32)
    ensures one { (i j : Instr) → Reads w i → Reads w j → i ≡ j }
    ensures function { (i : Instr) → Reads w i ↔ (decoded w ≡ Some i) }
{
    let _ = decode(w);
}

#[inline(always)]
#[tactic(auto, unfolding(rv_isa::specs::Reads::Reads))]
fn instruction(w: u32) -> Option<Instr>
    ensures reads { IfSome result (Reads w) }
    ensures only { (i : Instr) → Reads w i → result ≡ Some i }
{
    match opcode(w) {
        0x33 | 0x3b => alu(w),
        0x13 | 0x1b => immediate(w),
        0x37 => Some(Instr::Lui {
            rd: rd(w),
            imm: imm_u(w),
        }),
        0x17 => Some(Instr::Auipc {
            rd: rd(w),
            imm: imm_u(w),
        }),
        0x6f => Some(Instr::Jal {
            rd: rd(w),
            off: imm_j(w),
        }),
        0x67 if funct3(w) == 0 => Some(Instr::Jalr {
            rd: rd(w),
            rs1: rs1(w),
            off: imm_i(w),
        }),
        0x63 => branch(w),
        0x03 => load(w),
        0x23 => store(w),
        0x2f => match funct3(w) {
            2 => atomic(w, false),
            3 => atomic(w, true),
            _ => None,
        },
        0x0f if funct3(w) == 0 => Some(Instr::Fence {
            rd: rd(w),
            rs1: rs1(w),
            imm: imm_i(w),
        }),
        0x73 if w == 0x0000_0073 => Some(Instr::Ecall),
        0x73 if w == 0x0010_0073 => Some(Instr::Ebreak),
        _ => None,
    }
}

/// Of OP and OP-32.
#[inline(always)]
#[tactic(auto, unfolding(rv_isa::specs::Reads::Reads))]
fn alu(w: u32) -> Option<Instr>
    requires { (opcode w ≡ 0x33) ⊎ (opcode w ≡ 0x3b) }
    ensures reads { IfSome result (Reads w) }
    ensures only { (i : Instr) → Reads w i → result ≡ Some i }
{
    let op = alu_op(w)?;
    Some(Instr::Alu {
        op,
        rd: rd(w),
        rs1: rs1(w),
        rs2: rs2(w),
    })
}

/// Of OP-IMM and OP-IMM-32.
#[inline(always)]
#[tactic(auto, unfolding(rv_isa::specs::Reads::Reads))]
fn immediate(w: u32) -> Option<Instr>
    requires { (opcode w ≡ 0x13) ⊎ (opcode w ≡ 0x1b) }
    ensures reads { IfSome result (Reads w) }
    ensures only { (i : Instr) → Reads w i → result ≡ Some i }
{
    if matches!(funct3(w), 1 | 5) {
        shift_immediate(w)
    } else {
        let op = imm_op(w)?;
        Some(Instr::AluImm {
            op,
            rd: rd(w),
            rs1: rs1(w),
            imm: imm_i(w),
        })
    }
}

/// Of OP-IMM and OP-IMM-32, with a shift amount.
#[inline(always)]
#[tactic(auto, unfolding(rv_isa::specs::Reads::Reads))]
fn shift_immediate(w: u32) -> Option<Instr>
    requires code { (opcode w ≡ 0x13) ⊎ (opcode w ≡ 0x1b) }
    requires shift { (funct3 w ≡ 1) ⊎ (funct3 w ≡ 5) }
    ensures reads { IfSome result (Reads w) }
    ensures only { (i : Instr) → Reads w i → result ≡ Some i }
{
    let op = shift_op(w)?;
    Some(Instr::ShiftImm {
        op,
        rd: rd(w),
        rs1: rs1(w),
        by: amount(op, w),
    })
}

/// The amount of a shift.
#[inline(always)]
fn amount(op: ShiftOp, w: u32) -> Shift
    ensures { result ≡ amount_of op w }
{
    match op {
        ShiftOp::Slli | ShiftOp::Srli | ShiftOp::Srai => shift(w),
        ShiftOp::Slliw | ShiftOp::Srliw | ShiftOp::Sraiw => shift_w(w),
    }
}

/// Of BRANCH.
#[inline(always)]
#[tactic(auto, unfolding(rv_isa::specs::Reads::Reads))]
fn branch(w: u32) -> Option<Instr>
    requires { opcode w ≡ 0x63 }
    ensures reads { IfSome result (Reads w) }
    ensures only { (i : Instr) → Reads w i → result ≡ Some i }
{
    let cond = cond(w)?;
    Some(Instr::Branch {
        cond,
        rs1: rs1(w),
        rs2: rs2(w),
        off: imm_b(w),
    })
}

/// Of LOAD.
#[inline(always)]
#[tactic(auto, unfolding(rv_isa::specs::Reads::Reads))]
fn load(w: u32) -> Option<Instr>
    requires { opcode w ≡ 0x03 }
    ensures reads { IfSome result (Reads w) }
    ensures only { (i : Instr) → Reads w i → result ≡ Some i }
{
    let width = load_width(w)?;
    Some(Instr::Load {
        width,
        rd: rd(w),
        rs1: rs1(w),
        off: imm_i(w),
    })
}

/// Of STORE.
#[inline(always)]
#[tactic(auto, unfolding(rv_isa::specs::Reads::Reads))]
fn store(w: u32) -> Option<Instr>
    requires { opcode w ≡ 0x23 }
    ensures reads { IfSome result (Reads w) }
    ensures only { (i : Instr) → Reads w i → result ≡ Some i }
{
    let width = store_width(w)?;
    Some(Instr::Store {
        width,
        rs2: rs2(w),
        rs1: rs1(w),
        off: imm_s(w),
    })
}

/// Of AMO, with the width that funct3 says.
#[inline(always)]
#[tactic(auto, unfolding(rv_isa::specs::Reads::Reads))]
fn atomic(w: u32, wide: bool) -> Option<Instr>
    requires code { opcode w ≡ 0x2f }
    requires width { Has w (width_row wide) }
    ensures reads { IfSome result (Reads w) }
    ensures only { (i : Instr) → Reads w i → result ≡ Some i }
{
    let order = order(w);
    let (rd, rs1) = (rd(w), rs1(w));
    match bits(w, 31, 27) {
        0b00010 if bits(w, 24, 20) == 0 => {
            Some(Instr::Lr {
                wide,
                order,
                rd,
                rs1,
            })
        }
        0b00010 => None,
        0b00011 => {
            let rs2 = rs2(w);
            Some(Instr::Sc {
                wide,
                order,
                rd,
                rs1,
                rs2,
            })
        }
        _ => {
            let op = amo_op(w)?;
            let rs2 = rs2(w);
            Some(Instr::Amo {
                op,
                wide,
                order,
                rd,
                rs1,
                rs2,
            })
        }
    }
}

#[cfg(test)]
mod tests;
