//! The word of each instruction.
ghost use Rattle.std.specs.Prelude.{◌≡◌, ◌≤◌, ◌<◌, ◌*◌, ◌^◌, pos, neg_ℤ, ◌+ℤ◌, ◌≤ℤ◌, ◌<ℤ◌};
ghost use Rattle.rv_isa.specs.Instr.{HasWord, IsAmount};
ghost use Rattle.rv_isa.specs.Word.{bits, signed, opcode, rd_of, rs1_of, rs2_of};
ghost use Rattle.rv_isa.specs.Rows.{Has};
ghost use Rattle.rv_isa.specs.Reads.{Reads, width_row, order_of};
ghost use Rattle.rv_isa.specs.declared.instr.Instr.{Instr};

use crate::formats::{b_type, i_type, j_type, r_type, s_type, u_type};
use crate::tables::{alu_fields, amo_field, cond_field, imm_fields, width_field};
use rv_isa::fields::{Imm12, Reg, Shift};
use rv_isa::instr::{Instr, Order, ShiftOp};

/// A word that reads as the instruction.
#[tactic(auto, unfolding(rv_isa::specs::Reads::Reads))]
pub fn word(i: &Instr) -> u32
    requires { HasWord i.now }
    ensures { Reads result i.now }
{
    match *i {
        Instr::Alu { op, rd, rs1, rs2 } => {
            let (code, f3, f7) = alu_fields(op);
            r_type(code, rd, f3, rs1, rs2, f7)
        }
        Instr::AluImm { op, rd, rs1, imm } => {
            let (code, f3) = imm_fields(op);
            i_type(code, rd, f3, rs1, imm_field(imm))
        }
        Instr::ShiftImm { op, rd, rs1, by } => shift(op, rd, rs1, by),
        Instr::Lui { rd, imm } => u_type(0x37, rd, imm.get() as u32),
        Instr::Auipc { rd, imm } => u_type(0x17, rd, imm.get() as u32),
        Instr::Jal { rd, off } => j_type(0x6f, rd, in_bits(off.get(), 1 << 21)),
        Instr::Jalr { rd, rs1, off } => i_type(0x67, rd, 0, rs1, imm_field(off)),
        Instr::Branch {
            cond,
            rs1,
            rs2,
            off,
        } => {
            let imm = in_bits(off.get(), 1 << 13);
            b_type(0x63, cond_field(cond), rs1, rs2, imm)
        }
        Instr::Load {
            width,
            rd,
            rs1,
            off,
        } => i_type(0x03, rd, width_field(width), rs1, imm_field(off)),
        Instr::Store {
            width,
            rs2,
            rs1,
            off,
        } => s_type(0x23, width_field(width), rs1, rs2, imm_field(off)),
        Instr::Lr {
            wide,
            order,
            rd,
            rs1,
        } => atomic(0b00010, wide, order, rd, rs1, Reg::new(0).unwrap()),
        Instr::Sc {
            wide,
            order,
            rd,
            rs1,
            rs2,
        } => atomic(0b00011, wide, order, rd, rs1, rs2),
        Instr::Amo {
            op,
            wide,
            order,
            rd,
            rs1,
            rs2,
        } => atomic(amo_field(op), wide, order, rd, rs1, rs2),
        Instr::Fence { rd, rs1, imm } => i_type(0x0f, rd, 0, rs1, imm_field(imm)),
        Instr::Ecall => 0x0000_0073,
        Instr::Ebreak => 0x0010_0073,
    }
}

/// The word of a shift by a fixed amount, which stands in the low bits of an immediate.
#[tactic(auto, unfolding(rv_isa::specs::Reads::Reads))]
fn shift(op: ShiftOp, rd: Reg, rs1: Reg, by: Shift) -> u32
    requires { IsAmount op by }
    ensures { Reads result (Instr.ShiftImm op rd rs1 by) }
{
    let (code, f3, top) = match op {
        ShiftOp::Slli => (0x13, 1, 0),
        ShiftOp::Srli => (0x13, 5, 0),
        ShiftOp::Srai => (0x13, 5, 0x400),
        ShiftOp::Slliw => (0x1b, 1, 0),
        ShiftOp::Srliw => (0x1b, 5, 0),
        ShiftOp::Sraiw => (0x1b, 5, 0x400),
    };
    i_type(code, rd, f3, rs1, top + by.get() as u32)
}

/// The word of an atomic instruction.
fn atomic(f5: u32, wide: bool, order: Order, rd: Reg, rs1: Reg, rs2: Reg) -> u32
    requires f5 { f5 < 32 }
    ensures code { opcode result ≡ 0x2f }
    ensures f5 { bits result 31 27 ≡ f5 }
    ensures width { Has result (width_row wide) }
    ensures order { order_of result ≡ order }
    ensures rd { rd_of result ≡ rd }
    ensures rs1 { rs1_of result ≡ rs1 }
    ensures rs2 { rs2_of result ≡ rs2 }
{
    let f3 = if wide { 3 } else { 2 };
    let f7 = (f5 << 2) + (u32::from(order.aq) << 1) + u32::from(order.rl);
    r_type(0x2f, rd, f3, rs1, rs2, f7)
}

/// A signed immediate as a field of 12 bits.
fn imm_field(imm: Imm12) -> u32
    ensures small { result < 2 ^ 12 }
    ensures value { signed 12 result ≡ imm }
{
    in_bits(imm.get(), 1 << 12)
}

/// `v` as two's complement in a field that holds the numbers below `whole`.
fn in_bits(v: i32, whole: i32) -> u32
    requires most { whole ≤ℤ pos (2 ^ 21) }
    requires low { neg_ℤ whole ≤ℤ v }
    requires high { v <ℤ whole }
    ensures low { v <ℤ pos 0 → pos result ≡ v +ℤ whole }
    ensures high { pos 0 ≤ℤ v → pos result ≡ v }
{
    if v < 0 { (v + whole) as u32 } else { v as u32 }
}
