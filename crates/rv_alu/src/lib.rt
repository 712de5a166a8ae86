//! The arithmetic of the instructions, over the 64 bits of a register.
#![tactic(auto)]

ghost use Rattle.std.specs.Prelude.{◌≡◌, ◌↔◌, IsTrue};
ghost use Rattle.rv_isa.specs.Conditions.{Holds};
ghost use Rattle.rv_isa.specs.Instr.{IsAmount};
ghost use Rattle.rv_alu.specs.Arithmetic.{alu_of, imm_of, shift_of, stored_of, amo_of};

mod division;
mod product;
pub mod words;

use division::{div, divu, divuw, divw, rem, remu, remuw, remw};
use product::{mulh, mulhsu, mulhu};
use rv_isa::fields::{Imm12, Shift};
use rv_isa::instr::{AluOp, AmoOp, Cond, ImmOp, ShiftOp};
use words::{extended, low, signed, signed_w, unsigned};

/// What an operation between two registers gives.
#[tactic(auto, unfolding(crate::specs::Arithmetic::alu_of))]
pub fn alu(op: AluOp, a: u64, b: u64) -> u64
    ensures { result ≡ alu_of op a b }
{
    match op {
        AluOp::Add => a.wrapping_add(b),
        AluOp::Sub => a.wrapping_sub(b),
        AluOp::Sll => a << (b % 64),
        AluOp::Slt => u64::from(signed(a) < signed(b)),
        AluOp::Sltu => u64::from(a < b),
        AluOp::Xor => a ^ b,
        AluOp::Srl => a >> (b % 64),
        AluOp::Sra => unsigned(signed(a) >> (b % 64)),
        AluOp::Or => a | b,
        AluOp::And => a & b,
        AluOp::Mul => a.wrapping_mul(b),
        AluOp::Mulh => mulh(a, b),
        AluOp::Mulhsu => mulhsu(a, b),
        AluOp::Mulhu => mulhu(a, b),
        AluOp::Div => div(a, b),
        AluOp::Divu => divu(a, b),
        AluOp::Rem => rem(a, b),
        AluOp::Remu => remu(a, b),
        AluOp::Addw => extended(low(a.wrapping_add(b))),
        AluOp::Subw => extended(low(a.wrapping_sub(b))),
        AluOp::Sllw => extended(low(a) << (b % 32)),
        AluOp::Srlw => extended(low(a) >> (b % 32)),
        AluOp::Sraw => unsigned(i64::from(signed_w(low(a)) >> (b % 32))),
        AluOp::Mulw => extended(low(a.wrapping_mul(b))),
        AluOp::Divw => extended(divw(low(a), low(b))),
        AluOp::Divuw => extended(divuw(low(a), low(b))),
        AluOp::Remw => extended(remw(low(a), low(b))),
        AluOp::Remuw => extended(remuw(low(a), low(b))),
    }
}

/// What an operation between a register and an immediate gives.
#[tactic(auto, unfolding(crate::specs::Arithmetic::imm_of))]
pub fn alu_imm(op: ImmOp, a: u64, imm: Imm12) -> u64
    ensures { result ≡ imm_of op a imm }
{
    let b = unsigned(i64::from(imm.get()));
    match op {
        ImmOp::Addi => alu(AluOp::Add, a, b),
        ImmOp::Slti => alu(AluOp::Slt, a, b),
        ImmOp::Sltiu => alu(AluOp::Sltu, a, b),
        ImmOp::Xori => alu(AluOp::Xor, a, b),
        ImmOp::Ori => alu(AluOp::Or, a, b),
        ImmOp::Andi => alu(AluOp::And, a, b),
        ImmOp::Addiw => alu(AluOp::Addw, a, b),
    }
}

/// What a shift of a register by an amount gives.
#[tactic(auto, unfolding(crate::specs::Arithmetic::shift_of))]
pub fn shift(op: ShiftOp, a: u64, by: Shift) -> u64
    requires { IsAmount op by }
    ensures { result ≡ shift_of op a by }
{
    let by = by.get() as u64;
    match op {
        ShiftOp::Slli => alu(AluOp::Sll, a, by),
        ShiftOp::Srli => alu(AluOp::Srl, a, by),
        ShiftOp::Srai => alu(AluOp::Sra, a, by),
        ShiftOp::Slliw => alu(AluOp::Sllw, a, by),
        ShiftOp::Srliw => alu(AluOp::Srlw, a, by),
        ShiftOp::Sraiw => alu(AluOp::Sraw, a, by),
    }
}

/// What an atomic operation stores, from what it loaded and a register. Where it isn't `wide`, the low 32 bits of both
/// count, and the result is 32 bits extended by their sign.
#[tactic(auto, unfolding(crate::specs::Arithmetic::amo_of))]
pub fn amo(op: AmoOp, wide: bool, old: u64, b: u64) -> u64
    ensures { result ≡ amo_of op wide old b }
{
    if wide {
        amo_d(op, old, b)
    } else {
        extended(amo_w(op, low(old), low(b)))
    }
}

/// Whether a branch is taken, by the values of its registers.
pub fn taken(c: Cond, a: u64, b: u64) -> bool
    ensures { IsTrue result ↔ Holds c a b }
{
    match c {
        Cond::Eq => a == b,
        Cond::Ne => a != b,
        Cond::Lt => signed(a) < signed(b),
        Cond::Ge => signed(b) <= signed(a),
        Cond::Ltu => a < b,
        Cond::Geu => b <= a,
    }
}

/// An atomic operation of 64 bits.
#[tactic(auto, unfolding(crate::specs::Arithmetic::stored_of))]
fn amo_d(op: AmoOp, old: u64, b: u64) -> u64
    ensures { result ≡ stored_of 64 op old b }
{
    match op {
        AmoOp::Swap => b,
        AmoOp::Add => old.wrapping_add(b),
        AmoOp::Xor => old ^ b,
        AmoOp::And => old & b,
        AmoOp::Or => old | b,
        AmoOp::Min => if signed(b) < signed(old) { b } else { old },
        AmoOp::Max => if signed(old) < signed(b) { b } else { old },
        AmoOp::Minu => old.min(b),
        AmoOp::Maxu => old.max(b),
    }
}

/// An atomic operation of 32 bits.
#[tactic(auto, unfolding(crate::specs::Arithmetic::stored_of))]
fn amo_w(op: AmoOp, old: u32, b: u32) -> u32
    ensures { result ≡ stored_of 32 op old b }
{
    match op {
        AmoOp::Swap => b,
        AmoOp::Add => old.wrapping_add(b),
        AmoOp::Xor => old ^ b,
        AmoOp::And => old & b,
        AmoOp::Or => old | b,
        AmoOp::Min => if signed_w(b) < signed_w(old) { b } else { old },
        AmoOp::Max => if signed_w(old) < signed_w(b) { b } else { old },
        AmoOp::Minu => old.min(b),
        AmoOp::Maxu => old.max(b),
    }
}

#[cfg(test)]
mod tests;
