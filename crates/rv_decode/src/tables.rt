//! Which operation of a class the fixed fields of a word name.
ghost use Rattle.std.specs.Prelude.{◌≡◌, [], ◌∷◌, IfSome};
ghost use Rattle.rv_isa.specs.Word.{opcode, funct3, funct7};
ghost use Rattle.rv_isa.specs.Instr.{IsStoreWidth};
ghost use Rattle.rv_isa.specs.Rows.{Has, alu_row, imm_row, shift_row, branch_row, load_row, store_row, amo_row};
ghost use Rattle.rv_isa.specs.declared.instr.AluOp.{AluOp};
ghost use Rattle.rv_isa.specs.declared.instr.AmoOp.{AmoOp};
ghost use Rattle.rv_isa.specs.declared.instr.Cond.{Cond};
ghost use Rattle.rv_isa.specs.declared.instr.ImmOp.{ImmOp};
ghost use Rattle.rv_isa.specs.declared.instr.ShiftOp.{ShiftOp};
ghost use Rattle.rv_isa.specs.declared.instr.Width.{Width};

use crate::word::{bits, funct3, funct7, opcode};
use rv_isa::instr::{AluOp, AmoOp, Cond, ImmOp, ShiftOp, Width};

/// Of OP and OP-32.
#[inline]
pub fn alu_op(w: u32) -> Option<AluOp>
    ensures found { IfSome result (λ op. Has w (alu_row op)) }
    ensures only { (op : AluOp) → Has w (alu_row op) → result ≡ Some op }
{
    match (opcode(w), funct7(w), funct3(w)) {
        (0x33, 0, 0) => Some(AluOp::Add),
        (0x33, 0, 1) => Some(AluOp::Sll),
        (0x33, 0, 2) => Some(AluOp::Slt),
        (0x33, 0, 3) => Some(AluOp::Sltu),
        (0x33, 0, 4) => Some(AluOp::Xor),
        (0x33, 0, 5) => Some(AluOp::Srl),
        (0x33, 0, 6) => Some(AluOp::Or),
        (0x33, 0, 7) => Some(AluOp::And),
        (0x33, 0x20, 0) => Some(AluOp::Sub),
        (0x33, 0x20, 5) => Some(AluOp::Sra),
        (0x33, 1, 0) => Some(AluOp::Mul),
        (0x33, 1, 1) => Some(AluOp::Mulh),
        (0x33, 1, 2) => Some(AluOp::Mulhsu),
        (0x33, 1, 3) => Some(AluOp::Mulhu),
        (0x33, 1, 4) => Some(AluOp::Div),
        (0x33, 1, 5) => Some(AluOp::Divu),
        (0x33, 1, 6) => Some(AluOp::Rem),
        (0x33, 1, 7) => Some(AluOp::Remu),
        (0x3b, 0, 0) => Some(AluOp::Addw),
        (0x3b, 0, 1) => Some(AluOp::Sllw),
        (0x3b, 0, 5) => Some(AluOp::Srlw),
        (0x3b, 0x20, 0) => Some(AluOp::Subw),
        (0x3b, 0x20, 5) => Some(AluOp::Sraw),
        (0x3b, 1, 0) => Some(AluOp::Mulw),
        (0x3b, 1, 4) => Some(AluOp::Divw),
        (0x3b, 1, 5) => Some(AluOp::Divuw),
        (0x3b, 1, 6) => Some(AluOp::Remw),
        (0x3b, 1, 7) => Some(AluOp::Remuw),
        _ => None,
    }
}

/// Of OP-IMM and OP-IMM-32, with an immediate.
#[inline]
pub fn imm_op(w: u32) -> Option<ImmOp>
    ensures found { IfSome result (λ op. Has w (imm_row op)) }
    ensures only { (op : ImmOp) → Has w (imm_row op) → result ≡ Some op }
{
    match (opcode(w), funct3(w)) {
        (0x13, 0) => Some(ImmOp::Addi),
        (0x13, 2) => Some(ImmOp::Slti),
        (0x13, 3) => Some(ImmOp::Sltiu),
        (0x13, 4) => Some(ImmOp::Xori),
        (0x13, 6) => Some(ImmOp::Ori),
        (0x13, 7) => Some(ImmOp::Andi),
        (0x1b, 0) => Some(ImmOp::Addiw),
        _ => None,
    }
}

/// Of OP-IMM and OP-IMM-32, with a shift amount.
#[inline]
pub fn shift_op(w: u32) -> Option<ShiftOp>
    ensures found { IfSome result (λ op. Has w (shift_row op)) }
    ensures only { (op : ShiftOp) → Has w (shift_row op) → result ≡ Some op }
{
    match (opcode(w), funct3(w)) {
        (0x13, 1) if bits(w, 31, 26) == 0 => Some(ShiftOp::Slli),
        (0x13, 5) if bits(w, 31, 26) == 0 => Some(ShiftOp::Srli),
        (0x13, 5) if bits(w, 31, 26) == 0x10 => Some(ShiftOp::Srai),
        (0x1b, 1) if funct7(w) == 0 => Some(ShiftOp::Slliw),
        (0x1b, 5) if funct7(w) == 0 => Some(ShiftOp::Srliw),
        (0x1b, 5) if funct7(w) == 0x20 => Some(ShiftOp::Sraiw),
        _ => None,
    }
}

/// Of BRANCH.
#[inline]
pub fn cond(w: u32) -> Option<Cond>
    requires { opcode w ≡ 0x63 }
    ensures found { IfSome result (λ c. Has w (branch_row c)) }
    ensures only { (op : Cond) → Has w (branch_row op) → result ≡ Some op }
{
    match funct3(w) {
        0 => Some(Cond::Eq),
        1 => Some(Cond::Ne),
        4 => Some(Cond::Lt),
        5 => Some(Cond::Ge),
        6 => Some(Cond::Ltu),
        7 => Some(Cond::Geu),
        _ => None,
    }
}

/// Of LOAD.
#[inline]
pub fn load_width(w: u32) -> Option<Width>
    requires { opcode w ≡ 0x03 }
    ensures found { IfSome result (λ width. Has w (load_row width)) }
    ensures only { (op : Width) → Has w (load_row op) → result ≡ Some op }
{
    match funct3(w) {
        0 => Some(Width::B),
        1 => Some(Width::H),
        2 => Some(Width::W),
        3 => Some(Width::D),
        4 => Some(Width::Bu),
        5 => Some(Width::Hu),
        6 => Some(Width::Wu),
        _ => None,
    }
}

/// Of STORE.
#[inline]
pub fn store_width(w: u32) -> Option<Width>
    requires { opcode w ≡ 0x23 }
    ensures width { IfSome result IsStoreWidth }
    ensures found { IfSome result (λ width. Has w (store_row width)) }
    ensures only { (op : Width) → IsStoreWidth op → Has w (store_row op) → result ≡ Some op }
{
    match funct3(w) {
        0 => Some(Width::B),
        1 => Some(Width::H),
        2 => Some(Width::W),
        3 => Some(Width::D),
        _ => None,
    }
}

/// Of AMO, but for LR and SC.
#[inline]
pub fn amo_op(w: u32) -> Option<AmoOp>
    requires { opcode w ≡ 0x2f }
    ensures found { IfSome result (λ op. Has w (amo_row op)) }
    ensures only { (op : AmoOp) → Has w (amo_row op) → result ≡ Some op }
{
    match bits(w, 31, 27) {
        0b00001 => Some(AmoOp::Swap),
        0b00000 => Some(AmoOp::Add),
        0b00100 => Some(AmoOp::Xor),
        0b01100 => Some(AmoOp::And),
        0b01000 => Some(AmoOp::Or),
        0b10000 => Some(AmoOp::Min),
        0b10100 => Some(AmoOp::Max),
        0b11000 => Some(AmoOp::Minu),
        0b11100 => Some(AmoOp::Maxu),
        _ => None,
    }
}
