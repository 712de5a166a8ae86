//! The instructions that the guest is made of, by the names that assemblers give them.

ghost use Rattle.std.specs.Prelude.{◌≡◌};
ghost use Rattle.rv_isa.specs.Ranges.{IsShift, IsImm12, IsImm20, IsOffB, IsOffJ};
ghost use Rattle.rv_isa.specs.declared.instr.Width.{Width};
ghost use Rattle.guest_gen.specs.Instructions as is;

use asm_text::body::Encodable;
use rv_asm::code::Code;
use rv_isa::fields::{Imm12, Imm20, OffB, OffJ, Reg, Shift};
use rv_isa::instr::{AluOp, AmoOp, Cond, ImmOp, Instr, Order, ShiftOp, Width};

/// A register by the name that the ABI gives it.
#[derive(Clone, Copy, Debug, PartialEq, Eq)]
pub enum Register {
    Zero,
    Ra,
    Sp,
    T0,
    T1,
    T2,
    S0,
    S1,
    A0,
    A1,
    A2,
    A3,
    A4,
    A5,
    A7,
    S2,
    S3,
}

/// The register of this name.
pub fn reg(name: Register) -> Reg
    ensures { result ≡ is.number name }
{
    let number = match name {
        Register::Zero => 0,
        Register::Ra => 1,
        Register::Sp => 2,
        Register::T0 => 5,
        Register::T1 => 6,
        Register::T2 => 7,
        Register::S0 => 8,
        Register::S1 => 9,
        Register::A0 => 10,
        Register::A1 => 11,
        Register::A2 => 12,
        Register::A3 => 13,
        Register::A4 => 14,
        Register::A5 => 15,
        Register::A7 => 17,
        Register::S2 => 18,
        Register::S3 => 19,
    };
    Reg::new(number).unwrap()
}

/// An operation between two registers.
pub fn alu(op: AluOp, rd: Register, rs1: Register, rs2: Register) -> Code
    ensures { result ≡ is.alu op rd rs1 rs2 }
{
    let (rd, rs1, rs2) = (reg(rd), reg(rs1), reg(rs2));
    Code::Instruction(Encodable::new(Instr::Alu { op, rd, rs1, rs2 }))
}

fn alu_imm(op: ImmOp, rd: Register, rs1: Register, imm: i32) -> Code
    requires { IsImm12 imm }
    ensures { result ≡ is.alu_imm op rd rs1 imm }
{
    let (rd, rs1) = (reg(rd), reg(rs1));
    let imm = Imm12::new(imm).unwrap();
    Code::Instruction(Encodable::new(Instr::AluImm { op, rd, rs1, imm }))
}

pub fn addi(rd: Register, rs1: Register, imm: i32) -> Code
    requires { IsImm12 imm }
    ensures { result ≡ is.addi rd rs1 imm }
{
    alu_imm(ImmOp::Addi, rd, rs1, imm)
}

pub fn andi(rd: Register, rs1: Register, imm: i32) -> Code
    requires { IsImm12 imm }
    ensures { result ≡ is.andi rd rs1 imm }
{
    alu_imm(ImmOp::Andi, rd, rs1, imm)
}

/// Gives a register a small number.
pub fn li(rd: Register, imm: i32) -> Code
    requires { IsImm12 imm }
    ensures { result ≡ is.li rd imm }
{
    addi(rd, Register::Zero, imm)
}

/// Gives a register what another one holds.
pub fn mv(rd: Register, rs1: Register) -> Code
    ensures { result ≡ is.mv rd rs1 }
{
    addi(rd, rs1, 0)
}

pub fn slli(rd: Register, rs1: Register, by: i32) -> Code
    requires { IsShift by }
    ensures { result ≡ is.slli rd rs1 by }
{
    let (rd, rs1) = (reg(rd), reg(rs1));
    let by = Shift::new(by).unwrap();
    let op = ShiftOp::Slli;
    Code::Instruction(Encodable::new(Instr::ShiftImm { op, rd, rs1, by }))
}

/// Gives a register a multiple of 4096.
pub fn lui(rd: Register, imm: i32) -> Code
    requires { IsImm20 imm }
    ensures { result ≡ is.lui rd imm }
{
    let rd = reg(rd);
    let imm = Imm20::new(imm).unwrap();
    Code::Instruction(Encodable::new(Instr::Lui { rd, imm }))
}

pub fn load(width: Width, rd: Register, off: i32, rs1: Register) -> Code
    requires { IsImm12 off }
    ensures { result ≡ is.load width rd off rs1 }
{
    let (rd, rs1) = (reg(rd), reg(rs1));
    let off = Imm12::new(off).unwrap();
    Code::Instruction(Encodable::new(Instr::Load {
        width,
        rd,
        rs1,
        off,
    }))
}

/// Stores 8 bytes.
pub fn sd(rs2: Register, off: i32, rs1: Register) -> Code
    requires { IsImm12 off }
    ensures { result ≡ is.store Width.D rs2 off rs1 }
{
    let (rs1, rs2) = (reg(rs1), reg(rs2));
    let off = Imm12::new(off).unwrap();
    let width = Width::D;
    Code::Instruction(Encodable::new(Instr::Store {
        width,
        rs2,
        rs1,
        off,
    }))
}

/// Stores a byte.
pub fn sb(rs2: Register, off: i32, rs1: Register) -> Code
    requires { IsImm12 off }
    ensures { result ≡ is.store Width.B rs2 off rs1 }
{
    let (rs1, rs2) = (reg(rs1), reg(rs2));
    let off = Imm12::new(off).unwrap();
    let width = Width::B;
    Code::Instruction(Encodable::new(Instr::Store {
        width,
        rs2,
        rs1,
        off,
    }))
}

/// Adds a register to 8 bytes of memory at once.
pub fn amoadd(rs2: Register, rs1: Register) -> Code
    ensures { result ≡ is.amoadd rs2 rs1 }
{
    let (rd, rs1, rs2) = (reg(Register::Zero), reg(rs1), reg(rs2));
    let order = Order {
        aq: false,
        rl: false,
    };
    Code::Instruction(Encodable::new(Instr::Amo {
        op: AmoOp::Add,
        wide: true,
        order,
        rd,
        rs1,
        rs2,
    }))
}

/// A branch by so many bytes.
pub fn branch(cond: Cond, rs1: Register, rs2: Register, off: i32) -> Code
    requires { IsOffB off }
    ensures { result ≡ is.branch cond rs1 rs2 off }
{
    let (rs1, rs2) = (reg(rs1), reg(rs2));
    let off = OffB::new(off).unwrap();
    Code::Instruction(Encodable::new(Instr::Branch {
        cond,
        rs1,
        rs2,
        off,
    }))
}

/// A jump by so many bytes, which links where `rd` isn't x0.
pub fn jal(rd: Register, off: i32) -> Code
    requires { IsOffJ off }
    ensures { result ≡ is.jal rd off }
{
    let rd = reg(rd);
    let off = OffJ::new(off).unwrap();
    Code::Instruction(Encodable::new(Instr::Jal { rd, off }))
}

/// A jump to the address in a register, which links where `rd` isn't x0.
pub fn jalr(rd: Register, rs1: Register) -> Code
    ensures { result ≡ is.jalr rd rs1 }
{
    let (rd, rs1) = (reg(rd), reg(rs1));
    let off = Imm12::new(0).unwrap();
    Code::Instruction(Encodable::new(Instr::Jalr { rd, rs1, off }))
}

pub fn ret() -> Code
    ensures { result ≡ is.ret }
{
    jalr(Register::Zero, Register::Ra)
}

pub fn ecall() -> Code
    ensures { result ≡ is.ecall }
{
    Code::Instruction(Encodable::new(Instr::Ecall))
}
