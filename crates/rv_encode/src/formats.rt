//! The instruction formats: a word is made of its fields, each at its place.
ghost use Rattle.std.specs.Prelude.{◌≡◌, ◌<◌, ◌+◌, ◌*◌, ◌^◌, ◌%◌};
ghost use Rattle.rv_isa.specs.Word.{bits, opcode, rd_of, funct3, rs1_of, rs2_of, funct7};

use rv_isa::fields::Reg;

/// R: three registers.
pub fn r_type(code: u32, rd: Reg, f3: u32, rs1: Reg, rs2: Reg, f7: u32) -> u32
    requires code { code < 128 }
    requires f3 { f3 < 8 }
    requires f7 { f7 < 128 }
    ensures code { opcode result ≡ code }
    ensures rd { rd_of result ≡ rd }
    ensures f3 { funct3 result ≡ f3 }
    ensures rs1 { rs1_of result ≡ rs1 }
    ensures rs2 { rs2_of result ≡ rs2 }
    ensures f7 { funct7 result ≡ f7 }
{
    code | (u32::from(rd.get()) << 7)
        | (f3 << 12)
        | (u32::from(rs1.get()) << 15)
        | (u32::from(rs2.get()) << 20)
        | (f7 << 25)
}

/// I: two registers and an immediate of 12 bits.
pub fn i_type(code: u32, rd: Reg, f3: u32, rs1: Reg, imm: u32) -> u32
    requires code { code < 128 }
    requires f3 { f3 < 8 }
    requires imm { imm < 2 ^ 12 }
    ensures code { opcode result ≡ code }
    ensures rd { rd_of result ≡ rd }
    ensures f3 { funct3 result ≡ f3 }
    ensures rs1 { rs1_of result ≡ rs1 }
    ensures imm { bits result 31 20 ≡ imm }
{
    code | (u32::from(rd.get()) << 7) | (f3 << 12) | (u32::from(rs1.get()) << 15) | (imm << 20)
}

/// S: a store.
pub fn s_type(code: u32, f3: u32, rs1: Reg, rs2: Reg, imm: u32) -> u32
    requires code { code < 128 }
    requires f3 { f3 < 8 }
    requires imm { imm < 2 ^ 12 }
    ensures code { opcode result ≡ code }
    ensures f3 { funct3 result ≡ f3 }
    ensures rs1 { rs1_of result ≡ rs1 }
    ensures rs2 { rs2_of result ≡ rs2 }
    ensures imm { bits result 31 25 * 2 ^ 5 + bits result 11 7 ≡ imm }
{
    code | (imm % 32 << 7)
        | (f3 << 12)
        | (u32::from(rs1.get()) << 15)
        | (u32::from(rs2.get()) << 20)
        | (imm / 32 << 25)
}

/// B: a branch.
pub fn b_type(code: u32, f3: u32, rs1: Reg, rs2: Reg, imm: u32) -> u32
    requires code { code < 128 }
    requires f3 { f3 < 8 }
    requires imm { imm < 2 ^ 13 }
    requires even { imm % 2 ≡ 0 }
    ensures code { opcode result ≡ code }
    ensures f3 { funct3 result ≡ f3 }
    ensures rs1 { rs1_of result ≡ rs1 }
    ensures rs2 { rs2_of result ≡ rs2 }
    ensures imm { bits result 31 31 * 2 ^ 12 + bits result 7 7 * 2 ^ 11 + bits result 30 25 * 2 ^ 5
        + bits result 11 8 * 2 ^ 1 ≡ imm }
{
    code | (imm / 2048 % 2 << 7)
        | (imm / 2 % 16 << 8)
        | (f3 << 12)
        | (u32::from(rs1.get()) << 15)
        | (u32::from(rs2.get()) << 20)
        | (imm / 32 % 64 << 25)
        | (imm / 4096 << 31)
}

/// U: the upper 20 bits of a number.
pub fn u_type(code: u32, rd: Reg, imm: u32) -> u32
    requires code { code < 128 }
    requires imm { imm < 2 ^ 20 }
    ensures code { opcode result ≡ code }
    ensures rd { rd_of result ≡ rd }
    ensures imm { bits result 31 12 ≡ imm }
{
    code | (u32::from(rd.get()) << 7) | (imm << 12)
}

/// J: a jump.
pub fn j_type(code: u32, rd: Reg, imm: u32) -> u32
    requires code { code < 128 }
    requires imm { imm < 2 ^ 21 }
    requires even { imm % 2 ≡ 0 }
    ensures code { opcode result ≡ code }
    ensures rd { rd_of result ≡ rd }
    ensures imm { bits result 31 31 * 2 ^ 20 + bits result 19 12 * 2 ^ 12 + bits result 20 20 * 2 ^ 11
        + bits result 30 21 * 2 ^ 1 ≡ imm }
{
    code | (u32::from(rd.get()) << 7)
        | (imm / 4096 % 256 << 12)
        | (imm / 2048 % 2 << 20)
        | (imm / 2 % 1024 << 21)
        | (imm / 1048576 << 31)
}
