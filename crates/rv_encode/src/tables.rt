//! What the words of each operation have in their fixed fields.
ghost use Rattle.std.specs.Prelude.{◌≡◌, ◌<◌, [], ◌∷◌};
ghost use Rattle.rv_isa.specs.Rows.{code, f3, f5, f7, alu_row, imm_row, branch_row, load_row, amo_row};

use rv_isa::instr::{AluOp, AmoOp, Cond, ImmOp, Width};

/// The opcode, funct3 and funct7.
pub fn alu_fields(op: AluOp) -> (u32, u32, u32)
    ensures row { alu_row op ≡ f7 result.2 ∷ f3 result.1 ∷ code result.0 ∷ [] }
    ensures code { result.0 < 128 }
    ensures f3 { result.1 < 8 }
    ensures f7 { result.2 < 128 }
{
    match op {
        AluOp::Add => (0x33, 0, 0),
        AluOp::Sub => (0x33, 0, 0x20),
        AluOp::Sll => (0x33, 1, 0),
        AluOp::Slt => (0x33, 2, 0),
        AluOp::Sltu => (0x33, 3, 0),
        AluOp::Xor => (0x33, 4, 0),
        AluOp::Srl => (0x33, 5, 0),
        AluOp::Sra => (0x33, 5, 0x20),
        AluOp::Or => (0x33, 6, 0),
        AluOp::And => (0x33, 7, 0),
        AluOp::Mul => (0x33, 0, 1),
        AluOp::Mulh => (0x33, 1, 1),
        AluOp::Mulhsu => (0x33, 2, 1),
        AluOp::Mulhu => (0x33, 3, 1),
        AluOp::Div => (0x33, 4, 1),
        AluOp::Divu => (0x33, 5, 1),
        AluOp::Rem => (0x33, 6, 1),
        AluOp::Remu => (0x33, 7, 1),
        AluOp::Addw => (0x3b, 0, 0),
        AluOp::Subw => (0x3b, 0, 0x20),
        AluOp::Sllw => (0x3b, 1, 0),
        AluOp::Srlw => (0x3b, 5, 0),
        AluOp::Sraw => (0x3b, 5, 0x20),
        AluOp::Mulw => (0x3b, 0, 1),
        AluOp::Divw => (0x3b, 4, 1),
        AluOp::Divuw => (0x3b, 5, 1),
        AluOp::Remw => (0x3b, 6, 1),
        AluOp::Remuw => (0x3b, 7, 1),
    }
}

/// The opcode and funct3.
pub fn imm_fields(op: ImmOp) -> (u32, u32)
    ensures row { imm_row op ≡ f3 result.1 ∷ code result.0 ∷ [] }
    ensures code { result.0 < 128 }
    ensures f3 { result.1 < 8 }
{
    match op {
        ImmOp::Addi => (0x13, 0),
        ImmOp::Slti => (0x13, 2),
        ImmOp::Sltiu => (0x13, 3),
        ImmOp::Xori => (0x13, 4),
        ImmOp::Ori => (0x13, 6),
        ImmOp::Andi => (0x13, 7),
        ImmOp::Addiw => (0x1b, 0),
    }
}

/// The funct3 of a branch.
pub fn cond_field(cond: Cond) -> u32
    ensures row { branch_row cond ≡ f3 result ∷ code 0x63 ∷ [] }
    ensures f3 { result < 8 }
{
    match cond {
        Cond::Eq => 0,
        Cond::Ne => 1,
        Cond::Lt => 4,
        Cond::Ge => 5,
        Cond::Ltu => 6,
        Cond::Geu => 7,
    }
}

/// The funct3 of a load, and of a store of the first four.
pub fn width_field(width: Width) -> u32
    ensures row { load_row width ≡ f3 result ∷ code 0x03 ∷ [] }
    ensures f3 { result < 8 }
{
    match width {
        Width::B => 0,
        Width::H => 1,
        Width::W => 2,
        Width::D => 3,
        Width::Bu => 4,
        Width::Hu => 5,
        Width::Wu => 6,
    }
}

/// Bits 31 to 27 of an operation on memory.
pub fn amo_field(op: AmoOp) -> u32
    ensures row { amo_row op ≡ f5 result ∷ code 0x2f ∷ [] }
    ensures f5 { result < 32 }
{
    match op {
        AmoOp::Swap => 0b00001,
        AmoOp::Add => 0b00000,
        AmoOp::Xor => 0b00100,
        AmoOp::And => 0b01100,
        AmoOp::Or => 0b01000,
        AmoOp::Min => 0b10000,
        AmoOp::Max => 0b10100,
        AmoOp::Minu => 0b11000,
        AmoOp::Maxu => 0b11100,
    }
}
