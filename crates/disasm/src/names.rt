//! The names of instructions.

ghost use Rattle.std.specs.Prelude.{◌≡◌};
ghost use Rattle.disasm.specs.Shown.{alu_name, imm_name, shift_name, branch_name, load_name, store_name, amo_name, wide_name};

use rv_isa::instr::{AluOp, AmoOp, Cond, ImmOp, ShiftOp, Width};

pub fn alu_name(op: AluOp) -> &'static str
    ensures { result.now ≡ alu_name op }
{
    match op {
        AluOp::Add => "add",
        AluOp::Sub => "sub",
        AluOp::Sll => "sll",
        AluOp::Slt => "slt",
        AluOp::Sltu => "sltu",
        AluOp::Xor => "xor",
        AluOp::Srl => "srl",
        AluOp::Sra => "sra",
        AluOp::Or => "or",
        AluOp::And => "and",
        AluOp::Mul => "mul",
        AluOp::Mulh => "mulh",
        AluOp::Mulhsu => "mulhsu",
        AluOp::Mulhu => "mulhu",
        AluOp::Div => "div",
        AluOp::Divu => "divu",
        AluOp::Rem => "rem",
        AluOp::Remu => "remu",
        AluOp::Addw => "addw",
        AluOp::Subw => "subw",
        AluOp::Sllw => "sllw",
        AluOp::Srlw => "srlw",
        AluOp::Sraw => "sraw",
        AluOp::Mulw => "mulw",
        AluOp::Divw => "divw",
        AluOp::Divuw => "divuw",
        AluOp::Remw => "remw",
        AluOp::Remuw => "remuw",
    }
}

pub fn imm_name(op: ImmOp) -> &'static str
    ensures { result.now ≡ imm_name op }
{
    match op {
        ImmOp::Addi => "addi",
        ImmOp::Slti => "slti",
        ImmOp::Sltiu => "sltiu",
        ImmOp::Xori => "xori",
        ImmOp::Ori => "ori",
        ImmOp::Andi => "andi",
        ImmOp::Addiw => "addiw",
    }
}

pub fn shift_name(op: ShiftOp) -> &'static str
    ensures { result.now ≡ shift_name op }
{
    match op {
        ShiftOp::Slli => "slli",
        ShiftOp::Srli => "srli",
        ShiftOp::Srai => "srai",
        ShiftOp::Slliw => "slliw",
        ShiftOp::Srliw => "srliw",
        ShiftOp::Sraiw => "sraiw",
    }
}

pub fn branch_name(cond: Cond) -> &'static str
    ensures { result.now ≡ branch_name cond }
{
    match cond {
        Cond::Eq => "beq",
        Cond::Ne => "bne",
        Cond::Lt => "blt",
        Cond::Ge => "bge",
        Cond::Ltu => "bltu",
        Cond::Geu => "bgeu",
    }
}

pub fn load_name(width: Width) -> &'static str
    ensures { result.now ≡ load_name width }
{
    match width {
        Width::B => "lb",
        Width::H => "lh",
        Width::W => "lw",
        Width::D => "ld",
        Width::Bu => "lbu",
        Width::Hu => "lhu",
        Width::Wu => "lwu",
    }
}

pub fn store_name(width: Width) -> &'static str
    ensures { result.now ≡ store_name width }
{
    match width {
        Width::B => "sb",
        Width::H => "sh",
        Width::W => "sw",
        Width::D | Width::Bu | Width::Hu | Width::Wu => "sd",
    }
}

pub fn amo_name(op: AmoOp) -> &'static str
    ensures { result.now ≡ amo_name op }
{
    match op {
        AmoOp::Swap => "amoswap",
        AmoOp::Add => "amoadd",
        AmoOp::Xor => "amoxor",
        AmoOp::And => "amoand",
        AmoOp::Or => "amoor",
        AmoOp::Min => "amomin",
        AmoOp::Max => "amomax",
        AmoOp::Minu => "amominu",
        AmoOp::Maxu => "amomaxu",
    }
}

pub fn wide_name(wide: bool) -> &'static str
    ensures { result.now ≡ wide_name wide }
{
    if wide { ".d" } else { ".w" }
}
