//! Statements of instructions.

ghost use Rattle.std.specs.Prelude.{◌≡◌, ◌++◌, ◌∷◌, [], codes, string_bytes, OnOk, pos};
ghost use Rattle.disasm.specs.Shown.{Operand, register, number, hexadecimal, based, base, register_text, hex_text, base_text, operand_text, statement, word_text, is_full, target_from, instruction_text, amo_name, wide_name};

use crate::names::{
    alu_name, amo_name, branch_name, imm_name, load_name, shift_name, store_name, wide_name,
};
use oc_base::fault::NoMemory;
use rv_isa::fields::{Imm12, Reg};
use rv_isa::instr::Instr;
use std::fmt::Write;

fn push_register(text: &mut String, reg: Reg) -> Result<(), NoMemory>
    ensures { OnOk result (string_bytes text.new ≡ string_bytes text.old ++ register_text reg) }
{
    let n = reg.get();
    write!(text, "x{n}")?;
    Ok(())
}

fn push_base(text: &mut String, reg: Reg) -> Result<(), NoMemory>
    ensures { OnOk result (string_bytes text.new ≡ string_bytes text.old ++ base_text reg) }
{
    let n = reg.get();
    write!(text, "(x{n})")?;
    Ok(())
}

fn push_hex(text: &mut String, value: u64) -> Result<(), NoMemory>
    ensures { OnOk result (string_bytes text.new ≡ string_bytes text.old ++ hex_text value) }
{
    text.push_str("0x")?;
    write!(text, "{value:x}")?;
    Ok(())
}

fn push_number(text: &mut String, value: i32) -> Result<(), NoMemory>
    ensures { OnOk result (string_bytes text.new ≡ string_bytes text.old ++ operand_text (number value)) }
{
    write!(text, "{value}")?;
    Ok(())
}

/// Adds the statement that gives a word as it is.
pub fn push_word(text: &mut String, word: u32) -> Result<(), NoMemory>
    ensures { OnOk result (string_bytes text.new ≡ string_bytes text.old ++ word_text word) }
{
    text.push_str(".word ")?;
    push_hex(text, u64::from(word))
}

// NAME rd, rs1, rs2
fn push_registers(
    text: &mut String,
    name: &str,
    rd: Reg,
    rs1: Reg,
    rs2: Reg,
) -> Result<(), NoMemory>
    ensures { OnOk result (string_bytes text.new ≡ string_bytes text.old ++ statement name.now (register rd ∷ register rs1 ∷ register rs2 ∷ [])) }
{
    text.push_str(name)?;
    text.push(' ')?;
    push_register(text, rd)?;
    text.push_str(", ")?;
    push_register(text, rs1)?;
    text.push_str(", ")?;
    push_register(text, rs2)
}

// NAME rd, rs1, n
fn push_immediate(
    text: &mut String,
    name: &str,
    rd: Reg,
    rs1: Reg,
    value: i32,
) -> Result<(), NoMemory>
    ensures { OnOk result (string_bytes text.new ≡ string_bytes text.old ++ statement name.now (register rd ∷ register rs1 ∷ number value ∷ [])) }
{
    text.push_str(name)?;
    text.push(' ')?;
    push_register(text, rd)?;
    text.push_str(", ")?;
    push_register(text, rs1)?;
    text.push_str(", ")?;
    push_number(text, value)
}

// NAME rd, 0xn
fn push_far(text: &mut String, name: &str, rd: Reg, value: u64) -> Result<(), NoMemory>
    ensures { OnOk result (string_bytes text.new ≡ string_bytes text.old ++ statement name.now (register rd ∷ hexadecimal value ∷ [])) }
{
    text.push_str(name)?;
    text.push(' ')?;
    push_register(text, rd)?;
    text.push_str(", ")?;
    push_hex(text, value)
}

// NAME rs1, rs2, 0xn
fn push_test(text: &mut String, name: &str, rs1: Reg, rs2: Reg, to: u64) -> Result<(), NoMemory>
    ensures { OnOk result (string_bytes text.new ≡ string_bytes text.old ++ statement name.now (register rs1 ∷ register rs2 ∷ hexadecimal to ∷ [])) }
{
    text.push_str(name)?;
    text.push(' ')?;
    push_register(text, rs1)?;
    text.push_str(", ")?;
    push_register(text, rs2)?;
    text.push_str(", ")?;
    push_hex(text, to)
}

// NAME r, n(rs1)
fn push_access(text: &mut String, name: &str, reg: Reg, off: i32, rs1: Reg) -> Result<(), NoMemory>
    ensures { OnOk result (string_bytes text.new ≡ string_bytes text.old ++ statement name.now (register reg ∷ based off rs1 ∷ [])) }
{
    text.push_str(name)?;
    text.push(' ')?;
    push_register(text, reg)?;
    text.push_str(", ")?;
    push_number(text, off)?;
    push_base(text, rs1)
}

// lr.w rd, (rs1)
fn push_lr(text: &mut String, wide: bool, rd: Reg, rs1: Reg) -> Result<(), NoMemory>
    ensures { OnOk result (string_bytes text.new ≡ string_bytes text.old ++ statement (codes "lr" ++ wide_name wide) (register rd ∷ base rs1 ∷ [])) }
{
    text.push_str("lr")?;
    text.push_str(wide_name(wide))?;
    text.push(' ')?;
    push_register(text, rd)?;
    text.push_str(", ")?;
    push_base(text, rs1)
}

// NAME.w rd, rs2, (rs1)
fn push_atomic(
    text: &mut String,
    name: &str,
    wide: bool,
    rd: Reg,
    rs2: Reg,
    rs1: Reg,
) -> Result<(), NoMemory>
    ensures { OnOk result (string_bytes text.new ≡ string_bytes text.old ++ statement (name.now ++ wide_name wide) (register rd ∷ register rs2 ∷ base rs1 ∷ [])) }
{
    text.push_str(name)?;
    text.push_str(wide_name(wide))?;
    text.push(' ')?;
    push_register(text, rd)?;
    text.push_str(", ")?;
    push_register(text, rs2)?;
    text.push_str(", ")?;
    push_base(text, rs1)
}

// The address that is so far from this one, if it is an address.
#[tactic(auto, unfolding(crate::specs::Shown::target_from))]
fn target_from(at: u64, off: i32) -> Option<u64>
    ensures { result ≡ target_from at off }
{
    let to = i128::from(at) + i128::from(off);
    if to < 0 || !(to < (1 << 64)) {
        return None;
    }
    Some(to as u64)
}

fn is_full(rd: Reg, rs1: Reg, imm: Imm12) -> bool
    ensures { result ≡ is_full rd rs1 imm }
{
    rd.get() == 0 && (rs1.get() == 0 && (!(imm.get() < 0) && imm.get().unsigned_abs() == 255))
}

/// Adds the statement of an instruction at an address, whose word this is.
#[tactic(auto, unfolding(crate::specs::Shown::instruction_text))]
pub fn push_instruction(
    text: &mut String,
    word: u32,
    at: u64,
    instr: &Instr,
) -> Result<(), NoMemory>
    ensures { OnOk result (string_bytes text.new ≡ string_bytes text.old ++ instruction_text word at instr.now) }
{
    match *instr {
        Instr::Alu { op, rd, rs1, rs2 } => push_registers(text, alu_name(op), rd, rs1, rs2),
        Instr::AluImm { op, rd, rs1, imm } => push_immediate(
            text,
            imm_name(op),
            rd,
            rs1,
            imm.get(),
        ),
        Instr::ShiftImm { op, rd, rs1, by } => push_immediate(
            text,
            shift_name(op),
            rd,
            rs1,
            by.get(),
        ),
        Instr::Lui { rd, imm } => push_far(text, "lui", rd, imm.get() as u64),
        Instr::Auipc { rd, imm } => push_far(text, "auipc", rd, imm.get() as u64),
        Instr::Jal { rd, off } => match target_from(at, off.get()) {
            Some(to) => push_far(text, "jal", rd, to),
            None => push_word(text, word),
        },
        Instr::Jalr { rd, rs1, off } => push_access(text, "jalr", rd, off.get(), rs1),
        Instr::Branch {
            cond,
            rs1,
            rs2,
            off,
        } => match target_from(at, off.get()) {
            Some(to) => push_test(text, branch_name(cond), rs1, rs2, to),
            None => push_word(text, word),
        },
        Instr::Load {
            width,
            rd,
            rs1,
            off,
        } => push_access(text, load_name(width), rd, off.get(), rs1),
        Instr::Store {
            width,
            rs2,
            rs1,
            off,
        } => push_access(text, store_name(width), rs2, off.get(), rs1),
        Instr::Lr {
            wide,
            order,
            rd,
            rs1,
        } => {
            if order.aq || order.rl {
                push_word(text, word)
            } else {
                push_lr(text, wide, rd, rs1)
            }
        }
        Instr::Sc {
            wide,
            order,
            rd,
            rs1,
            rs2,
        } => {
            if order.aq || order.rl {
                push_word(text, word)
            } else {
                push_atomic(text, "sc", wide, rd, rs2, rs1)
            }
        }
        Instr::Amo {
            op,
            wide,
            order,
            rd,
            rs1,
            rs2,
        } => {
            if order.aq || order.rl {
                push_word(text, word)
            } else {
                push_atomic(text, amo_name(op), wide, rd, rs2, rs1)
            }
        }
        Instr::Fence { rd, rs1, imm } => {
            if is_full(rd, rs1, imm) {
                text.push_str("fence")?;
                Ok(())
            } else {
                push_word(text, word)
            }
        }
        Instr::Ecall => {
            text.push_str("ecall")?;
            Ok(())
        }
        Instr::Ebreak => {
            text.push_str("ebreak")?;
            Ok(())
        }
    }
}
