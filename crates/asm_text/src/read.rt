//! From a statement's name and operands to what it says.

ghost use Rattle.std.specs.Prelude.{◌≡◌, ◌≤◌, ◌^◌, ℤ, pos, neg_ℤ, ◌≤ℤ◌, unsigned_abs, map, length, IfOk, IfSome, Some, None, true};
ghost use Rattle.std.specs.Option.{option_map};
ghost use Rattle.asm_text.specs.Bodies.{is_within, of_bits, wrapped, signed_12, unsigned_20, most_of, amount_of, a_word, alu_of, imm_of, shift_of, branch_of, load_of, store_of, jalr_of, lr_of, sc_of, amo_of, lui_of, auipc_of, jal_of, word_of, byte_of, dword_of, nops_of, space_of, call_of, func_of, entry_of, object_of, slot_of, ascii_of, fixed_of, arity, read_as, read};
ghost use Rattle.asm_text.specs.Keywords.{IsGiven};
ghost use Rattle.rv_isa.specs.Instr.{HasWord, IsStoreWidth};

use crate::body::{Body, Encodable};
use crate::keyword::{Keyword, Section, section_of};
use crate::operand::{base_in, based_in, name_in, number_in, register_in, target_in, text_in};
use crate::token::Token;
use oc_base::fault::NoMemory;
use oc_base::items::Items;
use rv_isa::fields::{Imm12, Imm20, Reg, Shift};
use rv_isa::instr::{AluOp, AmoOp, Cond, ImmOp, Instr, Order, ShiftOp, Width};
use std::alloc::Global;

fn is_within(lo: i128, hi: i128, value: i128) -> bool
    ensures { result ≡ is_within lo hi value }
{
    !(value < lo) && !(hi < value)
}

fn signed_12(value: i128) -> Option<Imm12>
    ensures { result ≡ signed_12 value }
{
    if !is_within(-2048, 2047, value) {
        return None;
    }
    Imm12::new(value as i32)
}

fn unsigned_20(value: i128) -> Option<Imm20>
    ensures { result ≡ unsigned_20 value }
{
    if !is_within(0, 1048575, value) {
        return None;
    }
    Imm20::new(value as i32)
}

fn most_of(op: ShiftOp) -> i128
    ensures { result ≡ pos (most_of op) }
{
    match op {
        ShiftOp::Slliw | ShiftOp::Srliw | ShiftOp::Sraiw => 31,
        _ => 63,
    }
}

fn amount_of(op: ShiftOp, value: i128) -> Option<Shift>
    ensures amount { result ≡ amount_of op value }
    ensures most { IfSome result (λ by. by ≤ most_of op) }
{
    if !is_within(0, most_of(op), value) {
        return None;
    }
    Shift::new(value as i32)
}

fn byte_bits(value: i128) -> Option<u8>
    ensures { result ≡ of_bits 8 value }
{
    if !is_within(-(1 << 7), (1 << 8) - 1, value) {
        return None;
    }
    Some(if value < 0 { value + (1 << 8) } else { value } as u8)
}

fn word_bits(value: i128) -> Option<u32>
    ensures { result ≡ of_bits 32 value }
{
    if !is_within(-(1 << 31), (1 << 32) - 1, value) {
        return None;
    }
    Some(if value < 0 { value + (1 << 32) } else { value } as u32)
}

fn dword_bits(value: i128) -> Option<u64>
    ensures { result ≡ of_bits 64 value }
{
    if !is_within(-(1 << 63), (1 << 64) - 1, value) {
        return None;
    }
    Some(if value < 0 { value + (1 << 64) } else { value } as u64)
}

fn a_word(instr: Option<Instr>) -> Body
    requires { IfSome instr HasWord }
    ensures { result ≡ a_word instr }
{
    match instr {
        Some(instr) => Body::Instr(Encodable::new(instr)),
        None => Body::OutOfRange {
            section: Some(Section::Text),
            size: 4,
        },
    }
}

#[tactic(auto, unfolding(crate::specs::Bodies::alu_of))]
fn alu_of(op: AluOp, ops: &[&[Token]]) -> Option<Body>
    requires { length ops.now ≡ 3 }
    ensures { result ≡ alu_of op (map (λ o. o.now) ops.now) }
{
    let rd = register_in(ops[0])?;
    let rs1 = register_in(ops[1])?;
    let rs2 = register_in(ops[2])?;
    Some(Body::Instr(Encodable::new(Instr::Alu { op, rd, rs1, rs2 })))
}

#[tactic(auto, unfolding(crate::specs::Bodies::imm_of))]
fn imm_of(op: ImmOp, ops: &[&[Token]]) -> Option<Body>
    requires { length ops.now ≡ 3 }
    ensures { result ≡ imm_of op (map (λ o. o.now) ops.now) }
{
    let rd = register_in(ops[0])?;
    let rs1 = register_in(ops[1])?;
    let value = number_in(ops[2])?;
    match signed_12(value) {
        Some(imm) => Some(a_word(Some(Instr::AluImm { op, rd, rs1, imm }))),
        None => Some(a_word(None)),
    }
}

#[tactic(auto, unfolding(crate::specs::Bodies::shift_of))]
fn shift_of(op: ShiftOp, ops: &[&[Token]]) -> Option<Body>
    requires { length ops.now ≡ 3 }
    ensures { result ≡ shift_of op (map (λ o. o.now) ops.now) }
{
    let rd = register_in(ops[0])?;
    let rs1 = register_in(ops[1])?;
    let value = number_in(ops[2])?;
    match amount_of(op, value) {
        Some(by) => Some(a_word(Some(Instr::ShiftImm { op, rd, rs1, by }))),
        None => Some(a_word(None)),
    }
}

#[tactic(auto, unfolding(crate::specs::Bodies::branch_of))]
fn branch_of(alloc: Global, cond: Cond, ops: &[&[Token]]) -> Result<Option<Body>, NoMemory>
    requires { length ops.now ≡ 3 }
    ensures { IfOk result (λ body. body ≡ branch_of cond (map (λ o. o.now) ops.now)) }
{
    let Some(rs1) = register_in(ops[0]) else {
        return Ok(None);
    };
    let Some(rs2) = register_in(ops[1]) else {
        return Ok(None);
    };
    match target_in(alloc, ops[2])? {
        Some(target) => Ok(Some(Body::Branch {
            cond,
            rs1,
            rs2,
            target,
        })),
        None => Ok(None),
    }
}

#[tactic(auto, unfolding(crate::specs::Bodies::load_of))]
fn load_of(width: Width, ops: &[&[Token]]) -> Option<Body>
    requires { length ops.now ≡ 2 }
    ensures { result ≡ load_of width (map (λ o. o.now) ops.now) }
{
    let rd = register_in(ops[0])?;
    let (value, rs1) = based_in(ops[1])?;
    match signed_12(value) {
        Some(off) => Some(a_word(Some(Instr::Load {
            width,
            rd,
            rs1,
            off,
        }))),
        None => Some(a_word(None)),
    }
}

#[tactic(auto, unfolding(crate::specs::Bodies::store_of))]
fn store_of(width: Width, ops: &[&[Token]]) -> Option<Body>
    requires width { IsStoreWidth width }
    requires operands { length ops.now ≡ 2 }
    ensures { result ≡ store_of width (map (λ o. o.now) ops.now) }
{
    let rs2 = register_in(ops[0])?;
    let (value, rs1) = based_in(ops[1])?;
    match signed_12(value) {
        Some(off) => Some(a_word(Some(Instr::Store {
            width,
            rs2,
            rs1,
            off,
        }))),
        None => Some(a_word(None)),
    }
}

#[tactic(auto, unfolding(crate::specs::Bodies::jalr_of))]
fn jalr_of(ops: &[&[Token]]) -> Option<Body>
    requires { length ops.now ≡ 2 }
    ensures { result ≡ jalr_of (map (λ o. o.now) ops.now) }
{
    let rd = register_in(ops[0])?;
    let (value, rs1) = based_in(ops[1])?;
    match signed_12(value) {
        Some(off) => Some(a_word(Some(Instr::Jalr { rd, rs1, off }))),
        None => Some(a_word(None)),
    }
}

/// The bits aq and rl of an atomic instruction are zero.
const NO_ORDER: Order = Order {
    aq: false,
    rl: false,
};

#[tactic(auto, unfolding(crate::specs::Bodies::lr_of))]
fn lr_of(wide: bool, ops: &[&[Token]]) -> Option<Body>
    requires { length ops.now ≡ 2 }
    ensures { result ≡ lr_of wide (map (λ o. o.now) ops.now) }
{
    let rd = register_in(ops[0])?;
    let rs1 = base_in(ops[1])?;
    Some(Body::Instr(Encodable::new(Instr::Lr {
        wide,
        order: NO_ORDER,
        rd,
        rs1,
    })))
}

#[tactic(auto, unfolding(crate::specs::Bodies::sc_of))]
fn sc_of(wide: bool, ops: &[&[Token]]) -> Option<Body>
    requires { length ops.now ≡ 3 }
    ensures { result ≡ sc_of wide (map (λ o. o.now) ops.now) }
{
    let rd = register_in(ops[0])?;
    let rs2 = register_in(ops[1])?;
    let rs1 = base_in(ops[2])?;
    Some(Body::Instr(Encodable::new(Instr::Sc {
        wide,
        order: NO_ORDER,
        rd,
        rs1,
        rs2,
    })))
}

#[tactic(auto, unfolding(crate::specs::Bodies::amo_of))]
fn amo_of(op: AmoOp, wide: bool, ops: &[&[Token]]) -> Option<Body>
    requires { length ops.now ≡ 3 }
    ensures { result ≡ amo_of op wide (map (λ o. o.now) ops.now) }
{
    let rd = register_in(ops[0])?;
    let rs2 = register_in(ops[1])?;
    let rs1 = base_in(ops[2])?;
    Some(Body::Instr(Encodable::new(Instr::Amo {
        op,
        wide,
        order: NO_ORDER,
        rd,
        rs1,
        rs2,
    })))
}

#[tactic(auto, unfolding(crate::specs::Bodies::lui_of))]
fn lui_of(ops: &[&[Token]]) -> Option<Body>
    requires { length ops.now ≡ 2 }
    ensures { result ≡ lui_of (map (λ o. o.now) ops.now) }
{
    let rd = register_in(ops[0])?;
    let value = number_in(ops[1])?;
    match unsigned_20(value) {
        Some(imm) => Some(a_word(Some(Instr::Lui { rd, imm }))),
        None => Some(a_word(None)),
    }
}

#[tactic(auto, unfolding(crate::specs::Bodies::auipc_of))]
fn auipc_of(ops: &[&[Token]]) -> Option<Body>
    requires { length ops.now ≡ 2 }
    ensures { result ≡ auipc_of (map (λ o. o.now) ops.now) }
{
    let rd = register_in(ops[0])?;
    let value = number_in(ops[1])?;
    match unsigned_20(value) {
        Some(imm) => Some(a_word(Some(Instr::Auipc { rd, imm }))),
        None => Some(a_word(None)),
    }
}

#[tactic(auto, unfolding(crate::specs::Bodies::jal_of))]
fn jal_of(alloc: Global, ops: &[&[Token]]) -> Result<Option<Body>, NoMemory>
    requires { length ops.now ≡ 2 }
    ensures { IfOk result (λ body. body ≡ jal_of (map (λ o. o.now) ops.now)) }
{
    let Some(rd) = register_in(ops[0]) else {
        return Ok(None);
    };
    match target_in(alloc, ops[1])? {
        Some(target) => Ok(Some(Body::Jal { rd, target })),
        None => Ok(None),
    }
}

#[tactic(auto, unfolding(crate::specs::Bodies::word_of))]
fn word_of(ops: &[&[Token]]) -> Option<Body>
    requires { length ops.now ≡ 1 }
    ensures { result ≡ word_of (map (λ o. o.now) ops.now) }
{
    let value = number_in(ops[0])?;
    match word_bits(value) {
        Some(word) => Some(Body::Word(word)),
        None => Some(Body::OutOfRange {
            section: None,
            size: 4,
        }),
    }
}

#[tactic(auto, unfolding(crate::specs::Bodies::byte_of))]
fn byte_of(alloc: Global, ops: &[&[Token]]) -> Result<Option<Body>, NoMemory>
    requires { length ops.now ≡ 1 }
    ensures { IfOk result (λ body. body ≡ byte_of (map (λ o. o.now) ops.now)) }
{
    let Some(value) = number_in(ops[0]) else {
        return Ok(None);
    };
    match byte_bits(value) {
        Some(byte) => Ok(Some(Body::Bytes(Items::from_slice(alloc, &[byte])?))),
        None => Ok(Some(Body::OutOfRange {
            section: Some(Section::Data),
            size: 1,
        })),
    }
}

#[tactic(auto, unfolding(crate::specs::Bodies::dword_of))]
fn dword_of(alloc: Global, ops: &[&[Token]]) -> Result<Option<Body>, NoMemory>
    requires { length ops.now ≡ 1 }
    ensures { IfOk result (λ body. body ≡ dword_of (map (λ o. o.now) ops.now)) }
{
    let Some(value) = number_in(ops[0]) else {
        return Ok(None);
    };
    match dword_bits(value) {
        Some(dword) => Ok(Some(Body::Bytes(Items::from_slice(alloc, &dword.to_le_bytes())?))),
        None => Ok(Some(Body::OutOfRange {
            section: Some(Section::Data),
            size: 8,
        })),
    }
}

#[tactic(auto, unfolding(crate::specs::Bodies::nops_of))]
fn nops_of(ops: &[&[Token]]) -> Option<Body>
    requires { length ops.now ≡ 1 }
    ensures { result ≡ nops_of (map (λ o. o.now) ops.now) }
{
    let count = number_in(ops[0])?;
    if count < 0 {
        return Some(Body::OutOfRange {
            section: Some(Section::Text),
            size: 0,
        });
    }
    Some(Body::Nops(count as u128))
}

#[tactic(auto, unfolding(crate::specs::Bodies::space_of))]
fn space_of(ops: &[&[Token]]) -> Option<Body>
    requires { length ops.now ≡ 1 }
    ensures { result ≡ space_of (map (λ o. o.now) ops.now) }
{
    let count = number_in(ops[0])?;
    if count < 0 {
        return Some(Body::OutOfRange {
            section: Some(Section::Data),
            size: 0,
        });
    }
    Some(Body::Space(count as u128))
}

/// How many operands a statement has.
fn arity(keyword: Keyword) -> usize
    ensures { result ≡ arity keyword }
{
    match keyword {
        Keyword::Fence
        | Keyword::Ecall
        | Keyword::Ebreak
        | Keyword::Nop
        | Keyword::Ret
        | Keyword::ToText
        | Keyword::ToData
        | Keyword::End
        | Keyword::EndObject => 0,
        Keyword::Load(_)
        | Keyword::Store(_)
        | Keyword::Lr { .. }
        | Keyword::Lui
        | Keyword::Auipc
        | Keyword::Jal
        | Keyword::Jalr => 2,
        Keyword::Alu(_)
        | Keyword::AluImm(_)
        | Keyword::Shift(_)
        | Keyword::Branch(_)
        | Keyword::Sc { .. }
        | Keyword::Amo { .. } => 3,
        _ => 1,
    }
}

#[tactic(auto, unfolding(crate::specs::Bodies::call_of))]
fn call_of(alloc: Global, ops: &[&[Token]]) -> Result<Option<Body>, NoMemory>
    requires { length ops.now ≡ 1 }
    ensures { IfOk result (λ body. body ≡ call_of (map (λ o. o.now) ops.now)) }
{
    match name_in(alloc, ops[0])? {
        Some(name) => Ok(Some(Body::Call(name))),
        None => Ok(None),
    }
}

#[tactic(auto, unfolding(crate::specs::Bodies::func_of))]
fn func_of(alloc: Global, ops: &[&[Token]]) -> Result<Option<Body>, NoMemory>
    requires { length ops.now ≡ 1 }
    ensures { IfOk result (λ body. body ≡ func_of (map (λ o. o.now) ops.now)) }
{
    match name_in(alloc, ops[0])? {
        Some(name) => Ok(Some(Body::Func(name))),
        None => Ok(None),
    }
}

#[tactic(auto, unfolding(crate::specs::Bodies::entry_of))]
fn entry_of(alloc: Global, ops: &[&[Token]]) -> Result<Option<Body>, NoMemory>
    requires { length ops.now ≡ 1 }
    ensures { IfOk result (λ body. body ≡ entry_of (map (λ o. o.now) ops.now)) }
{
    match name_in(alloc, ops[0])? {
        Some(name) => Ok(Some(Body::Entry(name))),
        None => Ok(None),
    }
}

#[tactic(auto, unfolding(crate::specs::Bodies::object_of))]
fn object_of(alloc: Global, ops: &[&[Token]]) -> Result<Option<Body>, NoMemory>
    requires { length ops.now ≡ 1 }
    ensures { IfOk result (λ body. body ≡ object_of (map (λ o. o.now) ops.now)) }
{
    match name_in(alloc, ops[0])? {
        Some(name) => Ok(Some(Body::Object(name))),
        None => Ok(None),
    }
}

#[tactic(auto, unfolding(crate::specs::Bodies::slot_of))]
fn slot_of(alloc: Global, ops: &[&[Token]]) -> Result<Option<Body>, NoMemory>
    requires { length ops.now ≡ 1 }
    ensures { IfOk result (λ body. body ≡ slot_of (map (λ o. o.now) ops.now)) }
{
    match name_in(alloc, ops[0])? {
        Some(name) => Ok(Some(Body::Slot(name))),
        None => Ok(None),
    }
}

#[tactic(auto, unfolding(crate::specs::Bodies::ascii_of))]
fn ascii_of(alloc: Global, ops: &[&[Token]]) -> Result<Option<Body>, NoMemory>
    requires { length ops.now ≡ 1 }
    ensures { IfOk result (λ body. body ≡ ascii_of (map (λ o. o.now) ops.now)) }
{
    match text_in(alloc, ops[0])? {
        Some(bytes) => Ok(Some(Body::Bytes(bytes))),
        None => Ok(None),
    }
}

fn zero() -> Reg
    ensures { result ≡ 0 }
{
    Reg::new(0).unwrap()
}

/// An instruction without operands.
#[tactic(auto, unfolding(crate::specs::Bodies::fixed_of))]
fn fixed_of(keyword: Keyword) -> Option<Body>
    ensures { result ≡ fixed_of keyword }
{
    let instr = match keyword {
        Keyword::Fence => Instr::Fence {
            rd: zero(),
            rs1: zero(),
            imm: Imm12::new(0x0ff).unwrap(),
        },
        Keyword::Ecall => Instr::Ecall,
        Keyword::Ebreak => Instr::Ebreak,
        Keyword::Nop => Instr::AluImm {
            op: ImmOp::Addi,
            rd: zero(),
            rs1: zero(),
            imm: Imm12::new(0).unwrap(),
        },
        Keyword::Ret => Instr::Jalr {
            rd: zero(),
            rs1: Reg::new(1).unwrap(),
            off: Imm12::new(0).unwrap(),
        },
        _ => return None,
    };
    Some(Body::Instr(Encodable::new(instr)))
}

/// What a statement with so many operands says, where each of them has its form.
#[tactic(auto, unfolding(crate::specs::Bodies::read_as))]
fn read_as(alloc: Global, keyword: Keyword, ops: &[&[Token]]) -> Result<Option<Body>, NoMemory>
    requires store { IsGiven keyword }
    requires operands { length ops.now ≡ arity keyword }
    ensures { IfOk result (λ body. body ≡ read_as keyword (map (λ o. o.now) ops.now)) }
{
    match keyword {
        Keyword::Alu(op) => Ok(alu_of(op, ops)),
        Keyword::AluImm(op) => Ok(imm_of(op, ops)),
        Keyword::Shift(op) => Ok(shift_of(op, ops)),
        Keyword::Branch(cond) => branch_of(alloc, cond, ops),
        Keyword::Load(width) => Ok(load_of(width, ops)),
        Keyword::Store(width) => Ok(store_of(width, ops)),
        Keyword::Lr { wide } => Ok(lr_of(wide, ops)),
        Keyword::Sc { wide } => Ok(sc_of(wide, ops)),
        Keyword::Amo { op, wide } => Ok(amo_of(op, wide, ops)),
        Keyword::Lui => Ok(lui_of(ops)),
        Keyword::Auipc => Ok(auipc_of(ops)),
        Keyword::Jal => jal_of(alloc, ops),
        Keyword::Jalr => Ok(jalr_of(ops)),
        Keyword::Call => call_of(alloc, ops),
        Keyword::ToText => Ok(Some(Body::ToText)),
        Keyword::ToData => Ok(Some(Body::ToData)),
        Keyword::Func => func_of(alloc, ops),
        Keyword::End => Ok(Some(Body::End)),
        Keyword::Entry => entry_of(alloc, ops),
        Keyword::Word => Ok(word_of(ops)),
        Keyword::Nops => Ok(nops_of(ops)),
        Keyword::Byte => byte_of(alloc, ops),
        Keyword::Dword => dword_of(alloc, ops),
        Keyword::Space => Ok(space_of(ops)),
        Keyword::Ascii => ascii_of(alloc, ops),
        Keyword::Object => object_of(alloc, ops),
        Keyword::EndObject => Ok(Some(Body::EndObject)),
        Keyword::Slot => slot_of(alloc, ops),
        Keyword::Fence | Keyword::Ecall | Keyword::Ebreak | Keyword::Nop | Keyword::Ret => {
            Ok(fixed_of(keyword))
        }
    }
}

/// What a statement of this keyword says.
#[tactic(auto, unfolding(crate::specs::Bodies::read))]
pub fn read(alloc: Global, keyword: Keyword, ops: &[&[Token]]) -> Result<Body, NoMemory>
    requires { IsGiven keyword }
    ensures { IfOk result (λ body. body ≡ read keyword (map (λ o. o.now) ops.now)) }
{
    if ops.len() == arity(keyword)
        && let Some(body) = read_as(alloc, keyword, ops)?
    {
        return Ok(body);
    }
    Ok(Body::Bad(section_of(keyword)))
}
