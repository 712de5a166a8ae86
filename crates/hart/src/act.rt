//! The effect of an instruction.
ghost use Rattle.std.specs.Prelude.{◌≡◌, ℕ, None, if◌then◌else◌};
ghost use Rattle.rv_isa.specs.Instr.{HasWord, IsAmount, IsStoreWidth};
ghost use Rattle.rv_isa.specs.declared.instr.Order.{Order};
ghost use Rattle.guest_mem.specs.Access.{KeepsRoom};
ghost use Rattle.guest_mem.specs.Memory.{Memory};
ghost use Rattle.link_tags.specs.Values.{is_link};
ghost use Rattle.hart.specs.Harts.{with_reg, after, moved_by};
ghost use Rattle.hart.specs.Effects.{effect_of, Acts, is_taken, is_private};

use crate::hart::Hart;
use crate::memory::{exchange, load, load_reserved, store, store_conditional};
use crate::words::{even, moved_by, upper};
use guest_mem::store::GuestStore;
use link_tags::monitor::is_move;
use link_tags::origins::Origins;
use link_tags::value::{Tag, Value};
use rv_alu::{alu, alu_imm, shift, taken};
use rv_isa::fields::{Imm12, OffB, Reg, Shift};
use rv_isa::instr::{AluOp, AmoOp, Cond, ImmOp, Instr, ShiftOp, Width};

/// What an instruction did. After `Next` and `Stored` pc is at the next word; after every other answer the hart and memory
/// are as before, and the machine goes on from there.
#[derive(Clone, Copy, Debug, PartialEq, Eq)]
pub enum Acted {
    Next,
    /// Memory was written in the aligned 8 bytes at `block`.
    Stored { block: u64 },
    /// A jump, by a link where it is direct. `finish_jump` ends it with this `link`.
    Jump { to: u64, by: Tag, link: Option<Reg> },
    /// A system call.
    Call,
    Trap { cause: u8, value: u64 },
    /// A link was used as the rule forbids.
    LinkUse { rule: u8 },
    /// There was no room in memory for a store.
    NoMemory,
}

/// Whether an instruction reads and writes registers and pc alone.
pub fn private(i: &Instr) -> bool
    ensures { result ≡ is_private i.now }
{
    match i {
        Instr::Alu { .. }
        | Instr::AluImm { .. }
        | Instr::ShiftImm { .. }
        | Instr::Lui { .. }
        | Instr::Auipc { .. }
        | Instr::Jal { .. }
        | Instr::Jalr { .. }
        | Instr::Branch { .. }
        | Instr::Fence { .. } => true,
        Instr::Load { .. }
        | Instr::Store { .. }
        | Instr::Lr { .. }
        | Instr::Sc { .. }
        | Instr::Amo { .. }
        | Instr::Ecall
        | Instr::Ebreak => false,
    }
}

/// Does what an instruction at the hart's pc does, but for what only the machine can: to end a jump, a call or the run.
/// `NoMemory` comes of Store, Sc and Amo alone, and leaves all as it was.
#[inline(always)]
#[tactic(auto, unfolding(crate::specs::Effects::effect_of, crate::specs::Effects::effect_on, link_tags::specs::Forbidden::uses, crate::specs::Effects::hart_after, crate::specs::Effects::memory_after, crate::specs::Effects::answer_of))]
pub fn act<M: GuestStore, O: Origins>(hart: &mut Hart, mem: &mut M, origins: &O, i: &Instr) -> Acted
    requires { HasWord i.now }
    ensures acts { Acts (O.origin origins.now) (effect_of (O.origin origins.now) (M.contents mem.old) hart.old i.now) hart.old hart.new (M.contents mem.old) (M.contents mem.new) result }
    ensures room { KeepsRoom (M.room mem.old) (M.room mem.new) }
{
    match *i {
        Instr::Alu { op, rd, rs1, rs2 } => operate(hart, op, rd, rs1, rs2),
        Instr::AluImm { op, rd, rs1, imm } => operate_imm(hart, op, rd, rs1, imm),
        Instr::ShiftImm { op, rd, rs1, by } => operate_shift(hart, op, rd, rs1, by),
        Instr::Lui { rd, imm } => next(hart, rd, Value::plain(upper(imm))),
        Instr::Auipc { rd, imm } => {
            let value = hart.pc.wrapping_add(upper(imm));
            next(hart, rd, Value::plain(value))
        }
        Instr::Jal { rd, off } => jump(moved_by(hart.pc, off.get()), Tag::Link, Some(rd)),
        Instr::Jalr { rd, rs1, off } => jump_register(hart, rd, rs1, off),
        Instr::Branch {
            cond,
            rs1,
            rs2,
            off,
        } => branch_on(hart, cond, rs1, rs2, off),
        Instr::Load {
            width,
            rd,
            rs1,
            off,
        } => load_at(hart, mem, origins, width, rd, rs1, off),
        Instr::Store {
            width,
            rs2,
            rs1,
            off,
        } => store_at(hart, mem, origins, width, rs2, rs1, off),
        Instr::Lr { wide, rd, rs1, .. } => reserve(hart, mem, origins, wide, rd, rs1),
        Instr::Sc {
            wide,
            rd,
            rs1,
            rs2,
            ..
        } => conditional(hart, mem, origins, wide, rd, rs1, rs2),
        Instr::Amo {
            op,
            wide,
            rd,
            rs1,
            rs2,
            ..
        } => atomically(hart, mem, origins, op, wide, rd, rs1, rs2),
        Instr::Fence { .. } => {
            hart.advance();
            Acted::Next
        }
        Instr::Ecall => Acted::Call,
        Instr::Ebreak => Acted::Trap {
            cause: 3,
            value: origins.origin(hart.pc),
        },
    }
}

#[inline]
fn is_link(v: Value) -> bool
    ensures { result ≡ is_link v.tag }
{
    match v.tag {
        Tag::Plain => false,
        Tag::Link => true,
    }
}

/// An operation between two registers.
#[inline(always)]
#[tactic(auto, unfolding(crate::specs::Effects::effect_of, crate::specs::Effects::effect_on, link_tags::specs::Forbidden::uses, crate::specs::Effects::hart_after, crate::specs::Effects::memory_after, crate::specs::Effects::answer_of))]
fn operate(hart: &mut Hart, op: AluOp, rd: Reg, rs1: Reg, rs2: Reg) -> Acted
    ensures { (origin : ℕ → ℕ) (m : Memory) → Acts origin (effect_of origin m hart.old (Instr.Alu op rd rs1 rs2)) hart.old hart.new m m result }
{
    let (a, b) = (hart.reg(rs1), hart.reg(rs2));
    if is_link(a) || is_link(b) {
        return Acted::LinkUse { rule: 1 };
    }
    next(hart, rd, Value::plain(alu(op, a.number, b.number)))
}

/// An operation between a register and an immediate: a move keeps the tag.
#[inline(always)]
#[tactic(auto, unfolding(crate::specs::Effects::effect_of, crate::specs::Effects::effect_on, link_tags::specs::Forbidden::uses, crate::specs::Effects::hart_after, crate::specs::Effects::memory_after, crate::specs::Effects::answer_of))]
fn operate_imm(hart: &mut Hart, op: ImmOp, rd: Reg, rs1: Reg, imm: Imm12) -> Acted
    ensures { (origin : ℕ → ℕ) (m : Memory) → Acts origin (effect_of origin m hart.old (Instr.AluImm op rd rs1 imm)) hart.old hart.new m m result }
{
    let a = hart.reg(rs1);
    if is_move(op, imm) {
        return next(hart, rd, a);
    }
    if is_link(a) {
        return Acted::LinkUse { rule: 1 };
    }
    next(hart, rd, Value::plain(alu_imm(op, a.number, imm)))
}

/// A shift by an amount.
#[inline(always)]
#[tactic(auto, unfolding(crate::specs::Effects::effect_of, crate::specs::Effects::effect_on, link_tags::specs::Forbidden::uses, crate::specs::Effects::hart_after, crate::specs::Effects::memory_after, crate::specs::Effects::answer_of))]
fn operate_shift(hart: &mut Hart, op: ShiftOp, rd: Reg, rs1: Reg, by: Shift) -> Acted
    requires { IsAmount op by }
    ensures { (origin : ℕ → ℕ) (m : Memory) → Acts origin (effect_of origin m hart.old (Instr.ShiftImm op rd rs1 by)) hart.old hart.new m m result }
{
    let a = hart.reg(rs1);
    if is_link(a) {
        return Acted::LinkUse { rule: 1 };
    }
    next(hart, rd, Value::plain(shift(op, a.number, by)))
}

/// A jump to what a register names.
#[inline(always)]
#[tactic(auto, unfolding(crate::specs::Effects::effect_of, crate::specs::Effects::effect_on, link_tags::specs::Forbidden::uses, crate::specs::Effects::hart_after, crate::specs::Effects::memory_after, crate::specs::Effects::answer_of))]
fn jump_register(hart: &Hart, rd: Reg, rs1: Reg, off: Imm12) -> Acted
    ensures { (origin : ℕ → ℕ) (m : Memory) → Acts origin (effect_of origin m hart.now (Instr.Jalr rd rs1 off)) hart.now hart.now m m result }
{
    let a = hart.reg(rs1);
    if off.get() != 0 && is_link(a) {
        return Acted::LinkUse { rule: 6 };
    }
    jump(even(moved_by(a.number, off.get())), a.tag, Some(rd))
}

/// A branch.
#[inline(always)]
#[tactic(auto, unfolding(crate::specs::Effects::effect_of, crate::specs::Effects::effect_on, link_tags::specs::Forbidden::uses, crate::specs::Effects::hart_after, crate::specs::Effects::memory_after, crate::specs::Effects::answer_of))]
fn branch_on(hart: &mut Hart, cond: Cond, rs1: Reg, rs2: Reg, off: OffB) -> Acted
    ensures { (origin : ℕ → ℕ) (m : Memory) → Acts origin (effect_of origin m hart.old (Instr.Branch cond rs1 rs2 off)) hart.old hart.new m m result }
{
    let (a, b) = (hart.reg(rs1), hart.reg(rs2));
    if is_link(a) || is_link(b) {
        return Acted::LinkUse { rule: 2 };
    }
    branch(hart, cond, a.number, b.number, off)
}

/// A load.
#[inline(always)]
#[tactic(auto, unfolding(crate::specs::Effects::effect_of, crate::specs::Effects::effect_on, link_tags::specs::Forbidden::uses, crate::specs::Effects::hart_after, crate::specs::Effects::memory_after, crate::specs::Effects::answer_of))]
fn load_at<M: GuestStore, O: Origins>(
    hart: &mut Hart,
    mem: &M,
    origins: &O,
    width: Width,
    rd: Reg,
    rs1: Reg,
    off: Imm12,
) -> Acted
    ensures acts { Acts (O.origin origins.now) (effect_of (O.origin origins.now) (M.contents mem.now) hart.old (Instr.Load width rd rs1 off)) hart.old hart.new (M.contents mem.now) (M.contents mem.now) result }
{
    let a = hart.reg(rs1);
    if is_link(a) {
        return Acted::LinkUse { rule: 3 };
    }
    load(hart, mem, origins, width, rd, moved_by(a.number, off.get()))
}

/// A store.
#[inline(always)]
#[tactic(auto, unfolding(crate::specs::Effects::effect_of, crate::specs::Effects::effect_on, link_tags::specs::Forbidden::uses, crate::specs::Effects::hart_after, crate::specs::Effects::memory_after, crate::specs::Effects::answer_of))]
fn store_at<M: GuestStore, O: Origins>(
    hart: &mut Hart,
    mem: &mut M,
    origins: &O,
    width: Width,
    rs2: Reg,
    rs1: Reg,
    off: Imm12,
) -> Acted
    requires { IsStoreWidth width }
    ensures acts { Acts (O.origin origins.now) (effect_of (O.origin origins.now) (M.contents mem.old) hart.old (Instr.Store width rs2 rs1 off)) hart.old hart.new (M.contents mem.old) (M.contents mem.new) result }
    ensures room { KeepsRoom (M.room mem.old) (M.room mem.new) }
{
    let (a, b) = (hart.reg(rs1), hart.reg(rs2));
    if is_link(a) {
        return Acted::LinkUse { rule: 3 };
    }
    store(hart, mem, origins, width, moved_by(a.number, off.get()), b)
}

/// LR.
#[inline(always)]
#[tactic(auto, unfolding(crate::specs::Effects::effect_of, crate::specs::Effects::effect_on, link_tags::specs::Forbidden::uses, crate::specs::Effects::hart_after, crate::specs::Effects::memory_after, crate::specs::Effects::answer_of))]
fn reserve<M: GuestStore, O: Origins>(
    hart: &mut Hart,
    mem: &M,
    origins: &O,
    wide: bool,
    rd: Reg,
    rs1: Reg,
) -> Acted
    ensures acts { (order : Order) → Acts (O.origin origins.now) (effect_of (O.origin origins.now) (M.contents mem.now) hart.old (Instr.Lr wide order rd rs1)) hart.old hart.new (M.contents mem.now) (M.contents mem.now) result }
{
    let a = hart.reg(rs1);
    if is_link(a) {
        return Acted::LinkUse { rule: 3 };
    }
    load_reserved(hart, mem, origins, wide, rd, a.number)
}

/// SC.
#[inline(always)]
#[tactic(auto, unfolding(crate::specs::Effects::effect_of, crate::specs::Effects::effect_on, link_tags::specs::Forbidden::uses, crate::specs::Effects::hart_after, crate::specs::Effects::memory_after, crate::specs::Effects::answer_of))]
fn conditional<M: GuestStore, O: Origins>(
    hart: &mut Hart,
    mem: &mut M,
    origins: &O,
    wide: bool,
    rd: Reg,
    rs1: Reg,
    rs2: Reg,
) -> Acted
    ensures acts { (order : Order) → Acts (O.origin origins.now) (effect_of (O.origin origins.now) (M.contents mem.old) hart.old (Instr.Sc wide order rd rs1 rs2)) hart.old hart.new (M.contents mem.old) (M.contents mem.new) result }
    ensures room { KeepsRoom (M.room mem.old) (M.room mem.new) }
{
    let (a, b) = (hart.reg(rs1), hart.reg(rs2));
    if is_link(a) {
        return Acted::LinkUse { rule: 3 };
    }
    if is_link(b) {
        return Acted::LinkUse { rule: 4 };
    }
    store_conditional(hart, mem, origins, wide, rd, a.number, b)
}

/// An AMO.
#[inline(always)]
#[tactic(auto, unfolding(crate::specs::Effects::effect_of, crate::specs::Effects::effect_on, link_tags::specs::Forbidden::uses, crate::specs::Effects::hart_after, crate::specs::Effects::memory_after, crate::specs::Effects::answer_of))]
fn atomically<M: GuestStore, O: Origins>(
    hart: &mut Hart,
    mem: &mut M,
    origins: &O,
    op: AmoOp,
    wide: bool,
    rd: Reg,
    rs1: Reg,
    rs2: Reg,
) -> Acted
    ensures acts { (order : Order) → Acts (O.origin origins.now) (effect_of (O.origin origins.now) (M.contents mem.old) hart.old (Instr.Amo op wide order rd rs1 rs2)) hart.old hart.new (M.contents mem.old) (M.contents mem.new) result }
    ensures room { KeepsRoom (M.room mem.old) (M.room mem.new) }
{
    let (a, b) = (hart.reg(rs1), hart.reg(rs2));
    if is_link(a) {
        return Acted::LinkUse { rule: 3 };
    }
    if is_link(b) {
        return Acted::LinkUse { rule: 4 };
    }
    exchange(hart, mem, origins, op, wide, rd, a.number, b)
}

/// Writes a register and goes on.
#[inline]
pub fn next(hart: &mut Hart, rd: Reg, v: Value) -> Acted
    ensures hart { hart.new ≡ record hart.old { regs = with_reg hart.old.regs rd v; pc = after hart.old.pc } }
    ensures answer { result ≡ Acted.Next }
{
    hart.set_reg(rd, v);
    hart.advance();
    Acted::Next
}

#[inline]
fn jump(to: u64, by: Tag, link: Option<Reg>) -> Acted
    ensures { result ≡ Acted.Jump to by link }
{
    Acted::Jump { to, by, link }
}

/// Goes to a branch's target or on.
#[inline]
fn branch(hart: &mut Hart, cond: Cond, a: u64, b: u64, off: OffB) -> Acted
    ensures answer { result ≡ (if is_taken cond a b then Acted.Jump (moved_by hart.old.pc off) Tag.Link None else Acted.Next) }
    ensures hart { hart.new ≡ (if is_taken cond a b then hart.old else record hart.old { pc = after hart.old.pc }) }
{
    if is_taken(cond, a, b) {
        return jump(moved_by(hart.pc, off.get()), Tag::Link, None);
    }
    hart.advance();
    Acted::Next
}

/// Whether a branch is taken.
#[inline]
fn is_taken(cond: Cond, a: u64, b: u64) -> bool
    ensures { result ≡ is_taken cond a b }
{
    taken(cond, a, b)
}
