//! The effects of loads, stores and atomic instructions.
ghost use Rattle.std.specs.Prelude.{◌≡◌};
ghost use Rattle.rv_isa.specs.Instr.{IsStoreWidth};
ghost use Rattle.guest_mem.specs.Access.{KeepsRoom, size_of, refusal};
ghost use Rattle.hart.specs.Effects.{Acts, atomic_width, cause_of, loading, storing, reserving, storing_if_held, exchanging};

use crate::act::{Acted, next};
use crate::hart::Hart;
use crate::words::block_of;
use guest_mem::fault::{Access, StoreFault};
use guest_mem::store::{GuestStore, size};
use link_tags::origins::Origins;
use link_tags::value::Value;
use rv_alu::amo;
use rv_isa::fields::Reg;
use rv_isa::instr::{AmoOp, Width};

/// The width of an atomic access.
fn atomic_width(wide: bool) -> Width
    ensures width { result ≡ atomic_width wide }
    ensures store { IsStoreWidth result }
{
    if wide { Width::D } else { Width::W }
}

/// The trap of an access that memory refuses.
fn refused(fault: Access, misaligned: u8, denied: u8, at: u64) -> Acted
    ensures { result ≡ Acted.Trap (cause_of fault misaligned denied) at }
{
    let cause = match fault {
        Access::Misaligned => misaligned,
        Access::NoAccess => denied,
    };
    Acted::Trap { cause, value: at }
}

/// A load into `rd`.
#[tactic(auto, unfolding(crate::specs::Effects::hart_after, crate::specs::Effects::memory_after, crate::specs::Effects::answer_of, crate::specs::Effects::IsWrite))]
pub fn load<M: GuestStore, O: Origins>(
    hart: &mut Hart,
    mem: &M,
    origins: &O,
    width: Width,
    rd: Reg,
    at: u64,
) -> Acted
    ensures { Acts (O.origin origins.now) (loading (O.origin origins.now) (M.contents mem.now) hart.old width rd at) hart.old hart.new (M.contents mem.now) (M.contents mem.now) result }
{
    match mem.load(at, width, origins) {
        Ok(v) => next(hart, rd, v),
        Err(fault) => refused(fault, 4, 5, at),
    }
}

/// A store of `b`.
#[tactic(auto, unfolding(crate::specs::Effects::hart_after, crate::specs::Effects::memory_after, crate::specs::Effects::answer_of, crate::specs::Effects::IsWrite))]
pub fn store<M: GuestStore, O: Origins>(
    hart: &mut Hart,
    mem: &mut M,
    origins: &O,
    width: Width,
    at: u64,
    b: Value,
) -> Acted
    requires { IsStoreWidth width }
    ensures acts { Acts (O.origin origins.now) (storing (O.origin origins.now) (M.contents mem.old) hart.old width at b) hart.old hart.new (M.contents mem.old) (M.contents mem.new) result }
    ensures room { KeepsRoom (M.room mem.old) (M.room mem.new) }
{
    match mem.store(at, width, b, origins) {
        Ok(()) => {
            hart.advance();
            Acted::Stored {
                block: block_of(at),
            }
        }
        Err(StoreFault::Misaligned) => refused(Access::Misaligned, 6, 7, at),
        Err(StoreFault::NoAccess) => refused(Access::NoAccess, 6, 7, at),
        Err(StoreFault::NoMemory) => Acted::NoMemory,
    }
}

/// LR: a load that reserves its block.
#[inline(never)]
#[tactic(auto, unfolding(crate::specs::Effects::hart_after, crate::specs::Effects::memory_after, crate::specs::Effects::answer_of, crate::specs::Effects::IsWrite))]
pub fn load_reserved<M: GuestStore, O: Origins>(
    hart: &mut Hart,
    mem: &M,
    origins: &O,
    wide: bool,
    rd: Reg,
    at: u64,
) -> Acted
    ensures { Acts (O.origin origins.now) (reserving (O.origin origins.now) (M.contents mem.now) hart.old (atomic_width wide) rd at) hart.old hart.new (M.contents mem.now) (M.contents mem.now) result }
{
    match mem.load(at, atomic_width(wide), origins) {
        Ok(_) if mem.is_link(at) => Acted::LinkUse { rule: 4 },
        Ok(v) => {
            hart.reservation = Some(block_of(at));
            next(hart, rd, v)
        }
        Err(fault) => refused(fault, 4, 5, at),
    }
}

/// What refuses a write of a width, if anything.
fn write_refusal<M: GuestStore>(mem: &M, width: Width, at: u64) -> Option<Access>
    ensures { result ≡ refusal (M.contents mem.now).writable at (size_of width) }
{
    let size = size(width);
    if at % size != 0 {
        return Some(Access::Misaligned);
    }
    if !mem.may_write(at, size) {
        return Some(Access::NoAccess);
    }
    None
}

/// SC: a store where the hart holds the block. The reservation is given up in any case.
#[inline(never)]
#[tactic(auto, unfolding(crate::specs::Effects::hart_after, crate::specs::Effects::memory_after, crate::specs::Effects::answer_of, crate::specs::Effects::IsWrite))]
pub fn store_conditional<M: GuestStore, O: Origins>(
    hart: &mut Hart,
    mem: &mut M,
    origins: &O,
    wide: bool,
    rd: Reg,
    at: u64,
    b: Value,
) -> Acted
    ensures acts { Acts (O.origin origins.now) (storing_if_held (O.origin origins.now) (M.contents mem.old) hart.old (atomic_width wide) rd at b) hart.old hart.new (M.contents mem.old) (M.contents mem.new) result }
    ensures room { KeepsRoom (M.room mem.old) (M.room mem.new) }
{
    let width = atomic_width(wide);
    if let Some(fault) = write_refusal(mem, width, at) {
        return refused(fault, 6, 7, at);
    }
    if mem.is_link(at) {
        return Acted::LinkUse { rule: 4 };
    }
    if hart.reservation != Some(block_of(at)) {
        hart.reservation = None;
        return next(hart, rd, Value::plain(1));
    }
    let Ok(()) = mem.store(at, width, b, origins) else {
        return Acted::NoMemory;
    };
    hart.reservation = None;
    next(hart, rd, Value::plain(0));
    Acted::Stored {
        block: block_of(at),
    }
}

/// An AMO: loads, and stores what the operation gives of that and of `b`.
#[inline(never)]
#[tactic(auto, unfolding(crate::specs::Effects::hart_after, crate::specs::Effects::memory_after, crate::specs::Effects::answer_of, crate::specs::Effects::IsWrite))]
pub fn exchange<M: GuestStore, O: Origins>(
    hart: &mut Hart,
    mem: &mut M,
    origins: &O,
    op: AmoOp,
    wide: bool,
    rd: Reg,
    at: u64,
    b: Value,
) -> Acted
    ensures acts { Acts (O.origin origins.now) (exchanging (O.origin origins.now) (M.contents mem.old) hart.old op wide rd at b) hart.old hart.new (M.contents mem.old) (M.contents mem.new) result }
    ensures room { KeepsRoom (M.room mem.old) (M.room mem.new) }
{
    let width = atomic_width(wide);
    if let Some(fault) = write_refusal(mem, width, at) {
        return refused(fault, 6, 7, at);
    }
    let v = match mem.load(at, width, origins) {
        Ok(v) => v,
        Err(fault) => return refused(fault, 6, 7, at),
    };
    if mem.is_link(at) {
        return Acted::LinkUse { rule: 4 };
    }
    let new = Value::plain(amo(op, wide, v.number, b.number));
    let Ok(()) = mem.store(at, width, new, origins) else {
        return Acted::NoMemory;
    };
    next(hart, rd, v);
    Acted::Stored {
        block: block_of(at),
    }
}
