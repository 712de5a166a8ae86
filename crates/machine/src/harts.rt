//! The harts of a machine.
ghost use Rattle.std.specs.Prelude.{◌≡◌, ◌<◌, ◌≤◌, ◌+◌, ◌==◌, ◌&&◌, ◌++◌, ◌∷◌, [], true, false, nat_lt, length, map, slice_set, is_some, IfOk};
ghost use Rattle.std.specs.List.{list_any, list_all};
ghost use Rattle.rv_isa.specs.Instr.{HasWord};
ghost use Rattle.hart.specs.Harts.{reg, with_reg, jumped};
ghost use Rattle.hart.specs.Effects.{effect_of, Acts, hart_after};
ghost use Rattle.guest_sys.specs.Limits.{hart_limit};
ghost use Rattle.machine.specs.Harts.{is_live, has_ended, hart_in, lost, unreserved, written_by, written_in, is_in, woken, awake, waiting_at, waiting_as, is_stalled, answered, stopped, child_of, with_thread, replied};
ghost use Rattle.machine.specs.Steps.{arguments_of};
ghost use Rattle.machine.specs.Sharing.{ActsIn, HasRoom, HoldsNone, reserves};

use guest_mem::memory::GuestMem;
use guest_sys::HART_LIMIT;
use guest_sys::effect::Reply;
use guest_sys::state::Waiter;
use hart::act::{Acted, act, next};
use hart::hart::{Hart, Status, finish_jump};
use link_tags::origins::Origins;
use link_tags::value::Value;
use oc_base::fault::NoMemory;
use oc_base::range::Range;
use rv_isa::fields::Reg;
use rv_isa::instr::Instr;
use std::alloc::Global;
use std::marker::Model;

/// The harts that were made, by their numbers, with room for all that a run makes.
#[derive(Drop)]
pub struct Harts {
    list: Vec<Hart>,
    // no hart holds a reservation where this is false, so that a store need not look at the others
    reserved: bool,
}

impl Model for Harts {
    ghost use Rattle.std.specs.Prelude.{List, ◌≡◌, ◌≤◌, false, vec_capacity};
    ghost use Rattle.std.specs.Coded.{codes};
    ghost use Rattle.hart.specs.declared.hart.Hart.{Hart};
    ghost use Rattle.guest_sys.specs.Limits.{hart_limit};
    ghost use Rattle.machine.specs.Sharing.{HoldsNone};

    ghost Value = { List Hart };

    ghost coded = { Prim.hlevel codes };

    ghost view = { λ s. s.list.items };

    ghost invariant = { λ s. (hart_limit ≤ vec_capacity s.list) × (s.reserved ≡ false → HoldsNone s.list.items) };
}

impl Harts {
    /// One hart.
    pub fn start(alloc: Global, hart: Hart) -> Result<Harts, NoMemory>
        ensures { IfOk result (λ s. s ≡ hart ∷ []) }
    {
        let mut list = Vec::with_capacity(alloc, HART_LIMIT as usize)?;
        list.push_reserved(hart);
        Ok(Harts {
            list,
            reserved: true,
        })
    }

    pub fn len(&self) -> usize
        ensures { result ≡ length self.now }
    {
        self.list.len()
    }

    /// A hart that was made.
    pub fn at(&self, h: u32) -> &Hart
        requires { h < length self.now }
        ensures { result.now ≡ hart_in self.now h }
    {
        &self.list[h as usize]
    }

    /// Whether a hart is live. One that isn't made is not.
    pub fn is_live(&self, h: u32) -> bool
        ensures value { result ≡ is_live (hart_in self.now h).status }
        ensures made { result ≡ true → h < length self.now }
    {
        (h as usize) < self.list.len() && is_live(&self.list[h as usize])
    }

    /// Whether every hart has ended.
    pub fn have_ended(&self) -> bool
        ensures { result ≡ list_all (λ k. has_ended k.status) self.now }
    {
        self.list.iter().all(has_ended)
    }

    fn has_live(&self) -> bool
        ensures { result ≡ list_any (λ k. is_live k.status) self.now }
    {
        self.list.iter().any(is_live)
    }

    /// Whether no hart can go on, though not all have ended.
    pub fn is_stalled(&self) -> bool
        ensures { result ≡ is_stalled self.now }
    {
        !self.has_live() && !self.have_ended()
    }

    /// Does an instruction of hart `h`, but for what only the machine can.
    #[inline(always)]
    pub fn act<O: Origins>(
        &mut self,
        h: u32,
        memory: &mut GuestMem,
        origins: &O,
        i: &Instr,
    ) -> Acted
        requires made { h < length self.old }
        requires word { HasWord i.now }
        ensures { ActsIn (O.origin origins.now) (effect_of (O.origin origins.now) memory.old.contents (hart_in self.old h) i.now) h self.old self.new memory.old.contents memory.new.contents result }
    {
        if reserves(i) {
            self.reserved = true;
        }
        act(&mut self.list[h as usize], memory, origins, i)
    }

    /// Ends a jump of hart `h`, as `hart::finish_jump` does.
    #[inline]
    pub fn jump(&mut self, h: u32, to: u64, link: Option<Reg>)
        requires { h < length self.old }
        ensures { self.new ≡ slice_set self.old h (jumped (hart_in self.old h) to link) }
    {
        finish_jump(&mut self.list[h as usize], to, link);
    }

    /// Gives hart `h` other registers, and another word to go on with.
    pub fn set(&mut self, h: u32, regs: [Value; 32], pc: u64)
        requires { h < length self.old }
        ensures { self.new ≡ slice_set self.old h (record (hart_in self.old h) { regs = regs; pc = pc }) }
    {
        let hart = &mut self.list[h as usize];
        hart.regs = regs;
        hart.pc = pc;
    }

    /// Writes one register of hart `h`, and gives it another word to go on with.
    pub fn lead(&mut self, h: u32, rd: Reg, v: Value, pc: u64)
        requires { h < length self.old }
        ensures { self.new ≡ slice_set self.old h (record (hart_in self.old h) { regs = with_reg (hart_in self.old h).regs rd v; pc = pc }) }
    {
        let hart = &mut self.list[h as usize];
        hart.set_reg(rd, v);
        hart.pc = pc;
    }

    /// Hart `h` wrote to a block: the others lose their reservations of it.
    #[tactic(auto, unfolding(crate::specs::Harts::written_by), using(crate::proofs::HartLists::none_written, crate::proofs::HartLists::none_held))]
    pub fn write(&mut self, h: u32, block: u64)
        requires { h < length self.old }
        ensures is { self.new ≡ written_by h block self.old }
        ensures made { length self.new ≡ length self.old }
    {
        if !self.reserved {
            return;
        }
        let kept = self.list[h as usize].reservation;
        free_block(&mut self.list, block);
        self.list[h as usize].reservation = kept;
        self.reserved = any_holds(&self.list);
    }

    /// The system wrote these ranges: every hart loses its reservation there.
    #[tactic(auto, unfolding(crate::specs::Harts::written_in), using(crate::proofs::HartLists::none_lost))]
    pub fn write_ranges(&mut self, ranges: &[Range])
        ensures is { self.new ≡ written_in ranges.now self.old }
        ensures made { length self.new ≡ length self.old }
    {
        if !self.reserved {
            return;
        }
        free_ranges(&mut self.list, ranges);
    }

    /// Wakes harts.
    pub fn wake(&mut self, list: &[u32])
        ensures is { self.new ≡ woken list.now self.old }
        ensures made { length self.new ≡ length self.old }
    {
        for k in list {
            self.wake_one(*k);
        }
    }

    fn wake_one(&mut self, k: u32)
        ensures is { self.new ≡ slice_set self.old k (awake (hart_in self.old k)) }
        ensures made { length self.new ≡ length self.old }
    {
        if (k as usize) < self.list.len() {
            let hart = &mut self.list[k as usize];
            hart.set_reg(Reg::new(10).unwrap(), Value::plain(0));
            hart.status = Status::Live;
        }
    }

    /// Lets each hart of the system's list wait where the list has it.
    pub fn set_waiting(&mut self, list: &[Waiter])
        ensures is { self.new ≡ waiting_as list.now self.old }
        ensures made { length self.new ≡ length self.old }
    {
        for waiter in list {
            self.set_waiter(*waiter);
        }
    }

    fn set_waiter(&mut self, waiter: Waiter)
        ensures is { self.new ≡ slice_set self.old waiter.hart (waiting_at waiter.at (hart_in self.old waiter.hart)) }
        ensures made { length self.new ≡ length self.old }
    {
        if (waiter.hart as usize) < self.list.len() {
            self.list[waiter.hart as usize].status = Status::Waiting(waiter.at);
        }
    }

    /// Does for the harts what the system replies to hart `h`.
    #[tactic(auto, unfolding(crate::specs::Harts::replied))]
    pub fn reply(&mut self, h: u32, reply: Reply)
        requires made { h < length self.old }
        requires room { HasRoom reply (length self.old) }
        ensures is { self.new ≡ replied h reply self.old }
        ensures made { length self.old ≤ length self.new }
    {
        match reply {
            Reply::Answer(value) => self.answer(h, value),
            Reply::Wait { addr } => self.stop(h, Status::Waiting(addr)),
            Reply::EndHart => self.stop(h, Status::Ended),
            Reply::Clone {
                stack,
                tls,
                clear,
                tid,
            } => self.add_child(h, stack, tls, clear, tid),
            Reply::SetClear { clear } => self.set_clear(h, clear),
            Reply::EndAll(_) | Reply::LinkUse { .. } | Reply::OutputFull | Reply::HartsFull => {}
        }
    }

    /// The answer of a call.
    fn answer(&mut self, h: u32, value: u64)
        requires { h < length self.old }
        ensures { self.new ≡ slice_set self.old h (answered value (hart_in self.old h)) }
    {
        next(
            &mut self.list[h as usize],
            Reg::new(10).unwrap(),
            Value::plain(value),
        );
    }

    /// A call that gives the hart another clear address.
    fn set_clear(&mut self, h: u32, clear: u64)
        requires { h < length self.old }
        ensures { self.new ≡ slice_set self.old h (answered (h + 1) (record (hart_in self.old h) { clear = clear })) }
    {
        let tid = Value::plain(u64::from(h) + 1);
        let hart = &mut self.list[h as usize];
        hart.clear = clear;
        next(hart, Reg::new(10).unwrap(), tid);
    }

    /// A call after which the hart isn't live.
    fn stop(&mut self, h: u32, status: Status)
        requires { h < length self.old }
        ensures { self.new ≡ slice_set self.old h (stopped status (hart_in self.old h)) }
    {
        let hart = &mut self.list[h as usize];
        hart.advance();
        hart.status = status;
    }

    /// A call that makes a hart.
    fn add_child(&mut self, h: u32, stack: u64, thread: Option<u64>, clear: u64, tid: u32)
        requires made { h < length self.old }
        requires room { length self.old < hart_limit }
        ensures { self.new ≡ slice_set self.old h (answered tid (hart_in self.old h)) ++ child_of (hart_in self.old h) stack thread clear ∷ [] }
    {
        let child = child_of(&self.list[h as usize], stack, thread, clear);
        self.answer(h, u64::from(tid));
        self.list.push_reserved(child);
    }
}

/// Whether an instruction may make a reservation: LR alone does.
#[inline(always)]
fn reserves(i: &Instr) -> bool
    ensures { result ≡ reserves i.now }
{
    matches!(*i, Instr::Lr { .. })
}

fn is_live(hart: &Hart) -> bool
    ensures { result ≡ is_live hart.now.status }
{
    hart.status == Status::Live
}

fn has_ended(hart: &Hart) -> bool
    ensures { result ≡ has_ended hart.now.status }
{
    hart.status == Status::Ended
}

/// The values of `x10` to `x17`.
pub fn arguments_of(hart: &Hart) -> [Value; 8]
    ensures { result ≡ arguments_of hart.now.regs }
{
    let regs = &hart.regs;
    [
        regs[10], regs[11], regs[12], regs[13], regs[14], regs[15], regs[16], regs[17],
    ]
}

/// The hart that another makes.
fn child_of(hart: &Hart, stack: u64, thread: Option<u64>, clear: u64) -> Hart
    ensures { result ≡ child_of hart.now stack thread clear }
{
    let mut child = *hart;
    child.set_reg(Reg::new(10).unwrap(), Value::plain(0));
    child.set_reg(Reg::new(2).unwrap(), Value::plain(stack));
    if let Some(at) = thread {
        child.set_reg(Reg::new(4).unwrap(), Value::plain(at));
    }
    child.advance();
    child.reservation = None;
    child.status = Status::Live;
    child.clear = clear;
    child
}

fn holds_one(hart: &Hart) -> bool
    ensures { result ≡ is_some hart.now.reservation }
{
    hart.reservation.is_some()
}

fn any_holds(harts: &[Hart]) -> bool
    ensures { result ≡ list_any (λ k. is_some k.reservation) harts.now }
{
    harts.iter().any(holds_one)
}

/// Another hart wrote to a block.
fn lose_block(hart: &mut Hart, block: u64)
    ensures { hart.new ≡ unreserved (λ b. b == block) hart.old }
{
    if hart.reservation == Some(block) {
        hart.reservation = None;
    }
}

fn free_block(harts: &mut [Hart], block: u64)
    ensures { harts.new ≡ map (unreserved (λ b. b == block)) harts.old }
{
    for hart in harts.iter_mut() {
        lose_block(hart, block);
    }
}

/// The system wrote ranges.
fn lose_ranges(hart: &mut Hart, ranges: &[Range])
    ensures { hart.new ≡ unreserved (is_in ranges.now) hart.old }
{
    if let Some(block) = hart.reservation
        && is_in(ranges, block)
    {
        hart.reservation = None;
    }
}

fn free_ranges(harts: &mut [Hart], ranges: &[Range])
    ensures { harts.new ≡ map (unreserved (is_in ranges.now)) harts.old }
{
    for hart in harts.iter_mut() {
        lose_ranges(hart, ranges);
    }
}

/// Whether the 8 bytes of a block have one of some ranges.
fn is_in(ranges: &[Range], block: u64) -> bool
    ensures { result ≡ is_in ranges.now block }
{
    ranges.iter().any(|range| meets(range, block))
}

fn meets(range: &Range, block: u64) -> bool
    ensures { result ≡ (nat_lt range.now.from (block + 8) && nat_lt block range.now.to) }
{
    (range.from < block || range.from - block < 8) && block < range.to
}
