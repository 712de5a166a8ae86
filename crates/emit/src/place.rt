//! The words of a layout at its base.

ghost use Rattle.std.specs.Prelude.{◌≡◌, ◌+◌, ◌*◌, ◌<◌, ◌^◌, ◌≤◌, ◌↔◌, ℕ, IfOk, OnOk, OnErr, IfErr, IsOk, IsTrue, Some, length, unwrap_or, pos, ◌-ℤ◌};
ghost use Rattle.std.specs.Ordering.{nat_cmp};
ghost use Rattle.std.specs.BTreeMap.{get};
ghost use Rattle.rv_isa.specs.Decoded.{decoded};
ghost use Rattle.rv_isa.specs.Ranges.{IsOffB, IsOffJ};
ghost use Rattle.rv_isa.specs.Instr.{HasWord};
ghost use Rattle.rv_isa.specs.declared.instr.Instr.{Instr};
ghost use Rattle.emit.specs.Entries.{place};
ghost use Rattle.emit.specs.Placed.{aim, ahead, high_of, low_of, InReach, IsMade, AreMade, ArePlaced, IsOut, IsFirstOut, wanted, AreInReach, MadeNear, AreNear, Stops};

use crate::entry::{Entry, Made, To};
use crate::fault::EmitFault;
use crate::starts::gather;
use rv_decode::one_reading;
use rv_encode::{HIGH_COUNT, HIGH_UNIT, LOW_HALF, OutOfReach, branch_to, encode, jal_to};
use rv_isa::fields::{Imm12, Imm20, Reg};
use rv_isa::instr::{Cond, ImmOp, Instr};
use std::alloc::Global;
use std::collections::BTreeMap;

/// How far `v` is from `a`.
fn ahead(a: u64, v: u64) -> u64
    ensures { result ≡ ahead a v }
{
    v.wrapping_sub(a)
}

fn in_reach(a: u64, v: u64) -> bool
    ensures { IsTrue result ↔ InReach a v }
{
    let far = ahead(a, v).wrapping_add(LOW_HALF);
    far < 1 << 31 || far >= 0xffff_ffff_8000_0000
}

fn high(a: u64, v: u64) -> Imm20
    ensures { result ≡ high_of a v }
{
    let high = ahead(a, v).wrapping_add(LOW_HALF) / HIGH_UNIT % HIGH_COUNT;
    Imm20::new(high as i32).unwrap()
}

fn low(a: u64, v: u64) -> Imm12
    ensures { result ≡ low_of a v }
{
    let low = ahead(a, v) % HIGH_UNIT;
    let signed = if low < LOW_HALF {
        low as i32
    } else {
        low as i32 - HIGH_UNIT as i32
    };
    Imm12::new(signed).unwrap()
}

/// The word of an instruction.
fn word_of(i: &Instr) -> u32
    requires { HasWord i.now }
    ensures { decoded result ≡ Some i.now }
{
    let word = encode(i);
    one_reading(word);
    word
}

/// The word of a JAL.
fn jump(rd: Reg, at: u64, to: u64) -> Result<u32, OutOfReach>
    ensures ok { IfOk result (λ w. decoded w ≡ Some (Instr.Jal rd (pos to -ℤ pos at))) }
    ensures reach { IsOk result ↔ IsOffJ (pos to -ℤ pos at) }
{
    match jal_to(rd, at, to) {
        Ok(word) => {
            one_reading(word);
            Ok(word)
        }
        Err(e) => Err(e),
    }
}

/// The word of a branch that reaches.
fn branch(cond: Cond, rs1: Reg, rs2: Reg, at: u64, to: u64) -> u32
    requires { IsOffB (pos to -ℤ pos at) }
    ensures { decoded result ≡ Some (Instr.Branch cond rs1 rs2 (pos to -ℤ pos at)) }
{
    let word = branch_to(cond, rs1, rs2, at, to).unwrap();
    one_reading(word);
    word
}

/// A layout that isn't placed yet, its base, and where its Starts are.
#[derive(Drop)]
pub struct Placing<'a> {
    base: u64,
    entries: &'a [Entry],
    starts: BTreeMap<u64, usize>,
    ghost fits: { base + 4 * length entries.now ≤ 0x08000000 },
    ghost places: { (x : ℕ) → unwrap_or (get nat_cmp starts x) (length entries.now) ≡ place x entries.now },
}

impl Placing<'_> {
    #[tactic(auto, using(crate::proofs::Places::place_within))]
    fn place(&self, x: u64) -> usize
        ensures value { result ≡ place x self.now.entries.now }
        ensures within { self.now.base + 4 * result ≤ 0x08000000 }
    {
        self.starts.get(&x).copied().unwrap_or(self.entries.len())
    }

    /// Where a jump at an address goes.
    fn aim(&self, at: u64, to: To) -> u64
        requires { at < 2 ^ 32 }
        ensures { result ≡ aim self.now.base self.now.entries.now at to }
    {
        match to {
            To::Here(y) => self.base + 4 * self.place(y) as u64,
            To::There(y) => y,
            To::Over => at + 8,
        }
    }

    /// The word of an entry.
    fn word(&self, k: usize, e: &Entry) -> Result<u32, OutOfReach>
        requires within { k < length self.now.entries.now }
        requires near { MadeNear self.now.entries.now k e.now.made }
        ensures ok { IfOk result (IsMade self.now.base self.now.entries.now (self.now.base + 4 * k) e.now.made) }
        ensures reach { IsOk result ↔ (IsOut self.now.base self.now.entries.now (self.now.base + 4 * k) e.now.made → ⊥) }
    {
        let at = self.base + 4 * k as u64;
        match e.made {
            Made::Same(word) => Ok(word),
            Made::Jump { rd, to } => jump(rd, at, self.aim(at, to)),
            Made::Branch { cond, rs1, rs2, to } => Ok(branch(cond, rs1, rs2, at, self.aim(at, to))),
            Made::High { rd, value } => {
                if !in_reach(at, value) {
                    return Err(OutOfReach);
                }
                Ok(word_of(&Instr::Auipc {
                    rd,
                    imm: high(at, value),
                }))
            }
            Made::Low { rd, value } => Ok(word_of(&Instr::AluImm {
                op: ImmOp::Addi,
                rd,
                rs1: rd,
                imm: low(at.saturating_sub(4), value),
            })),
        }
    }

    /// What an entry wants to reach.
    fn wanted(&self, at: u64, e: &Entry) -> u64
        requires { at < 2 ^ 32 }
        ensures { result ≡ wanted self.now.base self.now.entries.now at e.now.made }
    {
        match e.made {
            Made::Same(word) => u64::from(word),
            Made::Jump { to, .. } => self.aim(at, to),
            Made::Branch { to, .. } => self.aim(at, to),
            Made::High { value, .. } => value,
            Made::Low { value, .. } => value,
        }
    }

    /// The words at the base, or the first that is out of reach.
    fn words(&self, alloc: Global) -> Result<Vec<u32>, EmitFault>
        requires { AreNear self.now.entries.now }
        ensures ok { IfOk result (λ ws. ArePlaced self.now.base self.now.entries.now ws.items) }
        ensures err { IfErr result (Stops self.now.base self.now.entries.now) }
    {
        let entries = self.entries;
        let mut words = Vec::new(alloc);
        for i in 0..entries.len() {
            let e = &entries[i];
            match self.word(i, e) {
                Ok(word) => {
                    if words.push(word).is_err() {
                        return Err(EmitFault::NoMemory);
                    }
                }
                Err(_) => {
                    let at = self.base + 4 * i as u64;
                    let target = self.wanted(at, e);
                    return Err(EmitFault::BranchReach { at, target });
                }
            }
        }
        Ok(words)
    }
}

/// The words of a layout at a base, or the first that is out of reach.
pub fn placed(alloc: Global, base: u64, entries: &[Entry]) -> Result<Vec<u32>, EmitFault>
    requires fits { base + 4 * length entries.now ≤ 0x08000000 }
    requires near { AreNear entries.now }
    ensures ok { IfOk result (λ ws. ArePlaced base entries.now ws.items) }
    ensures err { IfErr result (Stops base entries.now) }
{
    let Ok(starts) = gather(alloc, entries) else {
        return Err(EmitFault::NoMemory);
    };
    let placing = Placing {
        base,
        entries,
        starts,
    };
    placing.words(alloc)
}
