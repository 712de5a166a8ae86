//! A hart, and its end of a jump.
ghost use Rattle.std.specs.Prelude.{◌≡◌};
ghost use Rattle.hart.specs.Harts.{reg, with_reg, after, jumped};

use link_tags::value::Value;
use rv_isa::fields::Reg;

/// What a hart is doing.
#[derive(Clone, Copy, Debug, PartialEq, Eq)]
pub enum Status {
    Live,
    /// It waits at an address until it is woken.
    Waiting(u64),
    Ended,
}

/// A thread of the guest.
#[derive(Clone, Copy, Debug)]
pub struct Hart {
    /// `x0` to `x31`. `x0` is never written, and reads as zero.
    pub regs: [Value; 32],
    pub pc: u64,
    /// The address of the aligned 8 bytes that LR has reserved.
    pub reservation: Option<u64>,
    pub status: Status,
    /// The word that the hart clears at its end, or 0.
    pub clear: u64,
}

impl Hart {
    /// What a register holds.
    #[inline]
    pub fn reg(&self, r: Reg) -> Value
        ensures { result ≡ reg self.now.regs r }
    {
        if r.get() == 0 {
            Value::plain(0)
        } else {
            self.regs[usize::from(r.get())]
        }
    }

    /// Writes a register. A write to `x0` is lost.
    #[inline]
    pub fn set_reg(&mut self, r: Reg, v: Value)
        ensures { self.new ≡ record self.old { regs = with_reg self.old.regs r v } }
    {
        if r.get() != 0 {
            self.regs[usize::from(r.get())] = v;
        }
    }

    /// Goes on to the next word.
    #[inline]
    pub fn advance(&mut self)
        ensures { self.new ≡ record self.old { pc = after self.old.pc } }
    {
        self.pc = self.pc.wrapping_add(4);
    }
}

/// Ends a jump that may be made: links the next word in a register, where one is named, and goes to `to`.
#[inline]
pub fn finish_jump(hart: &mut Hart, to: u64, link: Option<Reg>)
    ensures { hart.new ≡ jumped hart.old to link }
{
    if let Some(rd) = link {
        let next = hart.pc.wrapping_add(4);
        hart.set_reg(rd, Value::link(next));
    }
    hart.pc = to;
}
