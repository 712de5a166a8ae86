//! The monitor's rules, as far as registers tell.
ghost use Rattle.std.specs.Prelude.{◌≡◌, ◌∷◌, []};
ghost use Rattle.link_tags.specs.Forbidden.{forbidden, is_move, first_link, use_as};

use crate::value::{Tag, Value};
use rv_isa::fields::{Imm12, Reg};
use rv_isa::instr::{ImmOp, Instr};

/// A forbidden use of a link: the rule that forbids it, and the register that holds the link.
#[derive(Clone, Copy, Debug, PartialEq, Eq)]
pub struct LinkFault {
    pub rule: u8,
    pub reg: u8,
}

/// Whether an operation with an immediate moves its operand as it is: ADDI with 0.
pub fn is_move(op: ImmOp, imm: Imm12) -> bool
    ensures { result ≡ is_move op imm }
{
    match op {
        ImmOp::Addi => imm.get() == 0,
        _ => false,
    }
}

/// The first register of `i` whose use is forbidden, where `a` and `b` are what rs1 and rs2 hold.
///
/// | rule | use of a link |
/// |---|---|
/// | 1 | an operand of arithmetic, but for ADDI with 0 |
/// | 2 | an operand of a branch |
/// | 3 | the address of a load, a store, LR, SC or an AMO |
/// | 4 | the value register of SC or an AMO |
/// | 6 | JALR with an offset other than 0 |
///
/// Rule 4 on the word that LR, SC or an AMO addresses, and rule 5 on the registers of a system call, are not of
/// registers alone.
#[tactic(auto, unfolding(crate::specs::Forbidden::uses))]
pub fn use_of(i: &Instr, a: Value, b: Value) -> Option<LinkFault>
    ensures { result ≡ forbidden i.now a b }
{
    match *i {
        Instr::AluImm { op, imm, .. } if is_move(op, imm) => None,
        Instr::Jalr { off, .. } if off.get() == 0 => None,
        Instr::Alu { rs1, rs2, .. } => one(1, rs1, a).or(one(1, rs2, b)),
        Instr::AluImm { rs1, .. } | Instr::ShiftImm { rs1, .. } => one(1, rs1, a),
        Instr::Branch { rs1, rs2, .. } => one(2, rs1, a).or(one(2, rs2, b)),
        Instr::Load { rs1, .. } | Instr::Store { rs1, .. } | Instr::Lr { rs1, .. } => {
            one(3, rs1, a)
        }
        Instr::Sc { rs1, rs2, .. } | Instr::Amo { rs1, rs2, .. } => {
            one(3, rs1, a).or(one(4, rs2, b))
        }
        Instr::Jalr { rs1, .. } => one(6, rs1, a),
        Instr::Lui { .. }
        | Instr::Auipc { .. }
        | Instr::Jal { .. }
        | Instr::Fence { .. }
        | Instr::Ecall
        | Instr::Ebreak => None,
    }
}

/// A register that is used by a rule.
fn one(rule: u8, reg: Reg, v: Value) -> Option<LinkFault>
    ensures { result ≡ first_link (use_as rule reg v ∷ []) }
{
    match v.tag {
        Tag::Plain => None,
        Tag::Link => Some(LinkFault {
            rule,
            reg: reg.get(),
        }),
    }
}
