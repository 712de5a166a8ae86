//! The instructions and their operations.
ghost use Rattle.std.specs.Prelude.{◌≡◌, ◌↔◌, ℕ, IsTrue};
ghost use Rattle.rv_isa.specs.Conditions.{Holds, opposite};
ghost use Rattle.rv_isa.specs.Instr.{HasWord};

use crate::fields::{Imm12, Imm20, OffB, OffJ, Reg, Shift};

/// An operation between two registers, of OP or OP-32.
#[derive(Clone, Copy, Debug, PartialEq, Eq)]
pub enum AluOp {
    Add,
    Sub,
    Sll,
    Slt,
    Sltu,
    Xor,
    Srl,
    Sra,
    Or,
    And,
    Mul,
    Mulh,
    Mulhsu,
    Mulhu,
    Div,
    Divu,
    Rem,
    Remu,
    Addw,
    Subw,
    Sllw,
    Srlw,
    Sraw,
    Mulw,
    Divw,
    Divuw,
    Remw,
    Remuw,
}

/// An operation between a register and an immediate, of OP-IMM or OP-IMM-32.
#[derive(Clone, Copy, Debug, PartialEq, Eq)]
pub enum ImmOp {
    Addi,
    Slti,
    Sltiu,
    Xori,
    Ori,
    Andi,
    Addiw,
}

/// A shift by a fixed amount, of OP-IMM or OP-IMM-32.
#[derive(Clone, Copy, Debug, PartialEq, Eq)]
pub enum ShiftOp {
    Slli,
    Srli,
    Srai,
    Slliw,
    Srliw,
    Sraiw,
}

/// An atomic operation on memory: what it stores, from what it loads and a register.
#[derive(Clone, Copy, Debug, PartialEq, Eq)]
pub enum AmoOp {
    Swap,
    Add,
    Xor,
    And,
    Or,
    Min,
    Max,
    Minu,
    Maxu,
}

/// When a branch is taken: `Lt` and `Ge` compare signed numbers, `Ltu` and `Geu` unsigned ones.
#[derive(Clone, Copy, Debug, PartialEq, Eq)]
pub enum Cond {
    Eq,
    Ne,
    Lt,
    Ge,
    Ltu,
    Geu,
}

/// How many bytes a load or store moves: 1, 2, 4 or 8. A load extends them by their sign, but by zeros at `Bu`, `Hu`
/// and `Wu`.
#[derive(Clone, Copy, Debug, PartialEq, Eq)]
pub enum Width {
    B,
    H,
    W,
    D,
    Bu,
    Hu,
    Wu,
}

/// The order that an atomic instruction asks for: acquire, release, or both.
#[derive(Clone, Copy, Debug, PartialEq, Eq)]
pub struct Order {
    pub aq: bool,
    pub rl: bool,
}

/// An instruction of RV64IMA. `wide` says that an atomic access moves 8 bytes and not 4.
#[derive(Clone, Copy, Debug, PartialEq, Eq)]
pub enum Instr {
    Alu {
        op: AluOp,
        rd: Reg,
        rs1: Reg,
        rs2: Reg,
    },
    AluImm {
        op: ImmOp,
        rd: Reg,
        rs1: Reg,
        imm: Imm12,
    },
    ShiftImm {
        op: ShiftOp,
        rd: Reg,
        rs1: Reg,
        by: Shift,
    },
    Lui {
        rd: Reg,
        imm: Imm20,
    },
    Auipc {
        rd: Reg,
        imm: Imm20,
    },
    Jal {
        rd: Reg,
        off: OffJ,
    },
    Jalr {
        rd: Reg,
        rs1: Reg,
        off: Imm12,
    },
    Branch {
        cond: Cond,
        rs1: Reg,
        rs2: Reg,
        off: OffB,
    },
    Load {
        width: Width,
        rd: Reg,
        rs1: Reg,
        off: Imm12,
    },
    Store {
        width: Width,
        rs2: Reg,
        rs1: Reg,
        off: Imm12,
    },
    Lr {
        wide: bool,
        order: Order,
        rd: Reg,
        rs1: Reg,
    },
    Sc {
        wide: bool,
        order: Order,
        rd: Reg,
        rs1: Reg,
        rs2: Reg,
    },
    Amo {
        op: AmoOp,
        wide: bool,
        order: Order,
        rd: Reg,
        rs1: Reg,
        rs2: Reg,
    },
    Fence {
        rd: Reg,
        rs1: Reg,
        imm: Imm12,
    },
    Ecall,
    Ebreak,
}

impl Instr {
    /// Whether a word encodes it: a shift of 32 bits goes over 31 places at most, and a store has one of the widths
    /// `B`, `H`, `W` and `D`.
    pub fn new_ok(&self) -> bool
        ensures { IsTrue result ↔ HasWord self.now }
    {
        match self {
            Instr::ShiftImm { op, by, .. } => match op {
                ShiftOp::Slliw | ShiftOp::Srliw | ShiftOp::Sraiw => by.get() < 32,
                _ => true,
            },
            Instr::Store { width, .. } => {
                matches!(width, Width::B | Width::H | Width::W | Width::D)
            }
            _ => true,
        }
    }
}

impl Cond {
    /// The condition that holds exactly where this one doesn't.
    pub fn opposite(self) -> Cond
        ensures is { result ≡ opposite self }
        ensures holds { (a b : ℕ) → Holds result a b ↔ (Holds self a b → ⊥) }
    {
        match self {
            Cond::Eq => Cond::Ne,
            Cond::Ne => Cond::Eq,
            Cond::Lt => Cond::Ge,
            Cond::Ge => Cond::Lt,
            Cond::Ltu => Cond::Geu,
            Cond::Geu => Cond::Ltu,
        }
    }
}

#[cfg(test)]
mod tests {
    use super::*;

    /// An instruction's operands are all zero but for those that the case names.
    #[test]
    fn instructions_have_words(rt: HostRuntime) {
        let zero = Reg::new(0).unwrap();
        let off = Imm12::new(0).unwrap();
        let shifts = [
            (ShiftOp::Slli, 63, true),
            (ShiftOp::Srai, 32, true),
            (ShiftOp::Slliw, 31, true),
            (ShiftOp::Slliw, 32, false),
            (ShiftOp::Srliw, 63, false),
            (ShiftOp::Sraiw, 31, true),
            (ShiftOp::Sraiw, 32, false),
        ];
        for (op, by, has_word) in shifts {
            let by = Shift::new(by).unwrap();
            let i = Instr::ShiftImm {
                op,
                rd: zero,
                rs1: zero,
                by,
            };
            assert_eq!(rt; i.new_ok(), has_word);
        }
        let widths = [
            (Width::B, true),
            (Width::H, true),
            (Width::W, true),
            (Width::D, true),
            (Width::Bu, false),
            (Width::Hu, false),
            (Width::Wu, false),
        ];
        for (width, has_word) in widths {
            let load = Instr::Load {
                width,
                rd: zero,
                rs1: zero,
                off,
            };
            let store = Instr::Store {
                width,
                rs2: zero,
                rs1: zero,
                off,
            };
            assert_eq!(rt; load.new_ok(), true);
            assert_eq!(rt; store.new_ok(), has_word);
        }
    }

    #[test]
    fn conditions_have_their_opposites(rt: HostRuntime) {
        let pairs = [
            (Cond::Eq, Cond::Ne),
            (Cond::Lt, Cond::Ge),
            (Cond::Ltu, Cond::Geu),
        ];
        for (cond, other) in pairs {
            assert_eq!(rt; cond.opposite(), other);
            assert_eq!(rt; other.opposite(), cond);
        }
    }
}
