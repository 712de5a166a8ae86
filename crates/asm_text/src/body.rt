//! What a statement says, read from its name and its operands.

ghost use Rattle.std.specs.Prelude.{◌≡◌};
ghost use Rattle.rv_isa.specs.Instr.{HasWord};

use crate::keyword::Section;
use crate::name::Name;
use crate::operand::Target;
use oc_base::items::Items;
use rv_isa::fields::Reg;
use rv_isa::instr::{Cond, Instr};
use std::marker::Model;

/// An instruction that has a word.
#[derive(Clone, Copy, Debug)]
pub struct Encodable {
    instr: Instr,
}

impl Model for Encodable {
    ghost use Rattle.rv_isa.specs.declared.instr.Instr.{Instr};
    ghost use Rattle.rv_isa.specs.Instr.{HasWord};

    ghost Value = { Instr };

    ghost view = { λ e. e.instr };

    ghost invariant = { λ e. HasWord e.instr };

    ghost inverse = { λ i. record { instr = i } };
}

impl Encodable {
    pub fn new(instr: Instr) -> Self
        requires { HasWord instr }
        ensures { result ≡ instr }
    {
        Encodable { instr }
    }

    pub fn get(self) -> Instr
        ensures value { result ≡ self }
        ensures word { HasWord self }
    {
        self.instr
    }
}

/// What a statement says, apart from its labels.
#[derive(Debug, Drop)]
pub enum Body {
    /// Nothing follows the labels.
    Nothing,
    /// There is no such statement.
    Unknown,
    /// An operand has the wrong form; `None` where the statement may stand in both sections.
    Bad(Option<Section>),
    /// A number is out of range. The statement would have that many bytes.
    OutOfRange {
        section: Option<Section>,
        size: u64,
    },
    ToText,
    ToData,
    Func(Name),
    End,
    Object(Name),
    EndObject,
    Entry(Name),
    /// An instruction that needs no address.
    Instr(Encodable),
    Jal {
        rd: Reg,
        target: Target,
    },
    Branch {
        cond: Cond,
        rs1: Reg,
        rs2: Reg,
        target: Target,
    },
    Call(Name),
    /// A word, in either section.
    Word(u32),
    Nops(u128),
    /// Bytes of data.
    Bytes(Items<u8>),
    Space(u128),
    /// The address of a function, in data.
    Slot(Name),
}
