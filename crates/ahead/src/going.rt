//! One instruction of registers and pc alone.

ghost use Rattle.std.specs.Prelude.{◌≡◌, ℕ, true, false, Some, None, IfSome, IfNone};
ghost use Rattle.image.specs.Picture.{Picture};
ghost use Rattle.link_tags.specs.declared.value.Tag.{Tag};
ghost use Rattle.rv_isa.specs.Instr.{HasWord};
ghost use Rattle.machine.specs.Steps.{is_indirect};
ghost use Rattle.machine.specs.Transfers.{transfers};
ghost use Rattle.sim_laws.specs.Origins.{origin};
ghost use Rattle.world.specs.Adopting.{code_shown};
ghost use Rattle.ahead.specs.Making.{aimed, lands, jump_gone, gone};

use crate::note::Aimed;
use guest_mem::flat::FlatMem;
use hart::act::{Acted, act, private};
use hart::hart::{Hart, finish_jump};
use link_tags::origins::original;
use link_tags::value::{Tag, Value};
use rv_isa::fields::Reg;
use rv_isa::instr::Instr;
use world::shared::CodeNow;

/// Whether an instruction is a jump whose target a register names.
#[inline]
fn is_indirect(i: &Instr) -> bool
    ensures { result ≡ is_indirect i.now }
{
    matches!(*i, Instr::Jalr { .. })
}

/// Whether it is a branch or a jump.
#[inline]
pub fn transfers(i: &Instr) -> bool
    ensures { result ≡ transfers i.now }
{
    matches!(
        *i,
        Instr::Branch { .. } | Instr::Jal { .. } | Instr::Jalr { .. }
    )
}

/// What an indirect jump rests on.
fn aimed(code: &CodeNow, to: u64, by: Tag) -> Aimed
    ensures { result ≡ aimed (origin (code_shown code.now)) code.now.image to by }
{
    let original = original(
        Value {
            number: to,
            tag: by,
        },
        code,
    );
    let image = code.image();
    Aimed {
        to,
        tag: by,
        original,
        in_text: image.in_text(original),
        is_second: image.second_of_pair(original),
    }
}

/// Whether such a jump ends no run.
fn lands(aim: &Aimed) -> bool
    ensures { result ≡ lands aim.now }
{
    aim.original % 4 == 0 && (matches!(aim.tag, Tag::Link) || aim.in_text) && !aim.is_second
}

/// A direct jump, unless it ends the run.
#[inline(always)]
fn jump_direct(hart: &mut Hart, to: u64, link: Option<Reg>) -> Option<Option<Aimed>>
    ensures some { IfSome result (λ aim. (origin : ℕ → ℕ) (p : Picture) (by : Tag) → jump_gone origin p false to by link hart.old ≡ Some (hart.new, aim)) }
    ensures none { IfNone result ((origin : ℕ → ℕ) (p : Picture) (by : Tag) → jump_gone origin p false to by link hart.old ≡ None) }
    ensures stays { IfNone result (hart.new ≡ hart.old) }
{
    if to % 4 != 0 {
        return None;
    }
    finish_jump(hart, to, link);
    Some(None)
}

/// An indirect jump, unless it ends the run.
fn jump_register(
    hart: &mut Hart,
    code: &CodeNow,
    to: u64,
    by: Tag,
    link: Option<Reg>,
) -> Option<Option<Aimed>>
    ensures some { IfSome result (λ aim. jump_gone (origin (code_shown code.now)) code.now.image true to by link hart.old ≡ Some (hart.new, aim)) }
    ensures none { IfNone result (jump_gone (origin (code_shown code.now)) code.now.image true to by link hart.old ≡ None) }
    ensures stays { IfNone result (hart.new ≡ hart.old) }
{
    let aim = aimed(code, to, by);
    if !lands(&aim) {
        return None;
    }
    finish_jump(hart, to, link);
    Some(Some(aim))
}

#[inline(always)]
fn jump(
    hart: &mut Hart,
    code: &CodeNow,
    indirect: bool,
    to: u64,
    by: Tag,
    link: Option<Reg>,
) -> Option<Option<Aimed>>
    ensures some { IfSome result (λ aim. jump_gone (origin (code_shown code.now)) code.now.image indirect to by link hart.old ≡ Some (hart.new, aim)) }
    ensures none { IfNone result (jump_gone (origin (code_shown code.now)) code.now.image indirect to by link hart.old ≡ None) }
    ensures stays { IfNone result (hart.new ≡ hart.old) }
{
    if indirect {
        return jump_register(hart, code, to, by, link);
    }
    jump_direct(hart, to, link)
}

/// Does what an instruction does by registers and pc alone, unless it needs more or would end the run, and says what an indirect jump rests on.
#[inline(always)]
pub fn go(hart: &mut Hart, memory: &mut FlatMem, code: &CodeNow, i: &Instr) -> Option<Option<Aimed>>
    requires { HasWord i.now }
    ensures some { IfSome result (λ aim. gone (origin (code_shown code.now)) code.now.image i.now hart.old ≡ Some (hart.new, aim)) }
    ensures none { IfNone result (gone (origin (code_shown code.now)) code.now.image i.now hart.old ≡ None) }
    ensures stays { IfNone result (hart.new ≡ hart.old) }
{
    if !private(i) {
        return None;
    }
    match act(hart, memory, code, i) {
        Acted::Next => Some(None),
        Acted::Jump { to, by, link } => jump(hart, code, is_indirect(i), to, by, link),
        Acted::Stored { .. } => None,
        Acted::Call => None,
        Acted::Trap { .. } => None,
        Acted::LinkUse { .. } => None,
        Acted::NoMemory => None,
    }
}
