//! A text, assembled.

ghost use Rattle.std.specs.Prelude.{◌≡◌, ◌≢◌, ◌≤◌, ◌<◌, ◌+◌, ◌*◌, ◌^◌, ℕ, List, [], length, None, Some, IfOk, IfErr, OnOk};
ghost use Rattle.std.specs.List.{sum_by};
ghost use Rattle.asm_text.specs.Statements.{statements, weight};
ghost use Rattle.rv_asm.specs.State.{start, after};
ghost use Rattle.rv_asm.specs.Emission.{data_start, round_up};
ghost use Rattle.rv_asm.specs.Assembly.{all_names, fault_of, fault_in, IsGivenBy, IsProgramOf};
ghost use Rattle.rv_asm.specs.declared.program.Program.{Program};
ghost use Rattle.rv_asm.specs.declared.fault.AsmFault.TheVariants.{NoMemory as Full};

use crate::emit::{bytes_of, entries_of, entry_or, fixups_of, funcs_of, objects_of, text_of};
use crate::fault::AsmFault;
use crate::names::Names;
use crate::passes::{first_pass, second_pass};
use crate::program::Program;
use crate::{PAGE, TEXT_START};
use asm_text::statement::{Statement, statements_of};
use oc_base::fault::NoMemory;
use oc_base::items::Items;
use std::alloc::Global;

/// Where data starts, after so many bytes of text.
fn data_start(text_len: u64) -> u64
    requires { text_len < 2 ^ 60 }
    ensures value { result ≡ round_up 4096 (65536 + text_len) }
    ensures small { result < 2 ^ 62 }
{
    (TEXT_START + text_len + (PAGE - 1)) / PAGE * PAGE
}

/// The program of statements without a fault.
#[tactic(auto, using(crate::proofs::Kept::kept_text, crate::proofs::Kept::kept_data, crate::proofs::Kept::kept_names, crate::proofs::Kept::kept_aims))]
fn program_of(
    alloc: Global,
    names: &Names,
    text_len: u64,
    items: &[Statement],
) -> Result<Program, NoMemory>
    requires few { length items.now < 2 ^ 30 }
    requires short { sum_by weight items.now ≤ 2 ^ 28 }
    requires names { names.now ≡ all_names items.now }
    requires small { text_len < 2 ^ 60 }
    requires end_ { text_len ≡ (after start items.now).text_len }
    requires none { fault_of items.now ≡ None }
    ensures { IfOk result (IsGivenBy items.now) }
{
    let base = data_start(text_len);
    let text = Items::from_vec(text_of(alloc, names, items)?);
    let bytes = Items::from_vec(bytes_of(alloc, names, items)?);
    let funcs = funcs_of(alloc, items)?;
    let objects = Items::from_vec(objects_of(alloc, base, items)?);
    let fixups = Items::from_vec(fixups_of(alloc, names, base, items)?);
    let entries = entries_of(alloc, names, items)?;
    let entry = entry_or(&entries, &funcs);
    let funcs = Items::from_vec(funcs);
    Ok(Program {
        text,
        bytes,
        entry,
        funcs,
        objects,
        fixups,
    })
}

/// Says that a text stands for one program at most. It does nothing.
pub fn one_program()
    ensures { (text : List ℕ) (p q : Program) → IsProgramOf text p → IsProgramOf text q → p ≡ q }
{}

/// The program that a text stands for, or its first fault.
#[tactic(auto, unfolding(crate::specs::Assembly::fault_in, crate::specs::Assembly::fault_of, crate::specs::Assembly::all_names), using(crate::proofs::Walk::first_fault_both, crate::proofs::Sizes::count_weight))]
pub fn assemble(alloc: Global, text: &[u8]) -> Result<Program, AsmFault>
    requires { length text.now ≤ 67108864 }
    ensures none { OnOk result (fault_in text.now ≡ None) }
    ensures program { IfOk result (IsProgramOf text.now) }
    ensures fault { IfErr result (λ e. e ≢ Full → fault_in text.now ≡ Some e) }
{
    let items = statements_of(alloc, text)?;
    let (names, given_again) = first_pass(alloc, &items)?;
    let (end, fault) = second_pass(alloc, &names, &items, given_again)?;
    if let Some(fault) = fault {
        return Err(AsmFault::Line {
            line: fault.line as u64,
            kind: fault.kind.number(),
        });
    }
    Ok(program_of(alloc, &names, end.text_len, &items)?)
}
