//! The two passes over the statements: names, and then faults.

ghost use Rattle.std.specs.Prelude.{◌≡◌, ◌≤◌, ◌<◌, ◌+◌, ◌*◌, ◌^◌, [], length, map, IfOk, OnOk};
ghost use Rattle.rv_asm.specs.Order.{first_of_two, first_fault};
ghost use Rattle.rv_asm.specs.State.{start, step, after};
ghost use Rattle.rv_asm.specs.Names.{add, add_labels, add_own, names_after, names_from, again, labels_again, own_again, name_faults, name_faults_from};
ghost use Rattle.rv_asm.specs.Faults.{faults, faults_from};

use crate::fault::{FaultKind, LineFault};
use crate::faults::{end_fault, first, statement_fault, text_at};
use crate::meaning::Meaning;
use crate::names::Names;
use crate::state::State;
use crate::step::{is_void, start, step};
use asm_text::body::Body;
use asm_text::name::Name;
use asm_text::statement::Statement;
use oc_base::fault::NoMemory;
use std::alloc::Global;

/// Gives a name, and the first fault so far and of a name that is given again.
fn give(
    alloc: Global,
    names: &mut Names,
    line: u32,
    name: &Name,
    meaning: Meaning,
    so_far: Option<LineFault>,
) -> Result<Option<LineFault>, NoMemory>
    ensures names { OnOk result (names.new ≡ add names.old name.now meaning) }
    ensures fault { IfOk result (λ f. f ≡ first_of_two so_far (first_fault (again names.old line name.now))) }
{
    let fault = match names.get(name.as_slice()) {
        Some(_) => first(so_far, line, FaultKind::GivenAgain),
        None => so_far,
    };
    names.add(alloc, name.as_slice(), meaning)?;
    Ok(fault)
}

#[tactic(auto, using(crate::proofs::Walk::labels_step, crate::proofs::Walk::labels_done, crate::proofs::Walk::labels_again_step, crate::proofs::Walk::labels_again_done))]
fn give_labels(
    alloc: Global,
    names: &mut Names,
    line: u32,
    at: u64,
    labels: &[Name],
    so_far: Option<LineFault>,
) -> Result<Option<LineFault>, NoMemory>
    ensures names { OnOk result (names.new ≡ add_labels names.old at labels.now) }
    ensures fault { IfOk result (λ f. f ≡ first_of_two so_far (first_fault (labels_again names.old line at labels.now))) }
{
    let mut fault = so_far;
    for i in 0..labels.len() {
        let label = &labels[i];
        fault = give(alloc, names, line, label, Meaning::Label { at }, fault)?;
    }
    Ok(fault)
}

fn give_own(
    alloc: Global,
    names: &mut Names,
    state: &State,
    line: u32,
    body: &Body,
    so_far: Option<LineFault>,
) -> Result<Option<LineFault>, NoMemory>
    requires { state.now.text_len < 2 ^ 60 }
    ensures names { OnOk result (names.new ≡ add_own names.old state.now body.now) }
    ensures fault { IfOk result (λ f. f ≡ first_of_two so_far (first_fault (own_again names.old line body.now))) }
{
    match body {
        Body::Func(name) => {
            let meaning = Meaning::Function {
                number: state.funcs,
                at: text_at(state),
            };
            give(alloc, names, line, name, meaning, so_far)
        }
        Body::Object(name) => give(alloc, names, line, name, Meaning::Object, so_far),
        _ => Ok(so_far),
    }
}

/// Gives the names of a statement.
#[tactic(auto, using(crate::proofs::Walk::first_fault_more))]
fn give_all(
    alloc: Global,
    names: &mut Names,
    state: &State,
    x: &Statement,
    so_far: Option<LineFault>,
) -> Result<Option<LineFault>, NoMemory>
    requires { state.now.text_len < 2 ^ 60 }
    ensures names { OnOk result (names.new ≡ names_after names.old state.now x.now) }
    ensures fault { IfOk result (λ f. f ≡ first_of_two so_far (first_fault (name_faults names.old state.now x.now))) }
{
    let at = text_at(state);
    let labels = give_labels(alloc, names, x.line, at, x.labels.as_slice(), so_far)?;
    if is_void(state.section, x) {
        return Ok(labels);
    }
    give_own(alloc, names, state, x.line, &x.body, labels)
}

/// The names of a text, and the first fault of a name that is given again.
#[tactic(auto, using(crate::proofs::Walk::names_step, crate::proofs::Walk::name_faults_step, crate::proofs::Walk::names_done, crate::proofs::Walk::name_faults_done))]
pub fn first_pass(
    alloc: Global,
    items: &[Statement],
) -> Result<(Names, Option<LineFault>), NoMemory>
    requires { length items.now < 2 ^ 30 }
    ensures names { IfOk result (λ r. r.0 ≡ names_from [] start items.now) }
    ensures fault { IfOk result (λ r. r.1 ≡ first_fault (name_faults_from [] start items.now)) }
{
    let mut names = Names::new(alloc);
    let mut state = start();
    let mut fault = None;
    for i in 0..items.len() {
        let x = &items[i];
        fault = give_all(alloc, &mut names, &state, x, fault)?;
        state = step(alloc, state, x)?;
    }
    Ok((names, fault))
}

/// The first fault of all, and the state at the end.
#[tactic(auto, using(crate::proofs::Walk::faults_step, crate::proofs::Walk::faults_done, crate::proofs::Walk::after_step, crate::proofs::Walk::after_done))]
pub fn second_pass(
    alloc: Global,
    names: &Names,
    items: &[Statement],
    so_far: Option<LineFault>,
) -> Result<(State, Option<LineFault>), NoMemory>
    requires { length items.now < 2 ^ 30 }
    ensures state { IfOk result (λ r. r.0 ≡ after start items.now) }
    ensures text_len { IfOk result (λ r. r.0.text_len < 2 ^ 60) }
    ensures fault { IfOk result (λ r. r.1 ≡ first_of_two so_far (first_fault (faults_from names.now start items.now))) }
{
    let mut state = start();
    let mut fault = so_far;
    for i in 0..items.len() {
        let x = &items[i];
        fault = statement_fault(names, &state, x, fault);
        state = step(alloc, state, x)?;
    }
    let fault = end_fault(&state, fault);
    Ok((state, fault))
}
