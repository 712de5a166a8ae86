//! What statements give. Each list is made by a walk of its own, and only for a text without a fault.

ghost use Rattle.std.specs.Prelude.{◌≡◌, ◌≤◌, ◌<◌, ◌+◌, ◌-◌, ◌*◌, ◌^◌, ◌++◌, ◌∷◌, [], length, replicate, Some, None, true, pos, ◌-ℤ◌, if◌then◌else◌, IfOk, OnOk};
ghost use Rattle.std.specs.List.{All};
ghost use Rattle.asm_text.specs.Keywords.{lookup};
ghost use Rattle.rv_asm.specs.State.{start, step, collect};
ghost use Rattle.rv_asm.specs.Emission.{AreWords, nop, jal_code, branch_code, call_code, text_code, code, slot_bytes, data_bytes, bytes, named, func, object, to_function, own_fixup, fixup, entry, entry_or};
ghost use Rattle.rv_asm.specs.Kept.{IsSound, IsBefore, has_no_zero};
ghost use Rattle.rv_asm.specs.Emission.{Stands};
ghost use Rattle.rv_asm.specs.Faults.{jal_reaches, branch_reaches};
ghost use Rattle.rv_isa.specs.Instr.{HasWord};
ghost use Rattle.rv_asm.specs.declared.code.Code.TheVariants.{Instruction};

use crate::TEXT_START;
use crate::code::Code;
use crate::faults::{aim, branch_reaches, jal_reaches, text_at};
use crate::meaning::Meaning;
use crate::names::Names;
use crate::state::{Open, State};
use crate::step::{is_data, is_void, size, start, step};
use crate::symbol::{Fixup, Named};
use asm_text::body::{Body, Encodable};
use asm_text::name::Name;
use asm_text::operand::Target;
use asm_text::statement::Statement;
use oc_base::fault::NoMemory;
use oc_base::items::Items;
use rv_encode::{HIGH_COUNT, HIGH_UNIT, LOW_HALF, encode};
use rv_isa::fields::{Imm12, Imm20, OffB, OffJ, Reg};
use rv_isa::instr::{Cond, ImmOp, Instr};
use std::alloc::Global;

// ---- words of text

fn push(all: &mut Vec<Code>, instr: Instr) -> Result<(), NoMemory>
    requires { HasWord instr }
    ensures { OnOk result (all.new.items ≡ all.old.items ++ Instruction instr ∷ []) }
{
    all.push(Code::Instruction(Encodable::new(instr)))?;
    Ok(())
}

fn jal_off(here: u64, a: i128) -> Option<OffJ>
    ensures { result ≡ (if jal_reaches here a then Some (a -ℤ pos here) else None) }
{
    if !jal_reaches(here, a) {
        return None;
    }
    OffJ::new((a - here as i128) as i32)
}

fn branch_off(here: u64, a: i128) -> Option<OffB>
    ensures { result ≡ (if branch_reaches here a then Some (a -ℤ pos here) else None) }
{
    if !branch_reaches(here, a) {
        return None;
    }
    OffB::new((a - here as i128) as i32)
}

fn push_jal(all: &mut Vec<Code>, rd: Reg, here: u64, a: Option<i128>) -> Result<(), NoMemory>
    ensures { OnOk result (all.new.items ≡ all.old.items ++ jal_code rd here a) }
{
    if let Some(a) = a
        && let Some(off) = jal_off(here, a)
    {
        push(all, Instr::Jal { rd, off })?;
    }
    Ok(())
}

fn push_branch(
    all: &mut Vec<Code>,
    cond: Cond,
    rs1: Reg,
    rs2: Reg,
    here: u64,
    a: Option<i128>,
) -> Result<(), NoMemory>
    ensures { OnOk result (all.new.items ≡ all.old.items ++ branch_code cond rs1 rs2 here a) }
{
    if let Some(a) = a
        && let Some(off) = branch_off(here, a)
    {
        push(
            all,
            Instr::Branch {
                cond,
                rs1,
                rs2,
                off,
            },
        )?;
    }
    Ok(())
}

fn push_call(all: &mut Vec<Code>, here: u64, meaning: Option<Meaning>) -> Result<(), NoMemory>
    ensures { OnOk result (all.new.items ≡ all.old.items ++ call_code here meaning) }
{
    if let Some(Meaning::Function { at, .. }) = meaning {
        let ahead = (at as u128 + (1 << 32) + LOW_HALF as u128).saturating_sub(here as u128);
        let x1 = Reg::new(1).unwrap();
        let imm = Imm20::new((ahead / HIGH_UNIT as u128 % HIGH_COUNT as u128) as i32).unwrap();
        let off = Imm12::new((ahead % HIGH_UNIT as u128) as i32 - LOW_HALF as i32).unwrap();
        push(all, Instr::Auipc { rd: x1, imm })?;
        push(
            all,
            Instr::Jalr {
                rd: x1,
                rs1: x1,
                off,
            },
        )?;
    }
    Ok(())
}

fn nop() -> Instr
    ensures word { HasWord result }
    ensures code { Instruction result ≡ nop }
{
    Instr::AluImm {
        op: ImmOp::Addi,
        rd: Reg::new(0).unwrap(),
        rs1: Reg::new(0).unwrap(),
        imm: Imm12::new(0).unwrap(),
    }
}

/// Adds so many times `addi x0,x0,0`.
#[tactic(auto, using(crate::proofs::Words::one_more))]
fn push_nops(all: &mut Vec<Code>, count: u64) -> Result<(), NoMemory>
    ensures { OnOk result (all.new.items ≡ all.old.items ++ replicate count nop) }
{
    for _i in 0..count {
        push(all, nop())?;
    }
    Ok(())
}

fn push_text(names: &Names, state: &State, body: &Body, all: &mut Vec<Code>) -> Result<(), NoMemory>
    requires { state.now.text_len < 2 ^ 60 }
    ensures { OnOk result (all.new.items ≡ all.old.items ++ text_code names.now state.now body.now) }
{
    let here = text_at(state);
    match body {
        Body::Instr(instr) => push(all, instr.get()),
        Body::Jal { rd, target } => push_jal(all, *rd, here, aim(names, target)),
        Body::Branch {
            cond,
            rs1,
            rs2,
            target,
        } => push_branch(all, *cond, *rs1, *rs2, here, aim(names, target)),
        Body::Call(name) => push_call(all, here, names.get(name.as_slice())),
        Body::Word(word) => {
            all.push(Code::Raw(*word))?;
            Ok(())
        }
        Body::Nops(_) => push_nops(all, size(body) / 4),
        _ => Ok(()),
    }
}

fn push_code(
    names: &Names,
    state: &State,
    x: &Statement,
    all: &mut Vec<Code>,
) -> Result<(), NoMemory>
    requires { state.now.text_len < 2 ^ 60 }
    ensures { OnOk result (all.new.items ≡ all.old.items ++ code names.now state.now x.now) }
{
    if is_void(state.section, x) || is_data(state.section) {
        return Ok(());
    }
    push_text(names, state, &x.body, all)
}

/// The code of all statements.
#[tactic(auto, using(crate::proofs::Walk::code_step, crate::proofs::Walk::code_done))]
fn code_of(alloc: Global, names: &Names, items: &[Statement]) -> Result<Vec<Code>, NoMemory>
    requires { length items.now < 2 ^ 30 }
    ensures { IfOk result (λ v. v.items ≡ collect (code names.now) start items.now) }
{
    let mut all = Vec::new(alloc);
    let mut state = start();
    for i in 0..items.len() {
        let x = &items[i];
        push_code(names, &state, x, &mut all)?;
        state = step(alloc, state, x)?;
    }
    Ok(all)
}

fn word_of(code: Code) -> u32
    ensures { Stands result code }
{
    match code {
        Code::Instruction(instr) => encode(&instr.get()),
        Code::Raw(word) => word,
    }
}

/// The words that stand for instructions and raw words, each in its place.
#[tactic(auto, using(crate::proofs::Words::word_more))]
pub fn words_of(alloc: Global, codes: &[Code]) -> Result<Vec<u32>, NoMemory>
    ensures { IfOk result (λ v. AreWords v.items codes.now) }
{
    let mut words = Vec::new(alloc);
    for i in 0..codes.len() {
        words.push(word_of(codes[i]))?;
    }
    Ok(words)
}

/// The words of text.
pub fn text_of(alloc: Global, names: &Names, items: &[Statement]) -> Result<Vec<u32>, NoMemory>
    requires { length items.now < 2 ^ 30 }
    ensures { IfOk result (λ v. AreWords v.items (collect (code names.now) start items.now)) }
{
    let codes = code_of(alloc, names, items)?;
    words_of(alloc, &codes)
}

// ---- bytes of data

#[tactic(auto, using(crate::proofs::Words::one_more))]
fn push_zeros(all: &mut Vec<u8>, count: u64) -> Result<(), NoMemory>
    ensures { OnOk result (all.new.items ≡ all.old.items ++ replicate count 0) }
{
    for _i in 0..count {
        all.push(0)?;
    }
    Ok(())
}

fn push_data(names: &Names, body: &Body, all: &mut Vec<u8>) -> Result<(), NoMemory>
    ensures { OnOk result (all.new.items ≡ all.old.items ++ data_bytes names.now body.now) }
{
    match body {
        Body::Bytes(bytes) => all.extend_from_slice(bytes.as_slice())?,
        Body::Word(word) => all.extend_from_slice(&word.to_le_bytes())?,
        Body::Space(_) => push_zeros(all, size(body))?,
        Body::Slot(name) => {
            if let Some(Meaning::Function { at, .. }) = names.get(name.as_slice()) {
                all.extend_from_slice(&at.to_le_bytes())?;
            }
        }
        _ => (),
    }
    Ok(())
}

fn push_bytes(
    names: &Names,
    state: &State,
    x: &Statement,
    all: &mut Vec<u8>,
) -> Result<(), NoMemory>
    ensures { OnOk result (all.new.items ≡ all.old.items ++ bytes names.now state.now x.now) }
{
    if is_void(state.section, x) || !is_data(state.section) {
        return Ok(());
    }
    push_data(names, &x.body, all)
}

/// The bytes of data.
#[tactic(auto, using(crate::proofs::Walk::bytes_step, crate::proofs::Walk::bytes_done))]
pub fn bytes_of(alloc: Global, names: &Names, items: &[Statement]) -> Result<Vec<u8>, NoMemory>
    requires { length items.now < 2 ^ 30 }
    ensures { IfOk result (λ v. v.items ≡ collect (bytes names.now) start items.now) }
{
    let mut all = Vec::new(alloc);
    let mut state = start();
    for i in 0..items.len() {
        let x = &items[i];
        push_bytes(names, &state, x, &mut all)?;
        state = step(alloc, state, x)?;
    }
    Ok(all)
}

// ---- functions and objects

#[tactic(auto, using(crate::proofs::Before::name_whole))]
fn bytes_of_name(alloc: Global, name: &Name) -> Result<Items<u8>, NoMemory>
    ensures bytes { IfOk result (λ bytes. bytes ≡ name.now) }
    ensures whole { IfOk result (λ bytes. has_no_zero bytes ≡ true) }
{
    Ok(Items::from_slice(alloc, name.as_slice())?)
}

#[tactic(auto, using(crate::proofs::Before::sound_more))]
fn push_sound(all: &mut Vec<Named>, one: Named) -> Result<(), NoMemory>
    requires one { IsSound one }
    requires sound { All IsSound all.old.items }
    ensures list { OnOk result (all.new.items ≡ all.old.items ++ one ∷ []) }
    ensures sound { OnOk result (All IsSound all.new.items) }
{
    all.push(one)?;
    Ok(())
}

fn push_named(
    alloc: Global,
    base: u64,
    to: u64,
    open_: &Option<Open>,
    all: &mut Vec<Named>,
) -> Result<(), NoMemory>
    requires base { base < 2 ^ 62 }
    requires to { to < 2 ^ 60 }
    requires before { IsBefore open_.now to }
    requires sound { All IsSound all.old.items }
    ensures list { OnOk result (all.new.items ≡ all.old.items ++ named base to open_.now) }
    ensures sound { OnOk result (All IsSound all.new.items) }
{
    if let Some(o) = open_ {
        let name = bytes_of_name(alloc, &o.name)?;
        let from = base + o.from;
        let to = base + to;
        push_sound(all, Named { name, from, to })?;
    }
    Ok(())
}

fn push_func(
    alloc: Global,
    state: &State,
    x: &Statement,
    all: &mut Vec<Named>,
) -> Result<(), NoMemory>
    requires text_len { state.now.text_len < 2 ^ 60 }
    requires before { IsBefore state.now.func state.now.text_len }
    requires sound { All IsSound all.old.items }
    ensures list { OnOk result (all.new.items ≡ all.old.items ++ func state.now x.now) }
    ensures sound { OnOk result (All IsSound all.new.items) }
{
    if !is_void(state.section, x) && matches!(&x.body, Body::End) {
        return push_named(alloc, TEXT_START, state.text_len, &state.func, all);
    }
    Ok(())
}

/// The functions, in the order of the text.
#[tactic(auto, using(crate::proofs::Walk::func_step, crate::proofs::Walk::func_done, crate::proofs::Before::func_before))]
pub fn funcs_of(alloc: Global, items: &[Statement]) -> Result<Vec<Named>, NoMemory>
    requires { length items.now < 2 ^ 30 }
    ensures list { IfOk result (λ v. v.items ≡ collect func start items.now) }
    ensures sound { IfOk result (λ v. All IsSound v.items) }
{
    let mut all = Vec::new(alloc);
    let mut state = start();
    for i in 0..items.len() {
        let x = &items[i];
        push_func(alloc, &state, x, &mut all)?;
        state = step(alloc, state, x)?;
    }
    Ok(all)
}

fn push_object(
    alloc: Global,
    base: u64,
    state: &State,
    x: &Statement,
    all: &mut Vec<Named>,
) -> Result<(), NoMemory>
    requires base { base < 2 ^ 62 }
    requires data_len { state.now.data_len < 2 ^ 60 }
    requires before { IsBefore state.now.object state.now.data_len }
    requires sound { All IsSound all.old.items }
    ensures list { OnOk result (all.new.items ≡ all.old.items ++ object base state.now x.now) }
    ensures sound { OnOk result (All IsSound all.new.items) }
{
    if !is_void(state.section, x) && matches!(&x.body, Body::EndObject) {
        return push_named(alloc, base, state.data_len, &state.object, all);
    }
    Ok(())
}

/// The objects, in the order of the text, where data starts at `base`.
#[tactic(auto, using(crate::proofs::Walk::object_step, crate::proofs::Walk::object_done, crate::proofs::Before::object_before))]
pub fn objects_of(alloc: Global, base: u64, items: &[Statement]) -> Result<Vec<Named>, NoMemory>
    requires base { base < 2 ^ 62 }
    requires few { length items.now < 2 ^ 30 }
    ensures list { IfOk result (λ v. v.items ≡ collect (object base) start items.now) }
    ensures sound { IfOk result (λ v. All IsSound v.items) }
{
    let mut all = Vec::new(alloc);
    let mut state = start();
    for i in 0..items.len() {
        let x = &items[i];
        push_object(alloc, base, &state, x, &mut all)?;
        state = step(alloc, state, x)?;
    }
    Ok(all)
}

// ---- relocations and entries

fn push_to_function(
    at: u64,
    kind: u8,
    meaning: Option<Meaning>,
    all: &mut Vec<Fixup>,
) -> Result<(), NoMemory>
    ensures { OnOk result (all.new.items ≡ all.old.items ++ to_function at kind meaning) }
{
    if let Some(Meaning::Function { number, .. }) = meaning {
        all.push(Fixup {
            at,
            kind,
            func: number,
        })?;
    }
    Ok(())
}

fn push_own_fixup(
    names: &Names,
    base: u64,
    state: &State,
    body: &Body,
    all: &mut Vec<Fixup>,
) -> Result<(), NoMemory>
    requires base { base < 2 ^ 62 }
    requires text_len { state.now.text_len < 2 ^ 60 }
    requires data_len { state.now.data_len < 2 ^ 60 }
    ensures { OnOk result (all.new.items ≡ all.old.items ++ own_fixup names.now base state.now body.now) }
{
    let here = text_at(state);
    match body {
        Body::Jal { target, .. } => match target {
            Target::Name(name) => push_to_function(here, 17, names.get(name.as_slice()), all),
            Target::Address(_) => Ok(()),
        },
        Body::Call(name) => push_to_function(here, 19, names.get(name.as_slice()), all),
        Body::Slot(name) => {
            push_to_function(base + state.data_len, 2, names.get(name.as_slice()), all)
        }
        _ => Ok(()),
    }
}

fn push_fixup(
    names: &Names,
    base: u64,
    state: &State,
    x: &Statement,
    all: &mut Vec<Fixup>,
) -> Result<(), NoMemory>
    requires base { base < 2 ^ 62 }
    requires text_len { state.now.text_len < 2 ^ 60 }
    requires data_len { state.now.data_len < 2 ^ 60 }
    ensures { OnOk result (all.new.items ≡ all.old.items ++ fixup names.now base state.now x.now) }
{
    if is_void(state.section, x) {
        return Ok(());
    }
    push_own_fixup(names, base, state, &x.body, all)
}

/// The relocations, in the order of the text, where data starts at `base`.
#[tactic(auto, using(crate::proofs::Walk::fixup_step, crate::proofs::Walk::fixup_done))]
pub fn fixups_of(
    alloc: Global,
    names: &Names,
    base: u64,
    items: &[Statement],
) -> Result<Vec<Fixup>, NoMemory>
    requires base { base < 2 ^ 62 }
    requires few { length items.now < 2 ^ 30 }
    ensures { IfOk result (λ v. v.items ≡ collect (fixup names.now base) start items.now) }
{
    let mut all = Vec::new(alloc);
    let mut state = start();
    for i in 0..items.len() {
        let x = &items[i];
        push_fixup(names, base, &state, x, &mut all)?;
        state = step(alloc, state, x)?;
    }
    Ok(all)
}

fn push_entry(
    names: &Names,
    state: &State,
    x: &Statement,
    all: &mut Vec<u64>,
) -> Result<(), NoMemory>
    ensures { OnOk result (all.new.items ≡ all.old.items ++ entry names.now state.now x.now) }
{
    if !is_void(state.section, x)
        && let Body::Entry(name) = &x.body
        && let Some(Meaning::Function { at, .. }) = names.get(name.as_slice())
    {
        all.push(at)?;
    }
    Ok(())
}

/// The addresses of the functions that are named as entries, in the order of the text.
#[tactic(auto, using(crate::proofs::Walk::entry_step, crate::proofs::Walk::entry_done))]
pub fn entries_of(alloc: Global, names: &Names, items: &[Statement]) -> Result<Vec<u64>, NoMemory>
    requires { length items.now < 2 ^ 30 }
    ensures { IfOk result (λ v. v.items ≡ collect (entry names.now) start items.now) }
{
    let mut all = Vec::new(alloc);
    let mut state = start();
    for i in 0..items.len() {
        let x = &items[i];
        push_entry(names, &state, x, &mut all)?;
        state = step(alloc, state, x)?;
    }
    Ok(all)
}

/// The last entry, or else the first function's start.
pub fn entry_or(entries: &[u64], funcs: &[Named]) -> u64
    ensures { result ≡ entry_or entries.now funcs.now }
{
    if !entries.is_empty() {
        return entries[entries.len() - 1];
    }
    if !funcs.is_empty() {
        return funcs[0].from;
    }
    TEXT_START
}
