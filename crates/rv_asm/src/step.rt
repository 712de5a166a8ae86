//! The state after a statement.

ghost use Rattle.std.specs.Prelude.{◌≡◌, ◌≤◌, ◌+◌, ◌<◌, ◌^◌, IfOk};
ghost use Rattle.rv_asm.specs.State.{size, wants, is_data, is_misplaced, is_void, opened, start, step};

use crate::state::{Open, State};
use asm_text::body::Body;
use asm_text::keyword::Section;
use asm_text::name::Name;
use asm_text::statement::Statement;
use oc_base::fault::NoMemory;
use std::alloc::Global;

pub fn is_data(section: Section) -> bool
    ensures { result ≡ is_data section }
{
    matches!(section, Section::Data)
}

/// The section that a statement stands in, unless it may stand in both.
fn wants(body: &Body) -> Option<Section>
    ensures { result ≡ wants body.now }
{
    match body {
        Body::Bad(section) => *section,
        Body::OutOfRange { section, .. } => *section,
        Body::Nothing
        | Body::Unknown
        | Body::ToText
        | Body::ToData
        | Body::Entry(_)
        | Body::Word(_) => None,
        Body::Object(_) | Body::EndObject | Body::Bytes(_) | Body::Space(_) | Body::Slot(_) => {
            Some(Section::Data)
        }
        _ => Some(Section::Text),
    }
}

/// Whether a statement stands in the other section. Labels stand in text.
pub fn is_misplaced(section: Section, x: &Statement) -> bool
    ensures { result ≡ is_misplaced section x.now }
{
    if x.labels.len() > 0 && is_data(section) {
        return true;
    }
    match wants(&x.body) {
        Some(wanted) => is_data(wanted) != is_data(section),
        None => false,
    }
}

/// Whether a statement has no effect.
pub fn is_void(section: Section, x: &Statement) -> bool
    ensures { result ≡ is_void section x.now }
{
    is_misplaced(section, x) || matches!(&x.body, Body::Unknown | Body::Bad(_))
}

/// The bytes that a statement takes in its section. A size past the limit counts as twice the limit.
pub fn size(body: &Body) -> u64
    ensures size { result ≡ size body.now }
    ensures most { result ≤ 33554432 }
{
    let size = match body {
        Body::Instr(_) | Body::Jal { .. } | Body::Branch { .. } | Body::Word(_) => 4,
        Body::Call(_) | Body::Slot(_) => 8,
        Body::Nops(count) => 4 * (*count).min(1 << 65),
        Body::Space(count) => *count,
        Body::Bytes(bytes) => bytes.len() as u128,
        Body::OutOfRange { size, .. } => *size as u128,
        _ => 0,
    };
    size.min(33554432) as u64
}

/// A function or an object that a statement opens, unless one is open.
fn opened(
    alloc: Global,
    before: Option<Open>,
    line: u32,
    name: &Name,
    from: u64,
) -> Result<Option<Open>, NoMemory>
    ensures { IfOk result (λ open_. open_ ≡ opened before (record { line = line; name = name.now; from = from })) }
{
    if before.is_some() {
        return Ok(before);
    }
    let name = name.copy(alloc)?;
    Ok(Some(Open { line, name, from }))
}

/// The state before the first statement.
pub fn start() -> State
    ensures { result ≡ start }
{
    State {
        section: Section::Text,
        text_len: 0,
        data_len: 0,
        funcs: 0,
        func: None,
        object: None,
    }
}

/// The state after a statement.
pub fn step(alloc: Global, state: State, x: &Statement) -> Result<State, NoMemory>
    requires text_len { state.text_len < 2 ^ 60 }
    requires data_len { state.data_len < 2 ^ 60 }
    requires funcs { state.funcs + 1 < 2 ^ 32 }
    ensures state { IfOk result (λ s. s ≡ step state x.now) }
    ensures text_len { IfOk result (λ s. s.text_len ≤ state.text_len + 33554432) }
    ensures data_len { IfOk result (λ s. s.data_len ≤ state.data_len + 33554432) }
    ensures funcs { IfOk result (λ s. s.funcs ≤ state.funcs + 1) }
{
    if is_void(state.section, x) {
        return Ok(state);
    }
    let State {
        section,
        text_len,
        data_len,
        funcs,
        func,
        object,
    } = state;
    let size = size(&x.body);
    let (text_size, data_size) = if is_data(section) {
        (0, size)
    } else {
        (size, 0)
    };
    let (section, funcs, func, object) = match &x.body {
        Body::ToText => (Section::Text, funcs, func, object),
        Body::ToData => (Section::Data, funcs, func, object),
        Body::Func(name) => {
            (
                section,
                funcs,
                opened(alloc, func, x.line, name, text_len)?,
                object,
            )
        }
        Body::End => (section, funcs + u32::from(func.is_some()), None, object),
        Body::Object(name) => {
            (
                section,
                funcs,
                func,
                opened(alloc, object, x.line, name, data_len)?,
            )
        }
        Body::EndObject => (section, funcs, func, None),
        _ => (section, funcs, func, object),
    };
    Ok(State {
        section,
        text_len: text_len + text_size,
        data_len: data_len + data_size,
        funcs,
        func,
        object,
    })
}
