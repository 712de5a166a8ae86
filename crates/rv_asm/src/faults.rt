//! The faults of statements, and which of them counts first.

ghost use Rattle.std.specs.Prelude.{◌≡◌, ◌<◌, ◌+◌, ◌^◌, ◌++◌, ◌==◌, ◌&&◌, not, is_some, Some, neg_ℤ, pos};
ghost use Rattle.asm_text.specs.Bodies.{is_within};
ghost use Rattle.asm_text.specs.Keywords.{lookup};
ghost use Rattle.rv_asm.specs.Order.{one_fault, fault_if, first_of_two, first_fault};
ghost use Rattle.rv_asm.specs.Names.{text_at};
ghost use Rattle.rv_asm.specs.Faults.{void_faults, nesting_faults, address_of, aim, reaches, jal_reaches, branch_reaches, jal_faults, branch_faults, is_function, function_faults, aim_faults, size_faults, faults, left_open, end_faults};

use crate::TEXT_START;
use crate::fault::{FaultKind, LineFault};
use crate::meaning::Meaning;
use crate::names::Names;
use crate::state::{Open, State};
use crate::step::{is_data, is_misplaced, is_void, size};
use asm_text::body::Body;
use asm_text::operand::Target;
use asm_text::statement::Statement;
use rv_encode::{BRANCH_REACH, JAL_REACH};

/// The most bytes of text, and of data.
const SECTION_LIMIT: u64 = 16777216;

/// The first of the first fault so far and another.
pub fn first(so_far: Option<LineFault>, line: u32, kind: FaultKind) -> Option<LineFault>
    ensures { result ≡ first_of_two so_far (first_fault (one_fault line kind)) }
{
    let fault = LineFault { line, kind };
    match so_far {
        Some(old) => Some(old.earlier(fault)),
        None => Some(fault),
    }
}

/// The same, where something is wrong.
pub fn first_if(
    so_far: Option<LineFault>,
    wrong: bool,
    line: u32,
    kind: FaultKind,
) -> Option<LineFault>
    ensures { result ≡ first_of_two so_far (first_fault (fault_if wrong line kind)) }
{
    if wrong {
        first(so_far, line, kind)
    } else {
        so_far
    }
}

#[tactic(auto, using(crate::proofs::Walk::first_fault_more))]
fn void_fault(state: &State, x: &Statement, so_far: Option<LineFault>) -> Option<LineFault>
    ensures { result ≡ first_of_two so_far (first_fault (void_faults state.now x.now)) }
{
    let unknown = first_if(
        so_far,
        matches!(&x.body, Body::Unknown),
        x.line,
        FaultKind::Unknown,
    );
    let misplaced = first_if(
        unknown,
        is_misplaced(state.section, x),
        x.line,
        FaultKind::Misplaced,
    );
    first_if(
        misplaced,
        matches!(&x.body, Body::Bad(_)),
        x.line,
        FaultKind::Malformed,
    )
}

fn nesting_fault(
    state: &State,
    line: u32,
    body: &Body,
    so_far: Option<LineFault>,
) -> Option<LineFault>
    ensures { result ≡ first_of_two so_far (first_fault (nesting_faults state.now line body.now)) }
{
    let wrong = match body {
        Body::Func(_) => state.func.is_some(),
        Body::End => !state.func.is_some(),
        Body::Object(_) => state.object.is_some(),
        Body::EndObject => !state.object.is_some(),
        _ => false,
    };
    first_if(so_far, wrong, line, FaultKind::Unpaired)
}

/// The address that a target stands for.
pub fn aim(names: &Names, target: &Target) -> Option<i128>
    ensures { result ≡ aim names.now target.now }
{
    match target {
        Target::Address(a) => Some(*a),
        Target::Name(name) => match names.get(name.as_slice()) {
            Some(Meaning::Label { at }) => Some(at as i128),
            Some(Meaning::Function { at, .. }) => Some(at as i128),
            _ => None,
        },
    }
}

fn reaches(lo: i128, hi: i128, here: u64, a: i128) -> bool
    ensures { result ≡ reaches lo hi here a }
{
    if a < 0 {
        return false;
    }
    let far = a - here as i128;
    !(far < lo) && !(hi < far) && far % 2 == 0
}

/// Whether a `jal` at `here` reaches an address.
pub fn jal_reaches(here: u64, a: i128) -> bool
    ensures { result ≡ jal_reaches here a }
{
    reaches(-(JAL_REACH as i128), JAL_REACH as i128 - 2, here, a)
}

/// Whether a branch at `here` reaches an address.
pub fn branch_reaches(here: u64, a: i128) -> bool
    ensures { result ≡ branch_reaches here a }
{
    reaches(-(BRANCH_REACH as i128), BRANCH_REACH as i128 - 2, here, a)
}

fn jal_fault(line: u32, here: u64, a: Option<i128>, so_far: Option<LineFault>) -> Option<LineFault>
    ensures { result ≡ first_of_two so_far (first_fault (jal_faults line here a)) }
{
    match a {
        None => first(so_far, line, FaultKind::Undefined),
        Some(a) => first_if(so_far, !jal_reaches(here, a), line, FaultKind::OutOfRange),
    }
}

fn branch_fault(
    line: u32,
    here: u64,
    a: Option<i128>,
    so_far: Option<LineFault>,
) -> Option<LineFault>
    ensures { result ≡ first_of_two so_far (first_fault (branch_faults line here a)) }
{
    match a {
        None => first(so_far, line, FaultKind::Undefined),
        Some(a) => first_if(
            so_far,
            !branch_reaches(here, a),
            line,
            FaultKind::OutOfRange,
        ),
    }
}

fn function_fault(
    names: &Names,
    line: u32,
    name: &[u8],
    so_far: Option<LineFault>,
) -> Option<LineFault>
    ensures { result ≡ first_of_two so_far (first_fault (function_faults names.now line name.now)) }
{
    let is_function = matches!(names.get(name), Some(Meaning::Function { .. }));
    first_if(so_far, !is_function, line, FaultKind::Undefined)
}

/// The address of the next word of text.
pub fn text_at(state: &State) -> u64
    requires { state.now.text_len < 2 ^ 60 }
    ensures { result ≡ text_at state.now }
{
    TEXT_START + state.text_len
}

fn aim_fault(
    names: &Names,
    state: &State,
    line: u32,
    body: &Body,
    so_far: Option<LineFault>,
) -> Option<LineFault>
    requires { state.now.text_len < 2 ^ 60 }
    ensures { result ≡ first_of_two so_far (first_fault (aim_faults names.now state.now line body.now)) }
{
    let here = text_at(state);
    match body {
        Body::Jal { target, .. } => jal_fault(line, here, aim(names, target), so_far),
        Body::Branch { target, .. } => branch_fault(line, here, aim(names, target), so_far),
        Body::Call(name) | Body::Slot(name) | Body::Entry(name) => {
            function_fault(names, line, name.as_slice(), so_far)
        }
        Body::OutOfRange { .. } => first(so_far, line, FaultKind::OutOfRange),
        _ => so_far,
    }
}

fn size_fault(state: &State, line: u32, body: &Body, so_far: Option<LineFault>) -> Option<LineFault>
    requires text_len { state.now.text_len < 2 ^ 60 }
    requires data_len { state.now.data_len < 2 ^ 60 }
    ensures { result ≡ first_of_two so_far (first_fault (size_faults state.now line body.now)) }
{
    let len = if is_data(state.section) {
        state.data_len
    } else {
        state.text_len
    };
    first_if(
        so_far,
        len + size(body) > SECTION_LIMIT,
        line,
        FaultKind::TooLarge,
    )
}

/// The first fault so far and of a statement.
#[tactic(auto, using(crate::proofs::Walk::first_fault_more))]
pub fn statement_fault(
    names: &Names,
    state: &State,
    x: &Statement,
    so_far: Option<LineFault>,
) -> Option<LineFault>
    requires text_len { state.now.text_len < 2 ^ 60 }
    requires data_len { state.now.data_len < 2 ^ 60 }
    ensures { result ≡ first_of_two so_far (first_fault (faults names.now state.now x.now)) }
{
    if is_void(state.section, x) {
        return void_fault(state, x, so_far);
    }
    let nesting = nesting_fault(state, x.line, &x.body, so_far);
    let aim = aim_fault(names, state, x.line, &x.body, nesting);
    size_fault(state, x.line, &x.body, aim)
}

fn open_fault(left: &Option<Open>, so_far: Option<LineFault>) -> Option<LineFault>
    ensures { result ≡ first_of_two so_far (first_fault (left_open left.now)) }
{
    match left {
        Some(o) => first(so_far, o.line, FaultKind::Unpaired),
        None => so_far,
    }
}

/// The first fault so far and at the end.
#[tactic(auto, using(crate::proofs::Walk::first_fault_more))]
pub fn end_fault(state: &State, so_far: Option<LineFault>) -> Option<LineFault>
    ensures { result ≡ first_of_two so_far (first_fault (end_faults state.now)) }
{
    let func = open_fault(&state.func, so_far);
    let object = open_fault(&state.object, func);
    first_if(
        object,
        state.funcs == 0 && !state.func.is_some(),
        1,
        FaultKind::Undefined,
    )
}
