//! Steps of a hart by a copy of the code, with a note of each.

ghost use Rattle.std.specs.Prelude.{◌≡◌, ◌<◌, ◌≤◌, ◌+◌, ◌*◌, ◌^◌, ℕ, suc, true, false, length, Some, None, IfSome, IfNone};
ghost use Rattle.std.specs.Vec.{vec_capacity};
ghost use Rattle.hart.specs.Harts.{with_reg};
ghost use Rattle.machine.specs.Transfers.{transfers};
ghost use Rattle.rv_isa.specs.Decoded.{decoded};
ghost use Rattle.rv_isa.specs.Instr.{HasWord};
ghost use Rattle.sim_laws.specs.Origins.{is_moved_address};
ghost use Rattle.world.specs.Adopting.{code_shown};
ghost use Rattle.world.specs.Fetching.{led, led_by};
ghost use Rattle.ahead.specs.Making.{is_layout_at, sort_of, Adds, AddsMany, Stops};

use crate::going::{go, transfers};
use crate::note::{Note, Sort};
use guest_mem::flat::FlatMem;
use hart::hart::Hart;
use image::targets::{made_by, target};
use layout::point::Point;
use link_tags::value::Value;
use rv_decode::decode;
use rv_isa::fields::Reg;
use rv_isa::instr::Instr;
use world::shared::CodeNow;

/// A hart, and the notes of its steps.
#[derive(Drop)]
pub struct Course {
    pub hart: Hart,
    pub notes: Vec<Note>,
    /// The position of the layout in which a word was last found. It may be any number.
    pub recent: usize,
}

/// What stands at an address: a word, what it reads as, and what the address stands for.
#[derive(Clone, Copy)]
struct Found {
    word: u32,
    read: Option<Instr>,
    point: Point,
}

#[inline(always)]
fn find(code: &CodeNow, recent: &mut usize, at: u64) -> Option<Found>
    ensures word { IfSome result (λ f. (code_shown code.now).word at ≡ Some f.word) }
    ensures point { IfSome result (λ f. (code_shown code.now).point at ≡ Some f.point) }
    ensures read { IfSome result (λ f. f.read ≡ decoded f.word) }
    ensures fits { IfSome result (λ f. IfSome f.read HasWord) }
    ensures low { IfSome result (λ f. f.word < 2 ^ 32) }
    ensures none { IfNone result ((code_shown code.now).word at ≡ None) }
{
    let looked = code.look(recent, at);
    let Some(word) = looked.word else {
        return None;
    };
    let Some(point) = looked.point else {
        return None;
    };
    let read = decode(word);
    Some(Found { word, read, point })
}

/// Whether a word is an AUIPC that writes a register, and stands away from the original one at `x`.
#[inline]
fn is_moved(at: u64, x: u64, read: &Option<Instr>) -> bool
    ensures { result ≡ is_moved_address at x read.now }
{
    match *read {
        Some(Instr::Auipc { rd, .. }) => rd.get() != 0 && at != x,
        _ => false,
    }
}

/// Whether a step is one of layouts alone.
#[inline(always)]
fn is_layout(at: u64, word: u32, read: &Option<Instr>, point: Point) -> bool
    requires { read.now ≡ decoded word }
    ensures { result ≡ is_layout_at at word point }
{
    let _ = word;
    match point {
        Point::Start(x) => is_moved(at, x, read),
        Point::Hop(_) => true,
        Point::Mid(_) => false,
    }
}

/// What a real step on an instruction is.
#[inline]
fn sort_of(i: &Instr) -> Sort
    ensures { result ≡ sort_of i.now }
{
    if transfers(i) {
        Sort::Transfer
    } else {
        Sort::Other
    }
}

/// One real step, on the word that stands at pc, unless the instruction needs more than registers and pc or would end the run.
#[inline(always)]
fn make_real(
    course: &mut Course,
    memory: &mut FlatMem,
    code: &CodeNow,
    word: u32,
    point: Point,
    read: &Option<Instr>,
) -> bool
    requires word { (code_shown code.now).word course.old.hart.pc ≡ Some word }
    requires point { (code_shown code.now).point course.old.hart.pc ≡ Some point }
    requires read { read.now ≡ decoded word }
    requires fits { IfSome read.now HasWord }
    requires real { is_layout_at course.old.hart.pc word point ≡ false }
    requires room { length course.old.notes.items < vec_capacity course.old.notes }
    ensures made { result ≡ true → (m : ℕ) → Adds (suc m) code.now course.old.hart course.new.hart course.old.notes.items course.new.notes.items }
    ensures stops { result ≡ false → (m : ℕ) → Stops m code.now course.old.hart }
    ensures hart { result ≡ false → course.new.hart ≡ course.old.hart }
    ensures notes { result ≡ false → course.new.notes.items ≡ course.old.notes.items }
    ensures capacity { vec_capacity course.new.notes ≡ vec_capacity course.old.notes }
{
    let Some(i) = read else {
        return false;
    };
    let at = course.hart.pc;
    let Some(aim) = go(&mut course.hart, memory, code, i) else {
        return false;
    };
    let sort = sort_of(i);
    course.notes.push_reserved(Note {
        at,
        word,
        point,
        sort,
        aim,
    });
    true
}

/// What stood before a step of layouts alone.
#[derive(Clone, Copy)]
struct Before {
    rd: Reg,
    value: Value,
    pc: u64,
}

/// Writes a register and pc, and gives what stood there.
fn write(hart: &mut Hart, rd: Reg, value: Value, pc: u64) -> Before
    ensures hart { hart.new ≡ record hart.old { regs = with_reg hart.old.regs rd value; pc = pc } }
    ensures back { record hart.new { regs = with_reg hart.new.regs result.rd result.value; pc = result.pc } ≡ hart.old }
{
    let before = Before {
        rd,
        value: hart.reg(rd),
        pc: hart.pc,
    };
    hart.set_reg(rd, value);
    hart.pc = pc;
    before
}

/// A step of layouts alone, on an AUIPC or on a JAL that keeps no link.
fn lead(hart: &mut Hart, read: &Option<Instr>) -> Before
    ensures hart { hart.new ≡ led (led_by read.now hart.old.pc) hart.old }
    ensures back { record hart.new { regs = with_reg hart.new.regs result.rd result.value; pc = result.pc } ≡ hart.old }
{
    let pc = hart.pc;
    match *read {
        Some(Instr::Auipc { rd, imm }) => {
            let value = Value::plain(made_by(pc, imm.get() as u64));
            write(hart, rd, value, pc.wrapping_add(4))
        }
        Some(Instr::Jal { off, .. }) => {
            write(
                hart,
                Reg::new(0).unwrap(),
                Value::plain(0),
                target(pc, off.get()),
            )
        }
        _ => write(hart, Reg::new(0).unwrap(), Value::plain(0), pc),
    }
}

/// One real step and the steps of layouts alone before it, `left` at most. Where the real step isn't made, neither are they.
#[inline(never)]
fn past_layouts(course: &mut Course, memory: &mut FlatMem, code: &CodeNow, left: u32) -> bool
    requires room { length course.old.notes.items + left < vec_capacity course.old.notes }
    ensures made { result ≡ true → Adds (left + 1) code.now course.old.hart course.new.hart course.old.notes.items course.new.notes.items }
    ensures stops { result ≡ false → Stops left code.now course.old.hart }
    ensures hart { result ≡ false → course.new.hart ≡ course.old.hart }
    ensures notes { result ≡ false → course.new.notes.items ≡ course.old.notes.items }
    ensures capacity { vec_capacity course.new.notes ≡ vec_capacity course.old.notes }
{
    let at = course.hart.pc;
    let Some(found) = find(code, &mut course.recent, at) else {
        return false;
    };
    if !is_layout(at, found.word, &found.read, found.point) {
        return make_real(course, memory, code, found.word, found.point, &found.read);
    }
    if left == 0 {
        return false;
    }
    let before = lead(&mut course.hart, &found.read);
    course.notes.push_reserved(Note {
        at,
        word: found.word,
        point: found.point,
        sort: Sort::Layout,
        aim: None,
    });
    if past_layouts(course, memory, code, left - 1) {
        return true;
    }
    write(&mut course.hart, before.rd, before.value, before.pc);
    course.notes.pop();
    false
}

/// One real step and the steps of layouts alone before it, of which there are never more than two.
#[inline(always)]
fn step(course: &mut Course, memory: &mut FlatMem, code: &CodeNow) -> bool
    requires room { length course.old.notes.items + 2 < vec_capacity course.old.notes }
    ensures made { result ≡ true → Adds 3 code.now course.old.hart course.new.hart course.old.notes.items course.new.notes.items }
    ensures stops { result ≡ false → Stops 2 code.now course.old.hart }
    ensures hart { result ≡ false → course.new.hart ≡ course.old.hart }
    ensures notes { result ≡ false → course.new.notes.items ≡ course.old.notes.items }
    ensures capacity { vec_capacity course.new.notes ≡ vec_capacity course.old.notes }
{
    let at = course.hart.pc;
    let Some(found) = find(code, &mut course.recent, at) else {
        return false;
    };
    if is_layout(at, found.word, &found.read, found.point) {
        return past_layouts(course, memory, code, 2);
    }
    make_real(course, memory, code, found.word, found.point, &found.read)
}

/// Real steps, `most` at most, and how many.
pub fn run(course: &mut Course, memory: &mut FlatMem, code: &CodeNow, most: u32) -> u32
    requires room { length course.old.notes.items + 3 * most ≤ vec_capacity course.old.notes }
    ensures most { result ≤ most }
    ensures made { AddsMany result code.now course.old.hart course.new.hart course.old.notes.items course.new.notes.items }
    ensures stops { result < most → Stops 2 code.now course.new.hart }
    ensures capacity { vec_capacity course.new.notes ≡ vec_capacity course.old.notes }
{
    for made in 0..most {
        if !step(course, memory, code) {
            return made;
        }
    }
    most
}
