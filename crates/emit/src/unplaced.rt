//! The words of a layout before it is placed.

ghost use Rattle.std.specs.Prelude.{◌≡◌, ◌++◌, [], ◌∷◌, ℕ, ◌+◌, ◌<◌, ◌^◌, Bool, OnOk, ◌==◌, All, length, if◌then◌else◌};
ghost use Rattle.std.specs.List.{flat_map};
ghost use Rattle.image.specs.Targets.{made_by};
ghost use Rattle.emit.specs.Entries.{calls_of, aimed, hop, start, mid, is_next, branch_of, rendered, word_entries, called, second_word, fall, run_entries, first_from, runs_entries, in_order};

use crate::calls::CallTable;
use crate::entry::{Entry, Made, To};
use blocks::run::Run;
use blocks::word::Word;
use image::ranges::Func;
use image::targets::{made_by, target};
use layout::point::Point;
use oc_base::fault::NoMemory;
use rv_isa::fields::{Imm20, Reg};
use rv_isa::instr::{Cond, Instr};

/// Which addresses are too far for the short form of a branch.
pub trait Far {
    ghost use Rattle.std.specs.Prelude.{ℕ, Bool};

    ghost far: { Self → ℕ → ℕ → Bool };

    /// Whether `y` is too far for the branch at `x`, both addresses of the original program.
    fn far(&self, x: u64, y: u64) -> bool
        ensures { result ≡ far self.now x y };
}

/// Every branch is long.
pub struct Always;

impl Far for Always {
    ghost use Rattle.std.specs.Prelude.{true};

    ghost far = { λ a x y. true };

    fn far(&self, _x: u64, _y: u64) -> bool {
        true
    }
}

/// A function: its range, its blocks, and their new order.
#[derive(Drop)]
pub struct Moving<'a> {
    pub func: Func,
    pub runs: &'a [Run],
    pub order: &'a [u32],
    ghost low: { All (λ r. All (λ w. w.at + 4 < 2 ^ 64) r.words) runs.now },
    ghost each: { All (λ o. o < length runs.now) order.now },
}

/// Where the jump at `x` goes whose target is `to`.
fn called(c: &CallTable, x: u64, to: To) -> To
    ensures { result ≡ called (calls_of c.now.image.now c.now.parts.now) x to }
{
    match c.site(x) {
        None => to,
        Some(g) => {
            if c.moved(g) {
                To::Here(g)
            } else {
                To::There(g)
            }
        }
    }
}

fn second_word(c: &CallTable, x: u64, rd: Reg, word: u32) -> Made
    ensures { result ≡ second_word (calls_of c.now.image.now c.now.parts.now) x rd word }
{
    match c.second(x) {
        None => Made::Same(word),
        Some(g) => {
            if c.moved(g) {
                Made::Jump {
                    rd,
                    to: To::Here(g),
                }
            } else {
                Made::Same(word)
            }
        }
    }
}

fn aimed(f: &Func, y: u64) -> To
    ensures { result ≡ aimed f.now y }
{
    if f.from <= y && y < f.to {
        To::Here(y)
    } else {
        To::There(y)
    }
}

fn hop(f: &Func, y: u64) -> Entry
    ensures { result ≡ hop f.now y }
{
    Entry {
        point: Point::Hop(y),
        made: Made::Jump {
            rd: Reg::new(0).unwrap(),
            to: aimed(f, y),
        },
    }
}

fn is_next(next: Option<u64>, y: u64) -> bool
    ensures { result ≡ is_next next y }
{
    match next {
        Some(n) => n == y,
        None => false,
    }
}

/// A branch that is to be emitted: at `x` to `taken`, and it falls to `falls`.
#[derive(Clone, Copy, Debug, PartialEq, Eq)]
pub struct Fork {
    x: u64,
    cond: Cond,
    rs1: Reg,
    rs2: Reg,
    taken: u64,
    falls: u64,
}

fn branch(b: &Fork, cond: Cond, to: To) -> Entry
    ensures { result ≡ start b.now.x (Made.Branch cond b.now.rs1 b.now.rs2 to) }
{
    Entry {
        point: Point::Start(b.x),
        made: Made::Branch {
            cond,
            rs1: b.rs1,
            rs2: b.rs2,
            to,
        },
    }
}

#[tactic(auto, unfolding(crate::specs::Entries::branch_of))]
fn push_branch<F: Far>(
    out: &mut Vec<Entry>,
    f: &Func,
    next: Option<u64>,
    far: &F,
    b: &Fork,
) -> Result<(), NoMemory>
    ensures { OnOk result (out.new.items ≡ out.old.items
        ++ branch_of f.now next (F.far far.now b.now.x) b.now.x b.now.cond b.now.rs1 b.now.rs2 b.now.taken b.now.falls) }
{
    if is_next(next, b.falls) {
        if far.far(b.x, b.taken) {
            out.push(branch(b, b.cond.opposite(), To::Over))?;
            out.push(hop(f, b.taken))?;
            return Ok(());
        }
        out.push(branch(b, b.cond, aimed(f, b.taken)))?;
        return Ok(());
    }
    if is_next(next, b.taken) {
        if far.far(b.x, b.falls) {
            out.push(branch(b, b.cond, To::Over))?;
            out.push(hop(f, b.falls))?;
            return Ok(());
        }
        out.push(branch(b, b.cond.opposite(), aimed(f, b.falls)))?;
        return Ok(());
    }
    if far.far(b.x, b.taken) {
        out.push(branch(b, b.cond.opposite(), To::Over))?;
        out.push(hop(f, b.taken))?;
        out.push(hop(f, b.falls))?;
        return Ok(());
    }
    out.push(branch(b, b.cond, aimed(f, b.taken)))?;
    out.push(hop(f, b.falls))?;
    Ok(())
}

fn start(x: u64, made: Made) -> Entry
    ensures { result ≡ start x made }
{
    Entry {
        point: Point::Start(x),
        made,
    }
}

fn mid(x: u64, made: Made) -> Entry
    ensures { result ≡ mid x made }
{
    Entry {
        point: Point::Mid(x),
        made,
    }
}

fn push_address(out: &mut Vec<Entry>, w: &Word, rd: Reg, imm: Imm20) -> Result<(), NoMemory>
    ensures { OnOk result (out.new.items ≡ out.old.items
        ++ (if rd == 0 then start w.now.at (Made.Same w.now.word) ∷ []
        else start w.now.at (Made.High rd (made_by w.now.at imm)) ∷ mid w.now.at (Made.Low rd (made_by w.now.at imm)) ∷ [])) }
{
    if rd.get() == 0 {
        out.push(start(w.at, Made::Same(w.word)))?;
        return Ok(());
    }
    let value = made_by(w.at, imm.get() as u64);
    out.push(start(w.at, Made::High { rd, value }))?;
    out.push(mid(w.at, Made::Low { rd, value }))?;
    Ok(())
}

fn push_word<F: Far>(
    out: &mut Vec<Entry>,
    c: &CallTable,
    f: &Func,
    next: Option<u64>,
    far: &F,
    w: &Word,
) -> Result<(), NoMemory>
    requires { w.now.at + 4 < 2 ^ 64 }
    ensures { OnOk result (out.new.items ≡ out.old.items ++ word_entries (calls_of c.now.image.now c.now.parts.now) f.now (F.far far.now) next w.now) }
{
    match w.instr {
        Instr::Auipc { rd, imm } => push_address(out, w, rd, imm),
        Instr::Jal { rd, off } => {
            out.push(start(
                w.at,
                Made::Jump {
                    rd,
                    to: called(c, w.at, aimed(f, target(w.at, off.get()))),
                },
            ))?;
            Ok(())
        }
        Instr::Jalr { rd, .. } => {
            out.push(start(w.at, second_word(c, w.at, rd, w.word)))?;
            Ok(())
        }
        Instr::Branch {
            cond,
            rs1,
            rs2,
            off,
        } => {
            let b = Fork {
                x: w.at,
                cond,
                rs1,
                rs2,
                taken: target(w.at, off.get()),
                falls: w.at + 4,
            };
            push_branch(out, f, next, far, &b)
        }
        _ => {
            out.push(start(w.at, Made::Same(w.word)))?;
            Ok(())
        }
    }
}

fn push_words<F: Far>(
    out: &mut Vec<Entry>,
    c: &CallTable,
    f: &Func,
    next: Option<u64>,
    far: &F,
    words: &[Word],
) -> Result<(), NoMemory>
    requires { All (λ w. w.at + 4 < 2 ^ 64) words.now }
    ensures { OnOk result (out.new.items ≡ out.old.items ++ flat_map (word_entries (calls_of c.now.image.now c.now.parts.now) f.now (F.far far.now) next) words.now) }
{
    for w in words {
        push_word(out, c, f, next, far, w)?;
    }
    Ok(())
}

/// A Hop at the end of a block that falls to another than the next.
fn push_fall(out: &mut Vec<Entry>, f: &Func, next: Option<u64>, r: &Run) -> Result<(), NoMemory>
    ensures { OnOk result (out.new.items ≡ out.old.items ++ fall f.now next r.now) }
{
    if !r.falls {
        return Ok(());
    }
    if is_next(next, r.to) {
        return Ok(());
    }
    let made = Made::Jump {
        rd: Reg::new(0).unwrap(),
        to: aimed(f, r.to),
    };
    out.push(Entry {
        point: Point::Hop(r.to),
        made,
    })?;
    Ok(())
}

#[tactic(auto, unfolding(crate::specs::Entries::run_entries))]
fn push_run<F: Far>(
    out: &mut Vec<Entry>,
    c: &CallTable,
    f: &Func,
    next: Option<u64>,
    far: &F,
    r: &Run,
) -> Result<(), NoMemory>
    requires { All (λ w. w.at + 4 < 2 ^ 64) r.now.words }
    ensures { OnOk result (out.new.items ≡ out.old.items ++ run_entries (calls_of c.now.image.now c.now.parts.now) f.now (F.far far.now) next r.now) }
{
    push_words(out, c, f, next, far, r.words.as_slice())?;
    push_fall(out, f, next, r)?;
    Ok(())
}

/// Where the first of some blocks in an order begins.
fn first_from(runs: &[Run], order: &[u32]) -> Option<u64>
    requires { All (λ o. o < length runs.now) order.now }
    ensures { result ≡ first_from (in_order runs.now order.now) }
{
    if order.is_empty() {
        return None;
    }
    Some(runs[order[0] as usize].from)
}

/// The words of a function.
pub fn push_runs<F: Far>(
    out: &mut Vec<Entry>,
    c: &CallTable,
    m: &Moving,
    far: &F,
) -> Result<(), NoMemory>
    ensures { OnOk result (out.new.items ≡ out.old.items ++ runs_entries (calls_of c.now.image.now c.now.parts.now) m.now.func (F.far far.now) (in_order m.now.runs.now m.now.order.now)) }
{
    let runs = m.runs;
    let order = m.order;
    for i in 0..order.len() {
        let next = first_from(runs, &order[i + 1..]);
        push_run(out, c, &m.func, next, far, &runs[order[i] as usize])?;
    }
    Ok(())
}
