//! How a block ends.

ghost use Rattle.std.specs.Prelude.{◌≡◌, ◌==◌, ◌-◌, ◌++◌, length, position, slice_get, codes, string_bytes, OnOk};
ghost use Rattle.std.specs.Fmt.{decimal};
ghost use Rattle.looking.specs.Listing.{place_text, next_text, then_text, branch_text, jump_text, ending_text, last_text};

use crate::piece::push_address;
use blocks::run::Run;
use blocks::word::Word;
use image::targets::target;
use oc_base::fault::NoMemory;
use rv_isa::fields::Reg;
use rv_isa::instr::Instr;
use std::fmt::Write;

fn block_from(runs: &[Run], at: u64) -> Option<usize>
    ensures { result ≡ position (λ r. r.from == at) runs.now }
{
    runs.iter().position(|r| r.from == at)
}

// The block that starts at an address, or else the address.
#[tactic(auto, unfolding(crate::specs::Listing::place_text))]
fn push_place(text: &mut String, runs: &[Run], at: u64) -> Result<(), NoMemory>
    ensures { OnOk result (string_bytes text.new ≡ string_bytes text.old ++ place_text runs.now at) }
{
    match block_from(runs, at) {
        Some(k) => {
            write!(text, "block {k}")?;
            Ok(())
        }
        None => push_address(text, at),
    }
}

#[tactic(auto, unfolding(crate::specs::Listing::next_text))]
fn push_next(text: &mut String, runs: &[Run], next: u64) -> Result<(), NoMemory>
    ensures { OnOk result (string_bytes text.new ≡ string_bytes text.old ++ next_text runs.now next) }
{
    text.push_str("goes on at ")?;
    push_place(text, runs, next)
}

// A place, and then the next one.
#[tactic(auto, unfolding(crate::specs::Listing::then_text))]
fn push_then(text: &mut String, runs: &[Run], to: u64, next: u64) -> Result<(), NoMemory>
    ensures { OnOk result (string_bytes text.new ≡ string_bytes text.old ++ then_text runs.now (place_text runs.now to) next) }
{
    push_place(text, runs, to)?;
    text.push_str(", ")?;
    push_next(text, runs, next)
}

// The address in a register, and then the next one.
#[tactic(auto, unfolding(crate::specs::Listing::then_text))]
fn push_register_then(text: &mut String, runs: &[Run], by: Reg, next: u64) -> Result<(), NoMemory>
    ensures { OnOk result (string_bytes text.new ≡ string_bytes text.old ++ then_text runs.now (codes "x" ++ decimal by) next) }
{
    let n = by.get();
    write!(text, "x{n}, ")?;
    push_next(text, runs, next)
}

// A verb, a place, and then the next one.
fn push_verb(
    text: &mut String,
    verb: &str,
    runs: &[Run],
    to: u64,
    next: u64,
) -> Result<(), NoMemory>
    ensures { OnOk result (string_bytes text.new ≡ string_bytes text.old ++ (verb.now ++ then_text runs.now (place_text runs.now to) next)) }
{
    text.push_str(verb)?;
    push_then(text, runs, to, next)
}

fn push_branch(text: &mut String, runs: &[Run], to: u64, next: u64) -> Result<(), NoMemory>
    ensures { OnOk result (string_bytes text.new ≡ string_bytes text.old ++ branch_text runs.now (place_text runs.now to) next) }
{
    push_verb(text, "branches to ", runs, to, next)
}

fn push_jal(text: &mut String, runs: &[Run], link: Reg, to: u64, next: u64) -> Result<(), NoMemory>
    ensures { OnOk result (string_bytes text.new ≡ string_bytes text.old ++ jump_text runs.now link (place_text runs.now to) next) }
{
    if link.get() == 0 {
        text.push_str("jumps to ")?;
        return push_place(text, runs, to);
    }
    text.push_str("calls ")?;
    push_then(text, runs, to, next)
}

fn push_jalr(text: &mut String, runs: &[Run], link: Reg, by: Reg, next: u64) -> Result<(), NoMemory>
    ensures { OnOk result (string_bytes text.new ≡ string_bytes text.old ++ jump_text runs.now link (codes "x" ++ decimal by) next) }
{
    let n = by.get();
    if link.get() == 0 {
        write!(text, "jumps to x{n}")?;
        return Ok(());
    }
    text.push_str("calls ")?;
    push_register_then(text, runs, by, next)
}

fn push_ending(text: &mut String, runs: &[Run], w: &Word, next: u64) -> Result<(), NoMemory>
    ensures { OnOk result (string_bytes text.new ≡ string_bytes text.old ++ ending_text runs.now w.now.at next w.now.instr) }
{
    match w.instr {
        Instr::Branch { off, .. } => push_branch(text, runs, target(w.at, off.get()), next),
        Instr::Jal { rd, off } => push_jal(text, runs, rd, target(w.at, off.get()), next),
        Instr::Jalr { rd, rs1, .. } => push_jalr(text, runs, rd, rs1, next),
        _ => push_next(text, runs, next),
    }
}

/// Adds how a block of these words ends, before `next`. `runs` are all blocks of its function.
pub(crate) fn push_last(
    text: &mut String,
    runs: &[Run],
    words: &[Word],
    next: u64,
) -> Result<(), NoMemory>
    ensures { OnOk result (string_bytes text.new ≡ string_bytes text.old ++ last_text runs.now next (slice_get words.now (length words.now - 1))) }
{
    match words.last() {
        Some(w) => push_ending(text, runs, w, next),
        None => Ok(()),
    }
}
