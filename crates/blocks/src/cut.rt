//! Words cut into blocks.

ghost use Rattle.std.specs.Prelude.{◌≡◌, ◌+◌, ◌<◌, ◌^◌, ◌++◌, [], ◌∷◌, ℕ, IfOk, OnOk, All, ◌||◌, ◌==◌, if◌then◌else◌, ◌&&◌, not};
ghost use Rattle.std.specs.Ordering.{nat_cmp};
ghost use Rattle.std.specs.BTreeSet.{contains};
ghost use Rattle.image.specs.Aims.{is_inside};
ghost use Rattle.blocks.specs.Words.{falls_of};
ghost use Rattle.blocks.specs.Blocks.{aims_at, marks, is_start, first_at, run_to, is_empty, cut, runs_in};

use crate::read::is_inside;
use crate::run::Run;
use crate::word::{Word, falls, push_word};
use image::ranges::Func;
use image::targets::target;
use oc_base::fault::NoMemory;
use oc_base::items::Items;
use rv_isa::instr::Instr;
use std::alloc::Global;
use std::collections::BTreeSet;

fn put(starts: &mut BTreeSet<u64>, y: u64) -> Result<(), NoMemory>
    ensures { OnOk result ((q : ℕ) → contains nat_cmp starts.new q ≡ (contains nat_cmp starts.old q || (y == q))) }
{
    starts.insert(y)?;
    Ok(())
}

/// Adds a target that lies in the function.
fn put_target(starts: &mut BTreeSet<u64>, f: &Func, y: u64) -> Result<(), NoMemory>
    ensures { OnOk result ((q : ℕ) → contains nat_cmp starts.new q ≡ (contains nat_cmp starts.old q || ((y == q) && is_inside q f.now))) }
{
    if is_inside(y, f) {
        return put(starts, y);
    }
    Ok(())
}

fn mark_aim(starts: &mut BTreeSet<u64>, f: &Func, w: &Word) -> Result<(), NoMemory>
    ensures { OnOk result ((q : ℕ) → contains nat_cmp starts.new q ≡ (contains nat_cmp starts.old q || aims_at f.now w.now.at w.now.instr q)) }
{
    match w.instr {
        Instr::Branch { off, .. } => put_target(starts, f, target(w.at, off.get())),
        Instr::Jal { off, .. } => put_target(starts, f, target(w.at, off.get())),
        _ => Ok(()),
    }
}

fn mark_end(starts: &mut BTreeSet<u64>, w: &Word) -> Result<(), NoMemory>
    requires { w.now.at + 4 < 2 ^ 64 }
    ensures { OnOk result ((q : ℕ) → contains nat_cmp starts.new q ≡ (contains nat_cmp starts.old q || (not (falls_of w.now.instr) && (w.now.at + 4 == q)))) }
{
    if !falls(&w.instr) {
        return put(starts, w.at + 4);
    }
    Ok(())
}

/// Adds the starts of blocks that a word asks for.
fn mark(starts: &mut BTreeSet<u64>, f: &Func, w: &Word) -> Result<(), NoMemory>
    requires { w.now.at + 4 < 2 ^ 64 }
    ensures { OnOk result ((q : ℕ) → contains nat_cmp starts.new q ≡ (contains nat_cmp starts.old q || marks f.now q w.now)) }
{
    mark_end(starts, w)?;
    mark_aim(starts, f, w)?;
    Ok(())
}

/// Where the blocks of a function start.
fn starts_of(alloc: Global, f: &Func, words: &[Word]) -> Result<BTreeSet<u64>, NoMemory>
    requires { All (λ w. w.at + 4 < 2 ^ 64) words.now }
    ensures { IfOk result (λ starts. (q : ℕ) → contains nat_cmp starts q ≡ is_start f.now words.now q) }
{
    let mut starts = BTreeSet::new(alloc);
    put(&mut starts, f.from)?;
    for w in words {
        mark(&mut starts, f, w)?;
    }
    Ok(starts)
}

fn first_at(words: &[Word], w: &Word) -> u64
    ensures { result ≡ first_at words.now w.now }
{
    match words.first() {
        Some(v) => v.at,
        None => w.at,
    }
}

/// The block of the words so far and a last one. No words are left.
fn close(alloc: Global, so_far: &mut Vec<Word>, w: &Word) -> Result<Run, NoMemory>
    requires { w.now.at + 4 < 2 ^ 64 }
    ensures run { IfOk result (λ r. r ≡ run_to so_far.old.items w.now) }
    ensures empty { OnOk result (so_far.new.items ≡ []) }
{
    let from = first_at(so_far, w);
    so_far.push(*w)?;
    let words = std::mem::replace(so_far, Vec::new(alloc));
    Ok(Run {
        from,
        to: w.at + 4,
        falls: falls(&w.instr),
        words: Items::from_vec(words),
    })
}

fn push_run(
    alloc: Global,
    runs: &mut Vec<Run>,
    so_far: &mut Vec<Word>,
    w: &Word,
) -> Result<(), NoMemory>
    requires { w.now.at + 4 < 2 ^ 64 }
    ensures runs { OnOk result (runs.new.items ≡ runs.old.items ++ run_to so_far.old.items w.now ∷ []) }
    ensures so_far { OnOk result (so_far.new.items ≡ []) }
{
    let run = close(alloc, so_far, w)?;
    runs.push(run)?;
    Ok(())
}

/// Adds a word to the words so far, which then are a block where one ends.
fn add(
    alloc: Global,
    runs: &mut Vec<Run>,
    so_far: &mut Vec<Word>,
    ends: bool,
    w: &Word,
) -> Result<(), NoMemory>
    requires { w.now.at + 4 < 2 ^ 64 }
    ensures runs { OnOk result (runs.new.items ≡ (if ends then runs.old.items ++ run_to so_far.old.items w.now ∷ [] else runs.old.items)) }
    ensures so_far { OnOk result (so_far.new.items ≡ (if ends then [] else so_far.old.items ++ w.now ∷ [])) }
{
    if ends {
        return push_run(alloc, runs, so_far, w);
    }
    push_word(so_far, w)
}

fn is_empty(words: &[Word]) -> bool
    ensures { result ≡ is_empty words.now }
{
    match words.first() {
        Some(_) => false,
        None => true,
    }
}

/// Whether a block ends at a word, before these.
fn ends_at(starts: &BTreeSet<u64>, rest: &[Word], w: &Word) -> bool
    requires { w.now.at + 4 < 2 ^ 64 }
    ensures { result ≡ (is_empty rest.now || contains nat_cmp starts.now (w.now.at + 4)) }
{
    is_empty(rest) || starts.contains(&(w.at + 4))
}

fn cut(alloc: Global, starts: &BTreeSet<u64>, words: &[Word]) -> Result<Vec<Run>, NoMemory>
    requires { All (λ w. w.at + 4 < 2 ^ 64) words.now }
    ensures { IfOk result (λ runs. runs.items ≡ cut (contains nat_cmp starts.now) [] words.now) }
{
    let mut runs = Vec::new(alloc);
    let mut so_far = Vec::new(alloc);
    for i in 0..words.len() {
        let w = &words[i];
        let ends = ends_at(starts, &words[i + 1..], w);
        add(alloc, &mut runs, &mut so_far, ends, w)?;
    }
    Ok(runs)
}

/// The blocks of a function that has these words.
#[tactic(auto, unfolding(crate::specs::Blocks::runs_in))]
pub fn runs_in(alloc: Global, f: &Func, words: &[Word]) -> Result<Vec<Run>, NoMemory>
    requires { All (λ w. w.at + 4 < 2 ^ 64) words.now }
    ensures { IfOk result (λ runs. runs.items ≡ runs_in f.now words.now) }
{
    let starts = starts_of(alloc, f, words)?;
    let runs = cut(alloc, &starts, words)?;
    Ok(runs)
}
