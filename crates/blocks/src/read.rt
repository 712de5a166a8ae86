//! The words of a function, or the first fault in them.

ghost use Rattle.std.specs.Prelude.{◌≡◌, ◌≢◌, ◌≤◌, ◌<◌, ◌^◌, ◌+◌, All, Some, None, map, length, position, IfOk, IfErr, IfSome, IsNone, OnOk};
ghost use Rattle.finite.specs.First.{first_of};
ghost use Rattle.image.specs.Aims.{is_inside};
ghost use Rattle.blocks.specs.declared.fault.Unreadable.TheVariants.{NoMemory};
ghost use Rattle.blocks.specs.Words.{word_read, places_of, words_of};
ghost use Rattle.blocks.specs.Faults.{overlaps, aim_fault, word_fault};

use crate::fault::Unreadable;
use crate::word::{Word, push_word};
use image::picture::Image;
use image::ranges::Func;
use image::targets::target;
use rv_decode::decode;
use rv_isa::instr::Instr;
use std::alloc::Global;

/// Whether an address is one of a function's.
pub fn is_inside(a: u64, f: &Func) -> bool
    ensures { result ≡ is_inside a f.now }
{
    f.from <= a && a < f.to
}

/// What is wrong with the targets of an instruction.
fn aim_fault(f: &Func, a: u64, i: &Instr) -> Option<Unreadable>
    ensures { result ≡ aim_fault f.now a i.now }
{
    match i {
        Instr::Branch { off, .. } => {
            let to = target(a, off.get());
            if !is_inside(to, f) {
                return Some(Unreadable::BranchOut(a));
            }
            if to % 4 != 0 {
                return Some(Unreadable::Misaimed(a));
            }
            None
        }
        Instr::Jal { off, .. } => {
            if target(a, off.get()) % 4 != 0 {
                return Some(Unreadable::Misaimed(a));
            }
            None
        }
        _ => None,
    }
}

/// The word at an address, if it reads as an instruction.
#[tactic(auto, unfolding(crate::specs::Words::word_read))]
fn word_read(image: &Image, a: u64) -> Option<Word>
    ensures is { result ≡ word_read image.now.texts a }
    ensures at { IfSome result (λ w. w.at ≡ a) }
{
    let word = image.word(a)?;
    let instr = decode(word)?;
    Some(Word { at: a, word, instr })
}

/// The word at an address of a function, or what is wrong with it.
#[tactic(auto, unfolding(crate::specs::Faults::word_fault))]
fn checked(image: &Image, f: &Func, a: u64) -> Result<Word, Unreadable>
    ensures is { IfOk result (λ w. word_read image.now.texts a ≡ Some w) }
    ensures at { IfOk result (λ w. w.at ≡ a) }
    ensures none { OnOk result (word_fault image.now.texts f.now a ≡ None) }
    ensures fault { IfErr result (λ e. word_fault image.now.texts f.now a ≡ Some e) }
{
    let Some(w) = word_read(image, a) else {
        return Err(Unreadable::Undecodable(a));
    };
    match aim_fault(f, a, &w.instr) {
        Some(e) => Err(e),
        None => Ok(w),
    }
}

/// The words of a function, or the first fault in them.
#[tactic(auto, unfolding(crate::specs::Words::words_of))]
pub fn read(alloc: Global, image: &Image, f: &Func) -> Result<Vec<Word>, Unreadable>
    requires ordered { f.now.from ≤ f.now.to }
    requires low { f.now.to ≤ 0x08000000 }
    ensures low { IfOk result (λ words. All (λ w. w.at + 4 < 2 ^ 64) words.items) }
    ensures is { IfOk result (λ words. words.items ≡ words_of image.now.texts f.now) }
    ensures none { OnOk result (first_of (map (word_fault image.now.texts f.now) (places_of f.now)) ≡ None) }
    ensures fault { IfErr result (λ e. e ≢ NoMemory → first_of (map (word_fault image.now.texts f.now) (places_of f.now)) ≡ Some e) }
{
    let count = (f.to - f.from) / 4;
    let mut words = Vec::new(alloc);
    for i in 0..count {
        let w = match checked(image, f, f.from + 4 * i) {
            Ok(w) => w,
            Err(e) => return Err(e),
        };
        push_word(&mut words, &w)?;
    }
    Ok(words)
}

fn place_overlapped(funcs: &[Func], f: &Func) -> Option<usize>
    ensures first { result ≡ position (overlaps f.now) funcs.now }
    ensures within { IfSome result (λ i. i < length funcs.now) }
{
    funcs
        .iter()
        .position(|g| g.from != f.from && (g.from < f.to && f.from < g.to))
}

/// The number of the least other function that has an address of this one.
pub fn overlapped(funcs: &[Func], f: &Func) -> Option<u32>
    requires { length funcs.now < 2 ^ 32 }
    ensures { result ≡ position (overlaps f.now) funcs.now }
{
    let g = place_overlapped(funcs, f)?;
    Some(g as u32)
}
