//! One function: its line, and its blocks with their instructions.

ghost use Rattle.std.specs.Prelude.{◌≡◌, ◌<◌, ◌++◌, length, flat_map, slice_get, Some, string_bytes, IfOk, OnOk};
ghost use Rattle.blocks.specs.Faults.{fault_of};
ghost use Rattle.looking.specs.Listing.{word_line, run_head, run_text, run_texts, blocks_text, listing};

use crate::ending::push_last;
use crate::func::push_func;
use crate::piece::{push_address, push_range};
use blocks::fault::Unreadable;
use blocks::index::FuncIndex;
use blocks::run::Run;
use blocks::word::Word;
use disasm::push_shown;
use image::picture::Image;
use oc_base::fault::NoMemory;
use oc_base::items::Items;
use std::alloc::Global;
use std::fmt::Write;

fn push_word(text: &mut String, w: &Word) -> Result<(), NoMemory>
    ensures { OnOk result (string_bytes text.new ≡ string_bytes text.old ++ word_line w.now) }
{
    text.push_str("    ")?;
    push_address(text, w.at)?;
    text.push_str("  ")?;
    push_shown(text, w.word, w.at)?;
    text.push('\n')?;
    Ok(())
}

fn push_words(text: &mut String, words: &[Word]) -> Result<(), NoMemory>
    ensures { OnOk result (string_bytes text.new ≡ string_bytes text.old ++ flat_map word_line words.now) }
{
    for w in words {
        push_word(text, w)?;
    }
    Ok(())
}

// Where a block lies.
fn push_head(text: &mut String, n: u32, k: usize, r: &Run) -> Result<(), NoMemory>
    ensures { OnOk result (string_bytes text.new ≡ string_bytes text.old ++ run_head n k r.now) }
{
    write!(text, "block {n}:{k} ")?;
    push_range(text, r.from, r.to)?;
    text.push_str(": ")?;
    Ok(())
}

// Block `k` of function `n`, which has these blocks.
fn push_run(text: &mut String, n: u32, runs: &[Run], k: usize, r: &Run) -> Result<(), NoMemory>
    ensures { OnOk result (string_bytes text.new ≡ string_bytes text.old ++ run_text n runs.now k r.now) }
{
    push_head(text, n, k, r)?;
    push_last(text, runs, r.words.as_slice(), r.to)?;
    text.push('\n')?;
    push_words(text, r.words.as_slice())?;
    Ok(())
}

#[tactic(auto, using(crate::proofs::Lines::runs_more, crate::proofs::Lines::runs_done))]
fn push_runs(text: &mut String, n: u32, runs: &[Run]) -> Result<(), NoMemory>
    ensures { OnOk result (string_bytes text.new ≡ string_bytes text.old ++ run_texts n runs.now 0 runs.now) }
{
    for k in 0..runs.len() {
        push_run(text, n, runs, k, &runs[k])?;
    }
    Ok(())
}

// The blocks of a function, if it can be moved.
fn push_blocks(
    alloc: Global,
    text: &mut String,
    index: &FuncIndex<'_>,
    n: u32,
) -> Result<(), NoMemory>
    requires { n < length index.now.image.now.funcs }
    ensures { OnOk result (string_bytes text.new ≡ string_bytes text.old ++ blocks_text index.now.image.now n (fault_of index.now.image.now n)) }
{
    match index.runs(alloc, n) {
        Ok(runs) => push_runs(text, n, runs.as_slice()),
        Err(Unreadable::NoMemory) => Err(NoMemory),
        Err(_) => Ok(()),
    }
}

fn text_of(alloc: Global, image: &Image, names: &[Items<u8>], n: u32) -> Result<String, NoMemory>
    requires { n < length image.now.funcs }
    ensures { IfOk result (λ text. string_bytes text ≡ listing image.now names.now n) }
{
    let index = FuncIndex::new(alloc, image)?;
    let f = &image.funcs()[n as usize];
    let mut text = String::new(alloc);
    push_func(alloc, &mut text, &index, names, n, f)?;
    push_blocks(alloc, &mut text, &index, n)?;
    Ok(text)
}

/// The line of function `n`, and below it each of its blocks with its instructions as statements of the assembler. `names` are
/// those of all functions, in their order.
pub fn listing(
    alloc: Global,
    image: &Image,
    names: &[Items<u8>],
    n: u32,
) -> Result<Items<u8>, NoMemory>
    requires { n < length image.now.funcs }
    ensures { IfOk result (λ text. text ≡ listing image.now names.now n) }
{
    let text = text_of(alloc, image, names, n)?;
    Ok(Items::from_vec(text.into_bytes()))
}
