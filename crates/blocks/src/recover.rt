//! The blocks of a function of an image.

ghost use Rattle.std.specs.Prelude.{◌≡◌, ◌≢◌, ◌<◌, ◌+◌, ◌^◌, length, slice_get, All, map, position, Some, None, IfOk, IfErr, OnOk};
ghost use Rattle.image.specs.Picture.{IsFunc};
ghost use Rattle.blocks.specs.declared.fault.Unreadable.TheVariants.{NoMemory};
ghost use Rattle.blocks.specs.Words.{words_of};
ghost use Rattle.blocks.specs.Faults.{overlaps, fault_in, fault_of};
ghost use Rattle.blocks.specs.Blocks.{runs_in, runs_of, block_of, blocks_of};

use crate::cut::runs_in;
use crate::fault::Unreadable;
use crate::read::{overlapped, read};
use crate::run::{Block, Blocks, Run};
use image::picture::Image;
use image::ranges::Func;
use oc_base::fault::NoMemory as OutOfMemory;
use oc_base::items::Items;
use oc_base::range::Range;
use std::alloc::Global;

/// The blocks of a function that shares an address with this other one first, or its first fault.
#[tactic(auto, unfolding(crate::specs::Faults::fault_in), using(crate::proofs::Reading::func_low))]
pub(crate) fn runs_or_fault(
    alloc: Global,
    image: &Image,
    f: &Func,
    overlap: Option<u32>,
) -> Result<Vec<Run>, Unreadable>
    requires fits { IsFunc image.now.texts f.now }
    requires overlap { overlap ≡ position (overlaps f.now) image.now.funcs }
    ensures is { IfOk result (λ runs. runs.items ≡ runs_in f.now (words_of image.now.texts f.now)) }
    ensures none { OnOk result (fault_in image.now.texts image.now.funcs f.now ≡ None) }
    ensures fault { IfErr result (λ e. e ≢ NoMemory → fault_in image.now.texts image.now.funcs f.now ≡ Some e) }
{
    image.kept();
    if let Some(g) = overlap {
        return Err(Unreadable::Overlap(g));
    }
    let words = match read(alloc, image, f) {
        Ok(words) => words,
        Err(e) => return Err(e),
    };
    let runs = runs_in(alloc, f, &words)?;
    Ok(runs)
}

/// A function by its number.
pub(crate) fn function(image: &Image, f: u32) -> Func
    requires { f < length image.now.funcs }
    ensures is { slice_get image.now.funcs f ≡ Some result }
    ensures fits { IsFunc image.now.texts result }
{
    image.kept();
    image.funcs()[f as usize]
}

/// The blocks of function `f` with their words, or the function's first fault.
#[tactic(auto, unfolding(crate::specs::Faults::fault_of, crate::specs::Blocks::runs_of))]
pub fn runs(alloc: Global, image: &Image, f: u32) -> Result<Items<Run>, Unreadable>
    requires { f < length image.now.funcs }
    ensures is { IfOk result (λ runs. runs ≡ runs_of image.now f) }
    ensures none { OnOk result (fault_of image.now f ≡ None) }
    ensures fault { IfErr result (λ e. e ≢ NoMemory → fault_of image.now f ≡ Some e) }
{
    image.kept();
    let func = function(image, f);
    let overlap = overlapped(image.funcs(), &func);
    match runs_or_fault(alloc, image, &func, overlap) {
        Ok(runs) => Ok(Items::from_vec(runs)),
        Err(e) => Err(e),
    }
}

fn block_of(run: &Run) -> Block
    ensures { result ≡ block_of run.now }
{
    Block {
        range: Range {
            from: run.from,
            to: run.to,
        },
        falls: run.falls,
    }
}

/// The blocks of runs of words.
pub fn without_words(alloc: Global, runs: &[Run]) -> Result<Vec<Block>, OutOfMemory>
    ensures { IfOk result (λ blocks. blocks.items ≡ map block_of runs.now) }
{
    let mut blocks = Vec::with_capacity(alloc, runs.len())?;
    for r in runs {
        blocks.push(block_of(r))?;
    }
    Ok(blocks)
}

/// The blocks of function `f`, or the function's first fault.
#[tactic(auto, unfolding(crate::specs::Blocks::blocks_of))]
pub fn recover(alloc: Global, image: &Image, f: u32) -> Result<Blocks, Unreadable>
    requires { f < length image.now.funcs }
    ensures is { IfOk result (λ blocks. blocks ≡ blocks_of image.now f) }
    ensures none { OnOk result (fault_of image.now f ≡ None) }
    ensures fault { IfErr result (λ e. e ≢ NoMemory → fault_of image.now f ≡ Some e) }
{
    let runs = match runs(alloc, image, f) {
        Ok(runs) => runs,
        Err(e) => return Err(e),
    };
    let blocks = without_words(alloc, runs.as_slice())?;
    Ok(Blocks::of(blocks))
}
