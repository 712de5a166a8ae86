//! The pages that no region may have.

ghost use Rattle.std.specs.Prelude.{◌≡◌, ◌<◌, ◌∷◌, [], false, length, replicate, All, IfOk};
ghost use Rattle.image.specs.Picture.{IsText, IsPart};
ghost use Rattle.image.specs.Texts.{text_words};
ghost use Rattle.near_region.specs.Pages.{AreTaken, TakesRun, TakesRange, TakesAims, TakesTexts, TakesParts};

use crate::{PAGE, PAGES};
use finite::search::Spanned;
use image::picture::Image;
use image::ranges::{Part, TextRange};
use oc_base::fault::NoMemory;
use relocs::jumps::direct_target;
use std::alloc::Global;

// Takes the pages from `first` up to `last`, as far as the list goes.
#[tactic(auto, using(crate::proofs::Taking::run_none))]
fn take_run(taken: &mut [bool], first: usize, last: usize)
    ensures { TakesRun first last taken.old taken.new }
{
    let end = last.min(taken.len());
    for p in first..end {
        taken[p] = true;
    }
}

// Takes the pages that have an address from `from` up to `to`.
#[tactic(auto, using(crate::proofs::Taking::range_run))]
fn take_pages(taken: &mut [bool], from: u64, to: u64)
    requires { from < to }
    ensures { TakesRange from to taken.old taken.new }
{
    take_run(taken, (from / PAGE) as usize, to.div_ceil(PAGE) as usize);
}

// Takes the page to which the word at an address goes, if it reads as a JAL or a branch.
#[tactic(auto, using(crate::proofs::Taking::aim_taken, crate::proofs::Taking::no_aim))]
fn take_target(taken: &mut [bool], word: u32, at: u64)
    ensures { TakesAims ((at, word) ∷ []) taken.old taken.new }
{
    if let Some(to) = direct_target(word, at) {
        let page = (to / PAGE) as usize;
        take_run(taken, page, page + 1);
    }
}

// Takes the pages to which a JAL or branch of one text range goes.
#[tactic(auto, using(crate::proofs::Taking::no_words))]
fn take_targets(taken: &mut [bool], t: &TextRange)
    requires { IsText t.now }
    ensures { TakesAims (text_words t.now) taken.old taken.new }
{
    let words = t.words.as_slice();
    let start = t.from;
    for i in 0..words.len() {
        take_target(taken, words[i], start + 4 * i as u64);
    }
}

// Takes the pages of a text range with the 4 bytes after it, and those to which its jumps go.
fn take_text(taken: &mut [bool], t: &TextRange)
    requires { IsText t.now }
    ensures { TakesTexts (t.now ∷ []) taken.old taken.new }
{
    take_pages(taken, t.from, t.end() + 4);
    take_targets(taken, t);
}

#[tactic(auto, using(crate::proofs::Taking::no_texts))]
fn take_texts(taken: &mut [bool], texts: &[TextRange])
    requires { All IsText texts.now }
    ensures { TakesTexts texts.now taken.old taken.new }
{
    for t in texts {
        take_text(taken, t);
    }
}

#[tactic(auto, using(crate::proofs::Taking::no_parts))]
fn take_parts(taken: &mut [bool], parts: &[Part])
    requires { All IsPart parts.now }
    ensures { TakesParts parts.now taken.old taken.new }
{
    for part in parts {
        take_pages(taken, part.range.from, part.range.to);
    }
}

// Takes each page that is no region by itself.
fn take_image(taken: &mut [bool], image: &Image)
    requires { taken.now ≡ replicate 32768 false }
    ensures size { length taken.new ≡ 32768 }
    ensures taken { AreTaken image.now.texts image.now.parts taken.new }
{
    image.kept();
    take_run(taken, 0, 1);
    take_texts(taken, image.texts());
    take_parts(taken, image.parts());
}

/// For each page of the guest's space, whether it is no region by itself.
pub(crate) fn taken_pages(alloc: Global, image: &Image) -> Result<Vec<bool>, NoMemory>
    ensures size { IfOk result (λ v. length v.items ≡ 32768) }
    ensures taken { IfOk result (λ v. AreTaken image.now.texts image.now.parts v.items) }
{
    let mut taken = vec![in alloc; false; PAGES]?;
    take_image(&mut taken, image);
    Ok(taken)
}
