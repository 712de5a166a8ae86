//! The line of a plan: `replace F:B B; F:B`.

ghost use Rattle.std.specs.Prelude.{◌≡◌, ◌==◌, ◌<◌, length, IfOk, IfSome};
ghost use Rattle.std.specs.List.{list_any};
ghost use Rattle.sched_log.specs.Plans.{are_words, is_part, is_plan, numbers_of, moved_of, parts_of};
ghost use Rattle.sched_log.specs.Lines.{plan_line};
ghost use Rattle.sched_log.specs.Ranges.{HasRange};

use crate::event::Event;
use crate::fault::{BAD_NUMBER, NO_FUNCTION, NOT_A_PLAN, WRONG_FORM};
use crate::line::Line;
use crate::parts::cut;
use image::picture::Image;
use oc_base::fault::NoMemory;
use oc_base::items::Items;
use plans::plan::{Moved, Plan, PlanFault};
use std::alloc::Global;
use texts::number_of;

/// Whether no word of a text is empty.
fn are_words(text: &[u8]) -> bool
    ensures { result ≡ are_words text.now }
{
    let mut rest = Some(text);
    'words: while let Some(text) = rest {
        let (word, behind) = cut(text, b' ');
        if word.is_empty() {
            return false;
        }
        rest = behind;
    }
    true
}

/// Whether a text has the form of a plan's part.
fn is_part(piece: &[u8]) -> bool
    ensures { result ≡ is_part piece.now }
{
    let [b' ', part @ ..] = piece else {
        return false;
    };
    let (func, Some(blocks)) = cut(part, b':') else {
        return false;
    };
    are_words(func) && are_words(blocks)
}

fn has_slash(text: &[u8]) -> bool
    ensures { result ≡ list_any (λ b. b == 47) text.now }
{
    text.iter().any(|b| *b == b'/')
}

/// Whether what stands behind the word `replace` has the form of a plan.
#[tactic(auto, unfolding(crate::specs::Plans::is_plan))]
fn is_plan(text: &[u8]) -> bool
    ensures { result ≡ is_plan text.now }
{
    if has_slash(text) {
        return false;
    }
    let mut rest = Some(text);
    'pieces: while let Some(text) = rest {
        let (piece, behind) = cut(text, b';');
        if !is_part(piece) {
            return false;
        }
        rest = behind;
    }
    true
}

/// The numbers of a text's words, if all are numbers.
fn numbers_of(alloc: Global, text: &[u8]) -> Result<Option<Items<u32>>, NoMemory>
    ensures { IfOk result (λ numbers. numbers ≡ numbers_of text.now) }
{
    let mut numbers = Items::new(alloc);
    let mut rest = Some(text);
    'words: while let Some(text) = rest {
        let (word, behind) = cut(text, b' ');
        let Some(number) = number_of(word) else {
            return Ok(None);
        };
        numbers.push(number)?;
        rest = behind;
    }
    Ok(Some(numbers))
}

/// The function that a part of a plan moves, if its words are numbers.
fn moved_of(alloc: Global, piece: &[u8]) -> Result<Option<Moved>, NoMemory>
    ensures { IfOk result (λ moved. moved ≡ moved_of piece.now) }
{
    let [_, part @ ..] = piece else {
        return Ok(None);
    };
    let (func, Some(blocks)) = cut(part, b':') else {
        return Ok(None);
    };
    let Some(func) = number_of(func) else {
        return Ok(None);
    };
    let Some(order) = numbers_of(alloc, blocks)? else {
        return Ok(None);
    };
    Ok(Some(Moved { func, order }))
}

/// The functions that a plan moves, if all its words are numbers.
#[tactic(auto, unfolding(crate::specs::Plans::parts_of))]
fn parts_of(alloc: Global, text: &[u8]) -> Result<Option<Items<Moved>>, NoMemory>
    ensures parts { IfOk result (λ parts. parts ≡ parts_of text.now) }
    ensures some { IfOk result (λ parts. IfSome parts (λ parts. 0 < length parts)) }
{
    let mut parts = Items::new(alloc);
    let mut rest = Some(text);
    'pieces: while let Some(text) = rest {
        let (piece, behind) = cut(text, b';');
        let Some(moved) = moved_of(alloc, piece)? else {
            return Ok(None);
        };
        parts.push(moved)?;
        rest = behind;
    }
    Ok(Some(parts))
}

/// What the line of a plan is for an image, by what stands behind the word `replace`.
#[tactic(auto, unfolding(crate::specs::Lines::plan_line))]
pub fn plan_line(alloc: Global, image: &Image, text: &[u8]) -> Result<Line, NoMemory>
    ensures is { IfOk result (λ line. line ≡ plan_line image.now text.now) }
    ensures range { IfOk result (HasRange image.now) }
{
    if !is_plan(text) {
        return Ok(Line::Wrong(WRONG_FORM));
    }
    let Some(parts) = parts_of(alloc, text)? else {
        return Ok(Line::Wrong(BAD_NUMBER));
    };
    match Plan::given(alloc, image, parts.as_slice()) {
        Ok(plan) => Ok(Line::Does(Event::Given(plan))),
        Err(PlanFault::NoFunction) => Ok(Line::Wrong(NO_FUNCTION)),
        Err(PlanFault::NotAPlan) => Ok(Line::Wrong(NOT_A_PLAN)),
        Err(PlanFault::NoMemory) => Err(NoMemory),
    }
}
