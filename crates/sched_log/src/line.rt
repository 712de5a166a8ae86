//! One line by itself.

ghost use Rattle.std.specs.Prelude.{◌≡◌, [], ◌∷◌, IfOk};
ghost use Rattle.sched_log.specs.Plans.{words};
ghost use Rattle.sched_log.specs.Lines.{line_of, by_words, is_passed, moves};
ghost use Rattle.image.specs.Picture.{Picture};
ghost use Rattle.sched_log.specs.Ranges.{HasRange};

use crate::event::Event;
use crate::fault::{BAD_NUMBER, WRONG_FORM};
use crate::parts::cut;
use crate::plan_line::plan_line;
use image::picture::Image;
use oc_base::fault::NoMemory;
use std::alloc::Global;
use texts::number_of;

/// The greatest number of a hart.
pub const LAST_HART: u32 = 63;

/// What a line is by itself: passed over, an event, the end, or a fault of this kind.
#[derive(Debug, Drop)]
pub enum Line {
    Passed,
    Does(Event),
    End,
    Wrong(u8),
}

/// Whether a line is empty or a comment.
fn is_passed(line: &[u8]) -> bool
    ensures { result ≡ is_passed line.now }
{
    line.is_empty() || line[0] == b'#'
}

/// A line of one word.
#[tactic(auto, unfolding(crate::specs::Lines::command))]
fn of_one(name: &[u8]) -> Line
    ensures is { result ≡ by_words (name.now ∷ []) }
    ensures range { (p : Picture) → HasRange p result }
{
    if name == b"end".as_slice() {
        return Line::End;
    }
    if name == b"snap".as_slice() {
        return Line::Does(Event::Snap);
    }
    if name == b"replace".as_slice() {
        return Line::Does(Event::Replace);
    }
    if name == b"retire".as_slice() {
        return Line::Does(Event::Retire);
    }
    Line::Wrong(WRONG_FORM)
}

/// A line of two words.
#[tactic(auto, unfolding(crate::specs::Lines::command))]
fn of_two(name: &[u8], n: &[u8]) -> Line
    ensures is { result ≡ by_words (name.now ∷ n.now ∷ []) }
    ensures range { (p : Picture) → HasRange p result }
{
    if name != b"till".as_slice() || n.is_empty() {
        return Line::Wrong(WRONG_FORM);
    }
    let Some(n) = number_of(n) else {
        return Line::Wrong(BAD_NUMBER);
    };
    Line::Does(Event::Till { n: n as u64 })
}

/// A line of three words.
#[tactic(auto, unfolding(crate::specs::Lines::command))]
fn of_three(name: &[u8], h: &[u8], n: &[u8]) -> Line
    ensures is { result ≡ by_words (name.now ∷ h.now ∷ n.now ∷ []) }
    ensures range { (p : Picture) → HasRange p result }
{
    let steps = name == b"steps".as_slice();
    if !steps && name != b"real".as_slice() || h.is_empty() || n.is_empty() {
        return Line::Wrong(WRONG_FORM);
    }
    let (Some(h), Some(n)) = (number_of(h), number_of(n)) else {
        return Line::Wrong(BAD_NUMBER);
    };
    if h > LAST_HART {
        return Line::Wrong(BAD_NUMBER);
    }
    let n = n as u64;
    if steps {
        return Line::Does(Event::Steps { h, n });
    }
    Line::Does(Event::Real { h, n })
}

/// What a line of words is.
#[tactic(auto, using(crate::proofs::Words::too_many))]
fn words_line(line: &[u8]) -> Line
    ensures is { result ≡ by_words (words line.now) }
    ensures range { (p : Picture) → HasRange p result }
{
    let (name, rest) = cut(line, b' ');
    let Some(rest) = rest else {
        return of_one(name);
    };
    let (first, rest) = cut(rest, b' ');
    let Some(rest) = rest else {
        return of_two(name, first);
    };
    let (second, rest) = cut(rest, b' ');
    if rest.is_some() {
        return Line::Wrong(WRONG_FORM);
    }
    of_three(name, first, second)
}

/// Whether a line gives a plan.
fn moves(line: &[u8]) -> bool
    ensures { result ≡ moves line.now }
{
    line.starts_with(b"replace ")
}

/// What a line is for an image.
#[tactic(auto, unfolding(crate::specs::Lines::line_of))]
pub fn line_of(alloc: Global, image: &Image, line: &[u8]) -> Result<Line, NoMemory>
    ensures is { IfOk result (λ l. l ≡ line_of image.now line.now) }
    ensures range { IfOk result (HasRange image.now) }
{
    if is_passed(line) {
        return Ok(Line::Passed);
    }
    if moves(line) {
        return plan_line(alloc, image, &line[7..]);
    }
    Ok(words_line(line))
}
