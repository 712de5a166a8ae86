//! The parts of a plan's line.

ghost use Rattle.std.specs.Prelude.{◌≡◌, ◌==◌, map, position, IfOk};
ghost use Rattle.std.specs.List.{before_first};
ghost use Rattle.std.specs.Option.{option_copied};
ghost use Rattle.sched_log.specs.Parts.{behind};
ghost use Rattle.sched_log.specs.Plans.{all_of, numbers_of, moved_of, parts_of};
ghost use Rattle.texts.specs.Texts.{number_of};
ghost use Rattle.sched_log.specs.Lines.{moves};
ghost use Rattle.script_words.specs.Parts.{parts_in};

use oc_base::fault::NoMemory;
use oc_base::items::Items;
use plans::plan::Moved;
use std::alloc::Global;
use texts::{number_of, split_at_each};

/// The first place of a colon.
fn colon(part: &[u8]) -> Option<usize>
    ensures { result ≡ position (λ b. b == 58) part.now }
{
    part.iter().position(|b| *b == b':')
}

/// What stands before the first colon.
fn func_text(part: &[u8]) -> &[u8]
    ensures { result.now ≡ before_first (λ b. b == 58) part.now }
{
    let Some(at) = colon(part) else {
        return part;
    };
    &part[..at]
}

/// What stands behind the first colon.
fn blocks_text(part: &[u8]) -> Option<&[u8]>
    ensures { option_copied result ≡ behind 58 part.now }
{
    let Some(at) = colon(part) else {
        return None;
    };
    Some(&part[at + 1..])
}

/// The numbers that words are, if all are numbers.
fn read_words(alloc: Global, words: &[&[u8]]) -> Result<Option<Items<u32>>, NoMemory>
    ensures { IfOk result (λ numbers. numbers ≡ all_of number_of (map (λ w. w.now) words.now)) }
{
    let mut numbers = Items::new(alloc);
    for word in words {
        let Some(number) = number_of(word) else {
            return Ok(None);
        };
        numbers.push(number)?;
    }
    Ok(Some(numbers))
}

fn numbers_of(alloc: Global, text: &[u8]) -> Result<Option<Items<u32>>, NoMemory>
    ensures { IfOk result (λ numbers. numbers ≡ numbers_of text.now) }
{
    let words = split_at_each(alloc, text, b' ')?;
    read_words(alloc, &words)
}

/// The function that a part of a plan moves, if its words are numbers.
fn moved_of(alloc: Global, piece: &[u8]) -> Result<Option<Moved>, NoMemory>
    ensures { IfOk result (λ moved. moved ≡ moved_of piece.now) }
{
    let [_, part @ ..] = piece else {
        return Ok(None);
    };
    let Some(func) = number_of(func_text(part)) else {
        return Ok(None);
    };
    let Some(blocks) = blocks_text(part) else {
        return Ok(None);
    };
    let Some(order) = numbers_of(alloc, blocks)? else {
        return Ok(None);
    };
    Ok(Some(Moved { func, order }))
}

/// The functions that the parts of a plan move, if all words are numbers.
fn read_pieces(alloc: Global, pieces: &[&[u8]]) -> Result<Option<Items<Moved>>, NoMemory>
    ensures { IfOk result (λ parts. parts ≡ all_of moved_of (map (λ w. w.now) pieces.now)) }
{
    let mut parts = Items::new(alloc);
    for piece in pieces {
        let Some(moved) = moved_of(alloc, piece)? else {
            return Ok(None);
        };
        parts.push(moved)?;
    }
    Ok(Some(parts))
}

#[tactic(auto, unfolding(sched_log::specs::Plans::parts_of))]
fn parts_of(alloc: Global, text: &[u8]) -> Result<Option<Items<Moved>>, NoMemory>
    ensures { IfOk result (λ parts. parts ≡ parts_of text.now) }
{
    let pieces = split_at_each(alloc, text, b';')?;
    read_pieces(alloc, &pieces)
}

/// Whether a line gives a plan.
fn moves(line: &[u8]) -> bool
    ensures { result ≡ moves line.now }
{
    line.starts_with(b"replace ")
}

/// The parts of a line, if it is that of a plan.
#[tactic(auto, unfolding(crate::specs::Parts::parts_in))]
pub(crate) fn parts_in(alloc: Global, line: &[u8]) -> Result<Option<Items<Moved>>, NoMemory>
    ensures { IfOk result (λ parts. parts ≡ parts_in line.now) }
{
    if moves(line) {
        return parts_of(alloc, &line[7..]);
    }
    Ok(None)
}
