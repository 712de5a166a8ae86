//! What is wrong with a line of a script, in words.
#![tactic(auto)]

mod line_parts;
mod part;
mod part_words;

ghost use Rattle.std.specs.Fmt.{decimal};
ghost use Rattle.std.specs.Prelude.{◌≡◌, ◌-◌, ◌++◌, [], codes, IfOk, OnOk, get_or, length, map, string_bytes, take};
ghost use Rattle.texts.specs.Texts.{lines_of};
ghost use Rattle.script_words.specs.Words.{shown_byte, shown, meaning, told, fault_words};

use crate::part::faulty_in;
use crate::part_words::part_text;
use image::picture::Image;
use oc_base::fault::NoMemory;
use oc_base::items::Items;
use sched_log::fault::{AFTER_END, BAD_NUMBER, NO_END, NO_FUNCTION, NOT_A_PLAN, WRONG_FORM};
use std::alloc::{AllocError, Global};
use texts::lines_of;

/// The most bytes of a line that are shown.
const SHOWN: usize = 60;

fn shown_byte(b: u8) -> u8
    ensures { result ≡ shown_byte b }
{
    if 32 <= b && b <= 126 { b } else { b'?' }
}

// The line of a number that is counted from 1, and the empty one where there is none.
fn line_at<'a>(lines: &[&'a [u8]], line: u64) -> &'a [u8]
    ensures { result.now ≡ get_or (map (λ l. l.now) lines.now) (line - 1) [] }
{
    if line == 0 {
        return first(lines);
    }
    let at = line - 1;
    if at < lines.len() as u64 {
        return lines[at as usize];
    }
    &[]
}

fn first<'a>(lines: &[&'a [u8]]) -> &'a [u8]
    ensures { result.now ≡ get_or (map (λ l. l.now) lines.now) 0 [] }
{
    if lines.is_empty() {
        return &[];
    }
    lines[0]
}

fn head(text: &[u8]) -> &[u8]
    ensures { result.now ≡ take 60 text.now }
{
    if text.len() <= SHOWN {
        return text;
    }
    &text[..SHOWN]
}

fn push_shown(words: &mut Items<u8>, text: &[u8]) -> Result<(), NoMemory>
    ensures { OnOk result (words.new ≡ words.old ++ map shown_byte text.now) }
{
    for b in text {
        words.push(shown_byte(*b))?;
    }
    Ok(())
}

// What a kind of fault means.
#[tactic(auto, unfolding(crate::specs::Words::meaning))]
fn meaning(alloc: Global, image: &Image, kind: u8) -> Result<String, AllocError>
    ensures { IfOk result (λ text. string_bytes text ≡ meaning image.now kind) }
{
    if kind == WRONG_FORM {
        return String::from_str(alloc, "no command has this form: ");
    }
    if kind == BAD_NUMBER {
        return String::from_str(
            alloc,
            "a number is missing or too large, or a hart is over 63: ",
        );
    }
    if kind == NO_FUNCTION {
        let count = image.funcs().len();
        return format!(in alloc; "a function isn't there, of the {count} from 0: ");
    }
    if kind == NOT_A_PLAN {
        return String::from_str(
            alloc,
            "a function is given twice, or not each of its blocks once: ",
        );
    }
    if kind == NO_END {
        return String::from_str(alloc, "there is no end, after the last line");
    }
    if kind == AFTER_END {
        return String::from_str(alloc, "a command stands after end: ");
    }
    String::from_str(alloc, "the counts up to here sum to more than 2000000000: ")
}

fn numbered(alloc: Global, line: u64) -> Result<String, AllocError>
    ensures { IfOk result (λ text. string_bytes text ≡ codes "line " ++ decimal line ++ codes ": ") }
{
    format!(in alloc; "line {line}: ")
}

// What a kind of fault means, and how the line begins.
fn general(alloc: Global, image: &Image, kind: u8, text: &[u8]) -> Result<Items<u8>, NoMemory>
    ensures { IfOk result (λ words. words ≡ meaning image.now kind ++ shown text.now) }
{
    let meaning = meaning(alloc, image, kind)?;
    let mut words = Items::from_vec(meaning.into_bytes());
    push_shown(&mut words, head(text))?;
    Ok(words)
}

// What a fault of this kind is in this line.
#[tactic(auto, unfolding(crate::specs::Words::told))]
fn told(
    alloc: Global,
    image: &Image,
    names: &[Items<u8>],
    kind: u8,
    text: &[u8],
) -> Result<Items<u8>, NoMemory>
    ensures { IfOk result (λ words. words ≡ told image.now names.now kind text.now) }
{
    match faulty_in(alloc, image, kind, text)? {
        Some(faulty) => {
            let words = part_text(alloc, image, names, faulty)?;
            Ok(Items::from_vec(words.into_bytes()))
        }
        None => general(alloc, image, kind, text),
    }
}

/// What is wrong with a line of a script for an image, by the kind of the fault: the line's number, and what is wrong with the first
/// part of a plan that has the fault, or in general, and then how the line begins.
#[tactic(auto, unfolding(crate::specs::Words::fault_words))]
pub fn fault_words(
    alloc: Global,
    image: &Image,
    names: &[Items<u8>],
    script: &[u8],
    line: u64,
    kind: u8,
) -> Result<Items<u8>, NoMemory>
    ensures { IfOk result (λ words. words ≡ fault_words image.now names.now script.now line kind) }
{
    let number = numbered(alloc, line)?;
    let lines = lines_of(alloc, script)?;
    let told = told(alloc, image, names, kind, line_at(&lines, line))?;
    let mut words = Items::from_vec(number.into_bytes());
    words.extend_from_slice(told.as_slice())?;
    Ok(words)
}
