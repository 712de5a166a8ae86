//! What is seen of a program.

ghost use Rattle.std.specs.Prelude.{◌≡◌, ◌<◌, ◌==◌, bytes_eq, length, position, Some, None, IfSome};
ghost use Rattle.image.specs.Picture.{IsPaged};
ghost use Rattle.texts.specs.Texts.{number_of};
ghost use Rattle.top_call.specs.Call.{UnlessFull};
ghost use Rattle.look.specs.Decision.{chosen, the_program, ShowsProgram, Delivers};
ghost use Rattle.look.specs.declared.decision.Refusal.{Refusal};

use crate::decision::{Refusal, Seen};
use crate::opened::{Opened, open_program};
use image::picture::Image;
use looking::listing::listing;
use looking::overview::overview;
use oc_base::items::Items;
use oc_base::range::Range;
use oc_base::text::Text;
use std::alloc::Global;
use texts::number_of;

fn place_of(names: &[Items<u8>], word: &[u8]) -> Option<usize>
    ensures { result ≡ position (λ name. bytes_eq name word.now) names.now }
{
    names.iter().position(|name| name.as_slice() == word)
}

// The number of the function that a word names: the number that it writes, or the first function with that name.
#[tactic(auto, unfolding(crate::specs::Decision::chosen))]
fn chosen(names: &[Items<u8>], word: &str) -> Option<usize>
    ensures is { result ≡ chosen names.now word.now }
    ensures within { IfSome result (λ n. n < length names.now) }
{
    if let Some(n) = number_of(word.as_bytes()) {
        if (n as usize) < names.len() {
            return Some(n as usize);
        }
    }
    place_of(names, word.as_bytes())
}

// The whole of an image.
fn show_all(alloc: Global, image: &Image, names: &[Items<u8>]) -> Result<Seen, Refusal>
    ensures { UnlessFull Refusal.NoMemory (ShowsProgram image.now names.now None) result }
{
    let Ok(text) = overview(alloc, image, names) else {
        return Err(Refusal::NoMemory);
    };
    Ok(Seen {
        text,
        picture: None,
    })
}

// The function that a word names.
fn show_one(alloc: Global, image: &Image, names: &[Items<u8>], word: &str) -> Result<Seen, Refusal>
    requires { length names.now ≡ length image.now.funcs }
    ensures { UnlessFull Refusal.NoMemory (ShowsProgram image.now names.now (Some word.now)) result }
{
    image.kept();
    let Some(n) = chosen(names, word) else {
        return match Text::copy_of(alloc, word) {
            Ok(name) => Err(Refusal::NoFunction(name)),
            Err(_) => Err(Refusal::NoMemory),
        };
    };
    let Ok(text) = listing(alloc, image, names, n as u32) else {
        return Err(Refusal::NoMemory);
    };
    Ok(Seen {
        text,
        picture: None,
    })
}

fn show_image(
    alloc: Global,
    image: &Image,
    names: &[Items<u8>],
    function: &Option<Text>,
) -> Result<Seen, Refusal>
    requires { length names.now ≡ length image.now.funcs }
    ensures { UnlessFull Refusal.NoMemory (ShowsProgram image.now names.now function.now) result }
{
    match function {
        Some(word) => show_one(alloc, image, names, word.as_str()),
        None => show_all(alloc, image, names),
    }
}

/// What a program's bytes show: all of it, or one function.
pub(crate) fn show(
    alloc: Global,
    program: &[u8],
    region: Option<Range>,
    function: &Option<Text>,
) -> Result<Seen, Refusal>
    requires { IfSome region IsPaged }
    ensures { UnlessFull Refusal.NoMemory (Delivers (record { program = program.now; region = region; wanted = the_program function.now })) result }
{
    let Opened { image, names } = match open_program(alloc, program, region) {
        Ok(opened) => opened,
        Err(refusal) => return Err(refusal),
    };
    show_image(alloc, &image, &names, function)
}
