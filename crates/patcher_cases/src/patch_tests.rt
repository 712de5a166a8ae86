//! Calls that are aimed anew. A row is a guest with its region, the live layouts, the new layout, and then the words of the calls: first
//! those of text, sites and then pairs, and then those of each live layout; or the first call out of reach. A layout is a plan and a
//! base. What is wanted was worked out from the encoding of JAL by hand.

ghost use Rattle.std.specs.Prelude.{◌≡◌};

use cases::layouts::made_layout;
use cases::rows::{check, separate};
use image::picture::Image;
use image::ranges::Aim;
use layout::layout::Layout;
use layout::renders::renders;
use patcher::fault::ReachFault;
use patcher::laws::{each_kept, fits};
use patcher::text::TextNow;
use patcher::work::work_out;
use std::alloc::{AllocError, Global};
use std::test::Fail;

/// Layouts such as `0:0 at 12000, 1:0 at 12100`.
fn layouts_of(alloc: Global, image: &Image, text: &str) -> Result<Vec<Layout>, Fail> {
    let mut layouts = Vec::new(alloc);
    for text in text.split(", ") {
        if text != "none" {
            layouts.push(made_layout(alloc, image, text)?)?;
        }
    }
    Ok(layouts)
}

/// Sends the calls of text and of layouts that were just made to a new layout.
fn patched(
    alloc: Global,
    image: &Image,
    text: &mut TextNow,
    lives: &mut [Layout],
    new: Option<&Layout>,
) -> Result<Result<(), ReachFault>, Fail>
    requires { text.old ≡ image.now.texts }
{
    if !lives.iter().all(|l| renders(image, l)) {
        return Err(Fail::new("a layout that doesn't render"));
    }
    let patches = match work_out(alloc, image, lives, new) {
        Ok(patches) => patches,
        Err(fault) => return Ok(Err(fault)),
    };
    image.kept();
    each_kept(lives);
    fits();
    patches.apply(text, lives);
    Ok(Ok(()))
}

/// The words of calls of text, where they stand so many bytes behind.
fn push_words(
    words: &mut String,
    text: &TextNow,
    calls: &[Aim],
    past: u64,
) -> Result<(), AllocError> {
    for call in calls {
        let word = text.word(call.at.wrapping_add(past)).unwrap_or(0);
        separate(words, " ")?;
        write!(words, "{word:08x}")?;
    }
    Ok(())
}

fn push_live_words(words: &mut String, layout: &Layout, calls: &[Aim]) -> Result<(), AllocError> {
    for call in calls {
        let word = layout.word_at(call.at).unwrap_or(0);
        separate(words, " ")?;
        write!(words, "{word:08x}")?;
    }
    Ok(())
}

/// The words of all calls.
fn words_text(
    alloc: Global,
    image: &Image,
    text: &TextNow,
    lives: &[Layout],
) -> Result<String, AllocError> {
    let mut words = String::new(alloc);
    push_words(&mut words, text, image.sites(), 0)?;
    push_words(&mut words, text, image.pairs(), 4)?;
    for layout in lives {
        words.push_str(",")?;
        push_live_words(&mut words, layout, layout.sites())?;
        push_live_words(&mut words, layout, layout.pairs())?;
    }
    Ok(words)
}

fn fault_text(alloc: Global, fault: ReachFault) -> Result<String, AllocError> {
    match fault {
        ReachFault::BranchReach { at, target } => format!(in alloc; "reach {at:x} {target:x}"),
        ReachFault::NoMemory => String::from_str(alloc, "out of memory"),
    }
}

/// The words of all calls after these layouts.
fn patched_text(
    alloc: Global,
    image: &Image,
    lives: &mut [Layout],
    new: Option<&Layout>,
) -> Result<String, Fail> {
    let mut text = TextNow::of(alloc, image)?;
    match patched(alloc, image, &mut text, lives, new)? {
        Ok(()) => Ok(words_text(alloc, image, &text, lives)?),
        Err(fault) => Ok(fault_text(alloc, fault)?),
    }
}

/// The words of all calls after the layouts of a case, such as `0:0 at 12000 | 1:0 at 12100`.
fn case_text(alloc: Global, image: &Image, case: &str) -> Result<String, Fail> {
    let (old, new) = case.split_once(" | ").unwrap_or(("", ""));
    let mut lives = layouts_of(alloc, image, old)?;
    let news = layouts_of(alloc, image, new)?;
    patched_text(alloc, image, &mut lives, news.first())
}

const SITES: &str = "\
countdown in 12000..132000 | none | 1:2 1 0 at 12000 = 01c020ef 018020ef
countdown in 12000..132000 | 0:0; 1:0 1 2 at 12000 | 1:2 1 0 at 12100 = 11c020ef 118020ef, 11c000ef 118000ef
countdown in 12000..132000 | 0:0; 1:0 1 2 at 12000 | none = 010000ef 00c000ef, 810fe0ef 80cfe0ef
countdown in 12000..132000 | 0:0 at 12000, 0:0; 1:0 1 2 at 12100 | 0:0 at 12200 = 010000ef 00c000ef, 810fe0ef 80cfe0ef, f11fd0ef f0dfd0ef
countdown in 12000..132000 | none | 1:0 1 2 at 200000 = reach 10000 200000";

#[test]
fn sites_go_to_the_new_layout(rt: HostRuntime) -> Result<(), Fail> {
    check(rt.alloc(), SITES, case_text)
}

const PAIRS: &str = "\
far call in 12000..132000 | none | 1:0 at 12000 = 7fd010ef
far call in 12000..132000 | 0:0; 1:0 at 12000 | 0:0 at 12100 = 010080e7, 010080e7
far call in 12000..132000 | 0:0 at 12000 | 1:0 at 12100 = 0fc020ef, 0f8000ef
far call in 12000..132000 | 0:0 at 12000 | none = 010080e7, 010080e7";

#[test]
fn pairs_go_there_or_are_original(rt: HostRuntime) -> Result<(), Fail> {
    check(rt.alloc(), PAIRS, case_text)
}

const OUT_OF_REACH: &str = "\
short in 12000..132000 | 0:0; 1:0 at 110200, 0:0; 1:0 at 110100 | none = reach 110100 10008
short in 12000..132000 | 0:0; 1:0 at 110100, 0:0; 1:0 at 110200 | none = reach 110100 10008
apart in 1000..2000 | none | 1:0 at 1000 = reach 196a08 1000";

#[test]
fn the_first_call_out_of_reach_is_told(rt: HostRuntime) -> Result<(), Fail> {
    check(rt.alloc(), OUT_OF_REACH, case_text)
}
