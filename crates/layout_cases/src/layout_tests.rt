//! Layouts of plans. A row is a guest, a plan, a base, and what the layout is: its words with what each stands for, its sites and its
//! pairs; or why there is none. Addresses are hexadecimal. What is wanted was told by an independent implementation.

use blocks::fault::Unreadable;
use cases::layouts::{layout_of, made_layout};
use cases::orders::plan_of;
use cases::rows::{check, separate};
use emit::emit::size_of;
use emit::fault::EmitFault;
use image::picture::Image;
use image::ranges::Aim;
use layout::layout::Layout;
use layout::point::Point;
use layout::renders::renders;
use std::alloc::{AllocError, Global};
use std::test::Fail;

fn push_point(text: &mut String, point: Option<Point>) -> Result<(), AllocError> {
    match point {
        Some(Point::Start(x)) => write!(text, "start {x:x}"),
        Some(Point::Hop(x)) => write!(text, "hop {x:x}"),
        Some(Point::Mid(x)) => write!(text, "mid {x:x}"),
        None => text.push_str("none"),
    }
}

fn push_words(text: &mut String, layout: &Layout) -> Result<(), AllocError> {
    for (word, point) in layout.words().iter().zip(layout.points()) {
        separate(text, ", ")?;
        write!(text, "{word:08x} ")?;
        push_point(text, Some(*point))?;
    }
    Ok(())
}

fn push_calls(text: &mut String, what: &str, calls: &[Aim]) -> Result<(), AllocError> {
    for call in calls {
        let (at, func) = (call.at, call.func);
        separate(text, ", ")?;
        write!(text, "{what} {at:x} of {func}")?;
    }
    Ok(())
}

fn layout_text(alloc: Global, layout: &Layout) -> Result<String, AllocError> {
    let mut text = String::new(alloc);
    push_words(&mut text, layout)?;
    push_calls(&mut text, "site", layout.sites())?;
    push_calls(&mut text, "pair", layout.pairs())?;
    Ok(text)
}

fn unreadable_text(alloc: Global, func: u32, why: Unreadable) -> Result<String, AllocError> {
    match why {
        Unreadable::Undecodable(at) => format!(in alloc; "unreadable {func} undecodable {at:x}"),
        _ => String::from_str(alloc, "unreadable"),
    }
}

fn fault_text(alloc: Global, fault: EmitFault) -> Result<String, AllocError> {
    match fault {
        EmitFault::BranchReach { at, target } => format!(in alloc; "reach {at:x} {target:x}"),
        EmitFault::Unreadable { func, why } => unreadable_text(alloc, func, why),
        EmitFault::NoMemory => String::from_str(alloc, "out of memory"),
    }
}

/// What a layout is that renders its image.
fn rendered_text(alloc: Global, image: &Image, layout: &Layout) -> Result<String, Fail> {
    if !renders(image, layout) {
        return Err(Fail::new("it doesn't render"));
    }
    Ok(layout_text(alloc, layout)?)
}

/// What the layout is for a plan at a base, such as `1:2 1 0 at 12000`.
fn case_text(alloc: Global, image: &Image, case: &str) -> Result<String, Fail> {
    match layout_of(alloc, image, case)? {
        Ok(layout) => rendered_text(alloc, image, &layout),
        Err(fault) => Ok(fault_text(alloc, fault)?),
    }
}

const CALLS: &str = "\
countdown | 1:2 1 0 at 12000 = ffffe317 start 1001c, 01c30313 mid 1001c, 03f37513 start 10020, 00008067 start 10024, fff28293 start 10014, fe029ee3 start 10018, fe9ff06f hop 1001c, 00200293 start 10010, ff1ff06f hop 10014
countdown | 0:0; 1:0 1 2 at 12000 = 014000ef start 10000, 010000ef start 10004, 05d00893 start 10008, 00000073 start 1000c, 800fe06f hop 10010, 00200293 start 10010, fff28293 start 10014, fe029ee3 start 10018, ffffe317 start 1001c, ffc30313 mid 1001c, 03f37513 start 10020, 00008067 start 10024, site 12000 of 1, site 12004 of 1
countdown | 1:1 0 2; 0:0 at 12100 = fff28293 start 10014, fe029ee3 start 10018, 00c0006f hop 1001c, 00200293 start 10010, ff1ff06f hop 10014, ffffe317 start 1001c, f0830313 mid 1001c, 03f37513 start 10020, 00008067 start 10024, fe9ff0ef start 10000, fe5ff0ef start 10004, 05d00893 start 10008, 00000073 start 1000c, eddfd06f hop 10010, site 12124 of 1, site 12128 of 1
countdown | 0:0 at 12000 = 810fe0ef start 10000, 80cfe0ef start 10004, 05d00893 start 10008, 00000073 start 1000c, 800fe06f hop 10010, site 12000 of 1, site 12004 of 1
countdown | 1:0 1 2; 0:0 at 4000000 = reach 400002c 10010
countdown | 0:0 at 4000000 = reach 4000000 10010
far call | 0:0 at 12000 = ffffe097 start 10000, 00008093 mid 10000, 010080e7 start 10004, 05d00893 start 10008, 00000073 start 1000c, ffdfd06f hop 10010, pair 12008 of 1
far call | 0:0; 1:0 at 12000 = ffffe097 start 10000, 00008093 mid 10000, 010000ef start 10004, 05d00893 start 10008, 00000073 start 1000c, ffdfd06f hop 10010, 00008067 start 10010, pair 12008 of 1
far call | 1:0; 0:0 at 12000 = 00008067 start 10010, ffffe097 start 10000, ffc08093 mid 10000, ff5ff0ef start 10004, 05d00893 start 10008, 00000073 start 1000c, ff9fd06f hop 10010, pair 1200c of 1
far call | 0:0 at 4000000 = reach 4000014 10010
jumps | 0:0 1 2 3 4 at 12000 = 0080006f start 10000, 00100293 start 10004, 00028067 start 10008, 000280e7 start 1000c, 00100313 start 10010, fedff0ef start 10014, 808fe06f start 10018, 00008067 start 1001c, site 12014 of 0, site 12018 of 1
jumps | 0:4 3 2 1 0; 1:0 at 12000 = 00008067 start 1001c, 000280e7 start 1000c, 00100313 start 10010, 014000ef start 10014, 0140006f start 10018, 00028067 start 10008, 00100293 start 10004, ff9ff06f hop 10008, ff5ff06f start 10000, 00008067 start 10020, site 1200c of 0, site 12010 of 1";

#[test]
fn layouts_of_loops_and_calls(rt: HostRuntime) -> Result<(), Fail> {
    check(rt.alloc(), CALLS, case_text)
}

const BRANCHES: &str = "\
fork | 0:0 1 2 at 12000 = 00300293 start 10000, 0062c463 start 10004, 00100313 start 10008, 00200393 start 1000c, 00008067 start 10010
fork | 0:0 2 1 at 12000 = 00300293 start 10000, 0062d663 start 10004, 00200393 start 1000c, 00008067 start 10010, 00100313 start 10008, ff5ff06f hop 1000c
fork | 0:2 1 0 at 12000 = 00200393 start 1000c, 00008067 start 10010, 00100313 start 10008, ff5ff06f hop 1000c, 00300293 start 10000, fe62c6e3 start 10004, ff1ff06f hop 10008
fork | 0:1 0 2 at 12000 = 00100313 start 10008, 00c0006f hop 1000c, 00300293 start 10000, fe62dae3 start 10004, 00200393 start 1000c, 00008067 start 10010
loops | 0:0 1 2 3 4 5 at 12000 = 00300293 start 10000, fff28293 start 10004, fe029ee3 start 10008, ff9ff06f start 1000c, 00000063 start 10010, 0000006f start 10014, 00100073 start 10018, 800fe06f hop 1001c
loops | 0:5 3 4 2 0 1 at 12000 = 00100073 start 10018, 818fe06f hop 1001c, 00000063 start 10010, 0000006f start 10014, 0080006f start 1000c, 00300293 start 10000, fff28293 start 10004, fe029ee3 start 10008, ff1ff06f hop 1000c
last falls | 0:0; 1:0 at 12000 = 008000ef start 10000, 800fe06f hop 10004, 00628063 start 10004, ffdfd06f hop 10008, site 12000 of 1
last falls | 1:0; 0:0 at 12000 = 00628063 start 10004, 804fe06f hop 10008, ff9ff0ef start 10000, ff9fd06f hop 10004, site 12008 of 1
zero word | 0:0; 1:0 at 12000 = unreadable 1 undecodable 10008
zero word | 1:0 at 12000 = unreadable 1 undecodable 10008";

#[test]
fn layouts_of_branches(rt: HostRuntime) -> Result<(), Fail> {
    check(rt.alloc(), BRANCHES, case_text)
}

/// How many bytes the layout of a plan has.
fn size_text(alloc: Global, image: &Image, case: &str) -> Result<String, Fail> {
    let plan = plan_of(alloc, image, case)?;
    let Ok(size) = size_of(alloc, image, &plan) else {
        return Err(Fail::new("no size"));
    };
    Ok(format!(in alloc; "{size}")?)
}

// A guest with so many words between a branch and its target, an order of the three blocks, and the bytes of the layout.
const SIZES: &str = "\
over 1021 | 0:0 1 2 = 4100
over 1021 | 0:0 2 1 = 4104
over 1021 | 0:2 1 0 = 4112
over 1021 | 0:1 0 2 = 4104
over 1022 | 0:0 1 2 = 4108
over 1022 | 0:0 2 1 = 4108
over 1022 | 0:2 1 0 = 4116
over 1022 | 0:1 0 2 = 4108";

#[test]
fn a_branch_past_its_reach_is_long(rt: HostRuntime) -> Result<(), Fail> {
    check(rt.alloc(), SIZES, size_text)
}

/// The point of an address of a layout, such as `1:2 1 0 at 12000, 12004`.
fn point_text(alloc: Global, image: &Image, case: &str) -> Result<String, Fail> {
    let (plan, at) = case.split_once(", ").unwrap_or(("", ""));
    let at = u64::from_str_radix(at, 16).unwrap_or(0);
    let layout = made_layout(alloc, image, plan)?;
    let mut text = String::new(alloc);
    push_point(&mut text, layout.point_at(at))?;
    Ok(text)
}

const POINTS: &str = "\
a word: countdown | 1:2 1 0 at 12000, 12004 = mid 1001c
half a word: countdown | 1:2 1 0 at 12000, 12006 = none
past the last word: countdown | 1:2 1 0 at 12000, 12024 = none";

#[test]
fn an_address_has_the_point_of_its_word(rt: HostRuntime) -> Result<(), Fail> {
    check(rt.alloc(), POINTS, point_text)
}

/// Puts another word at the address of a word.
fn change(layout: &mut Layout, at: u64) {
    if layout.word_at(at).is_some() {
        layout.set_word(at, 0x13);
    }
}

/// Whether the copy of a layout renders its image, such as `1:2 1 0 at 12000`, or `1:2 1 0 at 12000, 12004` with another word there.
fn renders_text(alloc: Global, image: &Image, case: &str) -> Result<String, Fail> {
    let (plan, at) = case.split_once(", ").unwrap_or((case, ""));
    let layout = made_layout(alloc, image, plan)?;
    let mut copy = layout.copy(alloc)?;
    change(&mut copy, u64::from_str_radix(at, 16).unwrap_or(0));
    let renders = renders(image, &copy);
    Ok(format!(in alloc; "{renders}")?)
}

const CHANGED: &str = "\
as it is: countdown | 1:2 1 0 at 12000 = true
with another second word: countdown | 1:2 1 0 at 12000, 12004 = false";

#[test]
fn a_layout_with_another_word_renders_no_more(rt: HostRuntime) -> Result<(), Fail> {
    check(rt.alloc(), CHANGED, renders_text)
}

#[test]
fn a_layout_outside_the_region_renders_nothing(rt: HostRuntime) -> Result<(), Fail> {
    check(
        rt.alloc(),
        "countdown | 1:2 1 0 at 92000 = false",
        renders_text,
    )
}
