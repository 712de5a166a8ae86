//! Layouts that nothing refers to. A row is a guest, its layouts, calls that are sent elsewhere, pointers, and the positions of the
//! layouts that are wanted. A layout is a plan and a base, and a call is the address of its word. Addresses are hexadecimal. What is
//! wanted was worked out by hand from the layouts' addresses.

ghost use Rattle.std.specs.Prelude.{◌↔◌, All, AllPairs, OnOk, IfOk, IsTrue};
ghost use Rattle.layout.specs.Apart.{LieApart};

use cases::layouts::made_layout;
use cases::rows::{check, separate};
use image::picture::Image;
use layout::layout::Layout;
use retire::unreferenced::unreferenced;
use rv_encode::jal_to;
use rv_isa::fields::Reg;
use std::alloc::{AllocError, Global};
use std::test::Fail;

fn hex(word: &str) -> u64 {
    u64::from_str_radix(word, 16).unwrap_or(u64::MAX)
}

/// Puts a JAL at an address, if the layout has a word there.
fn send(layout: &mut Layout, at: u64, to: u64) -> Result<(), Fail> {
    if layout.word_at(at).is_none() {
        return Ok(());
    }
    let Ok(word) = jal_to(Reg::new(1).unwrap(), at, to) else {
        return Err(Fail::new("out of reach"));
    };
    layout.set_word(at, word);
    Ok(())
}

/// Sends those of calls such as `12004 to 12100, 12110 to 12000` elsewhere that the layout has.
fn send_all(layout: &mut Layout, calls: &str) -> Result<(), Fail> {
    for call in calls.split(", ") {
        let (at, to) = call.split_once(" to ").unwrap_or(("", ""));
        send(layout, hex(at), hex(to))?;
    }
    Ok(())
}

fn lie_apart(l: &Layout, m: &Layout) -> bool
    ensures { IsTrue result ↔ LieApart l.now m.now }
{
    l.kept();
    m.kept();
    let (l_end, m_end) = (
        l.base() + 4 * l.words().len() as u64,
        m.base() + 4 * m.words().len() as u64,
    );
    l_end <= m.base() || m_end <= l.base()
}

fn lies_apart(lives: &[Layout], layout: &Layout) -> bool
    ensures { IsTrue result ↔ All (λ l. LieApart l layout.now) lives.now }
{
    lives.iter().all(|l| lie_apart(l, layout))
}

fn push_apart(lives: &mut Vec<Layout>, layout: Layout) -> Result<(), Fail>
    requires { AllPairs LieApart lives.old.items }
    ensures { OnOk result (AllPairs LieApart lives.new.items) }
{
    if !lies_apart(lives, &layout) {
        return Err(Fail::new("layouts that meet"));
    }
    lives.push(layout)?;
    Ok(())
}

/// Adds a layout such as `0:0 at 12000`, with some of its calls sent elsewhere; `none` is none.
fn push_layout(
    lives: &mut Vec<Layout>,
    alloc: Global,
    image: &Image,
    text: &str,
    calls: &str,
) -> Result<(), Fail>
    requires { AllPairs LieApart lives.old.items }
    ensures { OnOk result (AllPairs LieApart lives.new.items) }
{
    if text == "none" {
        return Ok(());
    }
    let mut layout = made_layout(alloc, image, text)?;
    send_all(&mut layout, calls)?;
    push_apart(lives, layout)
}

/// Layouts such as `0:0 at 12000, 1:0 at 12100`.
fn layouts_of(alloc: Global, image: &Image, texts: &str, calls: &str) -> Result<Vec<Layout>, Fail>
    ensures { IfOk result (λ v. AllPairs LieApart v.items) }
{
    let mut lives = Vec::new(alloc);
    for text in texts.split(", ") {
        push_layout(&mut lives, alloc, image, text, calls)?;
    }
    Ok(lives)
}

/// The addresses of one kind in pointers such as `pc 12000, link 12004, link 12008`.
fn addresses(alloc: Global, pointers: &str, kind: &str) -> Result<Vec<u64>, AllocError> {
    let mut all = Vec::new(alloc);
    for pointer in pointers.split(", ") {
        let (name, address) = pointer.split_once(' ').unwrap_or(("", ""));
        if name == kind {
            all.push(hex(address))?;
        }
    }
    Ok(all)
}

fn positions_text(alloc: Global, positions: &[u32]) -> Result<String, AllocError> {
    if positions.is_empty() {
        return String::from_str(alloc, "none");
    }
    let mut text = String::new(alloc);
    for k in positions {
        separate(&mut text, " ")?;
        write!(text, "{k}")?;
    }
    Ok(text)
}

/// The positions of those of layouts into which none of some pointers leads.
fn answer_of(alloc: Global, lives: &[Layout], pointers: &str) -> Result<String, Fail>
    requires { AllPairs LieApart lives.now }
{
    if lives.len() > 100 {
        return Err(Fail::new("too many"));
    }
    let pcs = addresses(alloc, pointers, "pc")?;
    let links = addresses(alloc, pointers, "link")?;
    let aims = addresses(alloc, pointers, "aim")?;
    let positions = unreferenced(alloc, lives, &pcs, &links, &aims)?;
    Ok(positions_text(alloc, &positions)?)
}

/// The positions of a case such as `0:0 at 12000, 1:0 1 2 at 12100 | 12000 to 12100 | pc 12004`.
fn case_text(alloc: Global, image: &Image, case: &str) -> Result<String, Fail> {
    let (texts, rest) = case.split_once(" | ").unwrap_or(("", ""));
    let (calls, pointers) = rest.split_once(" | ").unwrap_or(("", ""));
    let lives = layouts_of(alloc, image, texts, calls)?;
    answer_of(alloc, &lives, pointers)
}

/// The layout of `main` has 5 words, and that of `work` 7.
const POINTERS: &str = "\
nothing: countdown | none | none | pc 12000 = none
no pointer: countdown | 0:0 at 12000 | none | none = 0
pc: countdown | 0:0 at 12000 | none | pc 12004 = none
link: countdown | 0:0 at 12000 | none | link 12008 = none
aim: countdown | 0:0 at 12000 | none | aim 12000 = none
last word: countdown | 0:0 at 12000 | none | pc 12010 = none
last byte: countdown | 0:0 at 12000 | none | link 12013 = none
past it: countdown | 0:0 at 12000 | none | pc 12014, link 12014, aim 12014 = 0
before it: countdown | 0:0 at 12000 | none | pc 11ffc, link 11fff, aim 0 = 0
text and the end: countdown | 0:0 at 12000 | none | pc 10000, link ffffffffffffffff = 0
the one behind: countdown | 0:0 at 12000, 1:0 1 2 at 12014 | none | pc 12014 = 0
the one before: countdown | 1:0 1 2 at 12014, 0:0 at 12000 | none | pc 12010 = 0
each kind: countdown | 0:0 at 12000, 1:0 1 2 at 12100, 0:0 at 12200, 1:0 1 2 at 12300 | none | pc 12000, link 12104, aim 12200 = 3
ascending: countdown | 0:0 at 12400, 1:0 1 2 at 12300, 0:0 at 12200, 1:0 1 2 at 12100, 0:0 at 12000 | none | link 12204 = 0 1 3 4";

#[test]
fn pointers_keep_what_they_point_into(rt: HostRuntime) -> Result<(), Fail> {
    check(rt.alloc(), POINTERS, case_text)
}

/// `main` calls in its second word, `rec` in its fifth, by itself its own first one.
const CALLS: &str = "\
itself: recursion | 1:0 1 2 at 12100 | none | none = 0
itself by both: recursion | 0:0; 1:0 1 2 at 12000 | none | none = 0
each other: recursion | 0:0 at 12000, 1:0 1 2 at 12100 | 12004 to 12100, 12110 to 12000 | none = 0 1
each other, and a pc: recursion | 0:0 at 12000, 1:0 1 2 at 12100 | 12004 to 12100, 12110 to 12000 | pc 12120 = none
unreferred caller: recursion | 0:0 at 12000, 1:0 1 2 at 12100 | 12004 to 12100 | pc 10004 = 0 1
caller of the kept one: recursion | 0:0 at 12000, 1:0 1 2 at 12100 | 12004 to 12100 | link 12114 = 0
called by the kept one: recursion | 0:0 at 12000, 1:0 1 2 at 12100 | 12004 to 12110 | link 12008 = none
chain: recursion | 0:0 at 12000, 0:0 at 12100, 0:0 at 12200, 1:0 1 2 at 12300 | 12004 to 12100, 12104 to 12200, 12204 to 12300 | aim 12000 = none
chain from its middle: recursion | 0:0 at 12000, 0:0 at 12100, 0:0 at 12200, 1:0 1 2 at 12300 | 12004 to 12100, 12104 to 12200, 12204 to 12300 | aim 12100 = 0
chain upwards: recursion | 1:0 1 2 at 12300, 0:0 at 12200, 0:0 at 12100, 0:0 at 12000 | 12004 to 12100, 12104 to 12200, 12204 to 12300 | pc 12104 = 3
ring of three: recursion | 0:0 at 12000, 0:0 at 12100, 1:0 1 2 at 12200 | 12004 to 12100, 12104 to 12200, 12210 to 12000 | link 12100 = none
ring left alone: recursion | 0:0 at 12000, 0:0 at 12100, 1:0 1 2 at 12200, 0:0 at 12300 | 12004 to 12100, 12104 to 12200, 12210 to 12000 | pc 12300 = 0 1 2
past a callee: recursion | 0:0 at 12000, 1:0 1 2 at 12100 | 12004 to 12124 | pc 12000 = 1
no call: recursion | 0:0 at 12000, 1:0 1 2 at 12100 | 12010 to 12100 | pc 12000 = 1
pair as it was: far call | 0:0 at 12000, 1:0 at 12100 | none | pc 12000 = 1
pair: far call | 0:0 at 12000, 1:0 at 12100 | 12008 to 12100 | pc 12000 = none";

#[test]
fn calls_of_kept_layouts_keep(rt: HostRuntime) -> Result<(), Fail> {
    check(rt.alloc(), CALLS, case_text)
}
