//! An executable as a whole.

ghost use Rattle.std.specs.Prelude.{◌≡◌, ◌≤◌, ◌++◌, All, codes, map, max, flat_map, string_bytes, IfOk, IfSome, OnOk};
ghost use Rattle.std.specs.Fmt.{decimal};
ghost use Rattle.std.specs.List.{fold};
ghost use Rattle.image.specs.Picture.{IsText};
ghost use Rattle.image.specs.Texts.{text_end};
ghost use Rattle.looking.specs.Overview.{entry_line, text_line, is_short, region_line, option_line, link_line, advice, overview, IsOverview};

use crate::func::push_funcs;
use crate::piece::{push_address, push_range};
use blocks::index::FuncIndex;
use finite::search::Spanned;
use image::picture::Image;
use image::ranges::TextRange;
use near_region::near::is_near;
use near_region::region::best_region;
use oc_base::fault::NoMemory;
use oc_base::items::Items;
use oc_base::range::Range;
use std::alloc::Global;
use std::fmt::Write;

/// The most bytes of text beside which a region fits: a MiB less two pages.
const SHORT: u64 = 1_040_384;

fn push_entry(text: &mut String, entry: u64) -> Result<(), NoMemory>
    ensures { OnOk result (string_bytes text.new ≡ string_bytes text.old ++ entry_line entry) }
{
    text.push_str("entry ")?;
    push_address(text, entry)?;
    text.push('\n')?;
    Ok(())
}

fn push_text(text: &mut String, t: &TextRange) -> Result<(), NoMemory>
    requires { IsText t.now }
    ensures { OnOk result (string_bytes text.new ≡ string_bytes text.old ++ text_line t.now) }
{
    text.push_str("text ")?;
    push_range(text, t.from, t.end())?;
    text.push('\n')?;
    Ok(())
}

fn push_texts(text: &mut String, texts: &[TextRange]) -> Result<(), NoMemory>
    requires { All IsText texts.now }
    ensures { OnOk result (string_bytes text.new ≡ string_bytes text.old ++ flat_map text_line texts.now) }
{
    for t in texts {
        push_text(text, t)?;
    }
    Ok(())
}

// The highest end of a text range.
fn highest_end(texts: &[TextRange]) -> u64
    requires { All IsText texts.now }
    ensures { result ≡ fold max 0 (map text_end texts.now) }
{
    let mut highest = 0;
    for t in texts {
        highest = highest.max(t.end());
    }
    highest
}

fn is_short(texts: &[TextRange]) -> bool
    requires { All IsText texts.now }
    ensures { result ≡ is_short texts.now }
{
    let Some(head) = texts.first() else {
        return true;
    };
    highest_end(texts).saturating_sub(head.from) <= SHORT
}

fn push_region(text: &mut String, region: Range, near: bool) -> Result<(), NoMemory>
    ensures { OnOk result (string_bytes text.new ≡ string_bytes text.old ++ region_line region near) }
{
    text.push_str("region ")?;
    push_range(text, region.from, region.to)?;
    if near {
        text.push_str(": in reach of all text\n")?;
        return Ok(());
    }
    text.push_str(": out of reach of some text\n")?;
    Ok(())
}

// The option that names a region.
fn push_option(text: &mut String, region: Range) -> Result<(), NoMemory>
    requires { region.from ≤ region.to }
    ensures { OnOk result (string_bytes text.new ≡ string_bytes text.old ++ option_line region) }
{
    let size = region.to - region.from;
    text.push_str("free and in reach: --region ")?;
    push_address(text, region.from)?;
    writeln!(text, ":{size}")?;
    Ok(())
}

// What can be done where no region is free and in reach.
fn push_link(text: &mut String, short: bool) -> Result<(), NoMemory>
    ensures { OnOk result (string_bytes text.new ≡ string_bytes text.old ++ link_line short) }
{
    if short {
        text.push_str(
            "nothing is free and in reach: link with -Wl,-Ttext-segment=0x100000 (lld: -Wl,--image-base=0x100000)\n",
        )?;
        return Ok(());
    }
    text.push_str(
        "nothing is free and in reach: a JAL reaches 1 MiB, and text and a region are longer; link less text\n",
    )?;
    Ok(())
}

fn push_advice(
    text: &mut String,
    texts: &[TextRange],
    near: bool,
    best: Option<Range>,
) -> Result<(), NoMemory>
    requires fit { All IsText texts.now }
    requires ordered { IfSome best (λ r. r.from ≤ r.to) }
    ensures { OnOk result (string_bytes text.new ≡ string_bytes text.old ++ advice texts.now near best) }
{
    if near {
        return Ok(());
    }
    match best {
        Some(region) => push_option(text, region),
        None => push_link(text, is_short(texts)),
    }
}

fn push_count(text: &mut String, count: usize) -> Result<(), NoMemory>
    ensures { OnOk result (string_bytes text.new ≡ string_bytes text.old ++ (codes "functions " ++ decimal count ++ codes "\n")) }
{
    writeln!(text, "functions {count}")?;
    Ok(())
}

fn text_of(
    alloc: Global,
    image: &Image,
    names: &[Items<u8>],
    near: bool,
    best: Option<Range>,
) -> Result<String, NoMemory>
    requires { IfSome best (λ r. r.from ≤ r.to) }
    ensures { IfOk result (λ text. string_bytes text ≡ overview image.now names.now near best) }
{
    image.kept();
    let index = FuncIndex::new(alloc, image)?;
    let mut text = String::new(alloc);
    push_entry(&mut text, image.entry())?;
    push_texts(&mut text, image.texts())?;
    push_region(&mut text, image.region(), near)?;
    push_advice(&mut text, image.texts(), near, best)?;
    push_count(&mut text, image.funcs().len())?;
    push_funcs(alloc, &mut text, &index, names)?;
    Ok(text)
}

/// What is to be seen of an executable as a whole: entry, text, region, and a line for each function. `names` are the names of all
/// functions, in their order.
pub fn overview(alloc: Global, image: &Image, names: &[Items<u8>]) -> Result<Items<u8>, NoMemory>
    ensures { IfOk result (IsOverview image.now names.now) }
{
    image.kept();
    let near = is_near(image, image.region());
    let best = best_region(alloc, image)?;
    let text = text_of(alloc, image, names, near, best)?;
    Ok(Items::from_vec(text.into_bytes()))
}
