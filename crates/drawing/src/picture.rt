//! The picture.

ghost use Rattle.std.specs.Prelude.{◌≡◌, ◌<◌, ◌++◌, string_bytes, IfOk, OnOk};
ghost use Rattle.drawing.specs.Picture.{heading, namespace, view_box, family, font_text, svg_tag, title_line, paper_text, heading_line, head_of, words_text, key_text, few_keys, many_keys, caption_text, frame_text, body_text, picture_text, text_strip, svg};

use crate::function::push_functions;
use crate::layout::{push_lines, push_strips};
use crate::mark::{
    colour_of, push_ground, push_numbered, push_point, push_range, push_rect, push_size,
    push_worded,
};
use crate::parts::{Drawing, Function, Layout};
use crate::strip::{Strip, text_strip};
use oc_base::fault::NoMemory;
use oc_base::items::Items;
use std::alloc::Global;
use std::fmt::Write;

#[tactic(auto, unfolding(crate::specs::Picture::heading))]
fn push_heading(text: &mut String) -> Result<(), NoMemory>
    ensures { OnOk result (string_bytes text.new ≡ string_bytes text.old ++ heading) }
{
    text.push_str("Code, and where it moved")?;
    Ok(())
}

#[tactic(auto, unfolding(crate::specs::Picture::namespace))]
fn push_namespace(text: &mut String) -> Result<(), NoMemory>
    ensures { OnOk result (string_bytes text.new ≡ string_bytes text.old ++ namespace) }
{
    text.push_str(" xmlns='http://www.w3.org/2000/svg'")?;
    Ok(())
}

#[tactic(auto, unfolding(crate::specs::Picture::view_box))]
fn push_view_box(text: &mut String, height: u128) -> Result<(), NoMemory>
    ensures { OnOk result (string_bytes text.new ≡ string_bytes text.old ++ view_box height) }
{
    write!(text, " viewBox='0 0 1240 {height}'")?;
    Ok(())
}

#[tactic(auto, unfolding(crate::specs::Picture::family))]
fn push_family(text: &mut String) -> Result<(), NoMemory>
    ensures { OnOk result (string_bytes text.new ≡ string_bytes text.old ++ family) }
{
    text.push_str(" font-family='sans-serif'")?;
    Ok(())
}

#[tactic(auto, unfolding(crate::specs::Picture::font_text))]
fn push_font(text: &mut String) -> Result<(), NoMemory>
    ensures { OnOk result (string_bytes text.new ≡ string_bytes text.old ++ font_text) }
{
    push_family(text)?;
    push_numbered(text, "font-size", 11)
}

#[tactic(auto, unfolding(crate::specs::Picture::svg_tag))]
fn push_svg_tag(text: &mut String, height: u128) -> Result<(), NoMemory>
    ensures { OnOk result (string_bytes text.new ≡ string_bytes text.old ++ svg_tag height) }
{
    text.push_str("<svg")?;
    push_namespace(text)?;
    push_view_box(text, height)?;
    push_size(text, 1240, height)?;
    push_font(text)?;
    text.push_str(">\n")?;
    Ok(())
}

#[tactic(auto, unfolding(crate::specs::Picture::title_line))]
fn push_title_line(text: &mut String) -> Result<(), NoMemory>
    ensures { OnOk result (string_bytes text.new ≡ string_bytes text.old ++ title_line) }
{
    text.push_str("<title>")?;
    push_heading(text)?;
    text.push_str("</title>\n")?;
    Ok(())
}

// A white ground.
#[tactic(auto, unfolding(crate::specs::Picture::paper_text))]
fn push_paper(text: &mut String, height: u128) -> Result<(), NoMemory>
    ensures { OnOk result (string_bytes text.new ≡ string_bytes text.old ++ paper_text height) }
{
    text.push_str("<rect")?;
    push_size(text, 1240, height)?;
    push_worded(text, "fill", "#ffffff")?;
    text.push_str("/>\n")?;
    Ok(())
}

#[tactic(auto, unfolding(crate::specs::Picture::heading_line))]
fn push_heading_line(text: &mut String) -> Result<(), NoMemory>
    ensures { OnOk result (string_bytes text.new ≡ string_bytes text.old ++ heading_line) }
{
    text.push_str("<text")?;
    push_point(text, 20, 28)?;
    push_numbered(text, "font-size", 16)?;
    text.push_str(">")?;
    push_heading(text)?;
    text.push_str("</text>\n")?;
    Ok(())
}

#[tactic(auto, unfolding(crate::specs::Picture::head_of))]
fn push_head(text: &mut String, height: u128) -> Result<(), NoMemory>
    ensures { OnOk result (string_bytes text.new ≡ string_bytes text.old ++ head_of height) }
{
    push_svg_tag(text, height)?;
    push_title_line(text)?;
    push_paper(text, height)?;
    push_heading_line(text)
}

#[tactic(auto, unfolding(crate::specs::Picture::words_text))]
fn push_words(text: &mut String, x: u64, y: u128, words: &str) -> Result<(), NoMemory>
    ensures { OnOk result (string_bytes text.new ≡ string_bytes text.old ++ words_text x y words.now) }
{
    text.push_str("<text")?;
    push_point(text, x, y)?;
    text.push_str(">")?;
    text.push_str(words)?;
    text.push_str("</text>\n")?;
    Ok(())
}

// The colour of a count, and words for it.
#[tactic(auto, unfolding(crate::specs::Picture::key_text))]
fn push_key(text: &mut String, x: u64, count: u64, words: &str) -> Result<(), NoMemory>
    requires { x < 2000 }
    ensures { OnOk result (string_bytes text.new ≡ string_bytes text.old ++ key_text x count words.now) }
{
    push_rect(text, x, 42, 12, 12, colour_of(count))?;
    text.push_str("/>\n")?;
    push_words(text, x + 18, 52, words)
}

#[tactic(auto, unfolding(crate::specs::Picture::few_keys))]
fn push_few_keys(text: &mut String) -> Result<(), NoMemory>
    ensures { OnOk result (string_bytes text.new ≡ string_bytes text.old ++ few_keys) }
{
    push_key(text, 20, 0, "never ran")?;
    push_key(text, 170, 1, "1 to 9 times")?;
    push_key(text, 320, 10, "10 to 99")?;
    push_key(text, 470, 100, "100 to 999")
}

#[tactic(auto, unfolding(crate::specs::Picture::many_keys))]
fn push_many_keys(text: &mut String) -> Result<(), NoMemory>
    ensures { OnOk result (string_bytes text.new ≡ string_bytes text.old ++ many_keys) }
{
    push_key(text, 620, 1000, "1,000 to 9,999")?;
    push_key(text, 770, 10_000, "10,000 to 99,999")?;
    push_key(text, 920, 100_000, "100,000 to 999,999")?;
    push_key(text, 1070, 1_000_000, "1,000,000 or more")
}

#[tactic(auto, unfolding(crate::specs::Picture::caption_text))]
fn push_caption(text: &mut String, s: Strip) -> Result<(), NoMemory>
    ensures { OnOk result (string_bytes text.new ≡ string_bytes text.old ++ caption_text s) }
{
    text.push_str("<text")?;
    push_point(text, 20, 82)?;
    text.push_str(">text ")?;
    push_range(text, s.from, s.to)?;
    text.push_str("</text>\n")?;
    Ok(())
}

// What is no function, layout or line.
#[tactic(auto, unfolding(crate::specs::Picture::frame_text))]
fn push_frame(text: &mut String, layouts: usize, s: Strip) -> Result<(), NoMemory>
    ensures { OnOk result (string_bytes text.new ≡ string_bytes text.old ++ frame_text layouts s) }
{
    push_head(text, 180 + 120 * layouts as u128)?;
    push_few_keys(text)?;
    push_many_keys(text)?;
    push_caption(text, s)
}

#[tactic(auto, unfolding(crate::specs::Picture::body_text))]
fn push_body(
    text: &mut String,
    s: Strip,
    functions: &[Function],
    layouts: &[Layout],
) -> Result<(), NoMemory>
    ensures { OnOk result (string_bytes text.new ≡ string_bytes text.old ++ body_text s functions.now layouts.now) }
{
    push_lines(text, s, functions, layouts)?;
    push_ground(text, s)?;
    push_functions(text, s, functions)?;
    push_strips(text, functions, layouts)
}

#[tactic(auto, unfolding(crate::specs::Picture::picture_text))]
fn push_picture(text: &mut String, s: Strip, drawing: &Drawing) -> Result<(), NoMemory>
    ensures { OnOk result (string_bytes text.new ≡ string_bytes text.old ++ picture_text s drawing.now) }
{
    let (functions, layouts) = (drawing.functions.as_slice(), drawing.layouts.as_slice());
    push_frame(text, layouts.len(), s)?;
    push_body(text, s, functions, layouts)?;
    text.push_str("</svg>\n")?;
    Ok(())
}

#[tactic(auto, unfolding(crate::specs::Picture::svg))]
fn text_of(alloc: Global, drawing: &Drawing) -> Result<String, NoMemory>
    ensures { IfOk result (λ text. string_bytes text ≡ svg drawing.now) }
{
    let mut text = String::new(alloc);
    let s = text_strip(drawing.functions.as_slice());
    push_picture(&mut text, s, drawing)?;
    Ok(text)
}

/// The picture as SVG. Above is the text, each block in the colour of how often it ran; below it each layout, with a line from
/// where a block was to where it lies.
pub fn draw(alloc: Global, drawing: &Drawing) -> Result<Items<u8>, NoMemory>
    ensures { IfOk result (λ bytes. bytes ≡ svg drawing.now) }
{
    let text = text_of(alloc, drawing)?;
    Ok(Items::from_vec(text.into_bytes()))
}
