//! The strip of the text: functions and their blocks.

ghost use Rattle.std.specs.Prelude.{◌≡◌, ◌++◌, string_bytes, flat_map, OnOk};
ghost use Rattle.drawing.specs.Picture.{block_text, title_text, centred, name_at, label_text, group_text, function_text};

use crate::mark::{colour_of, push_mark, push_name, push_point, push_range};
use crate::parts::{Block, Function};
use crate::strip::{Strip, middle, span_of, wide};
use oc_base::fault::NoMemory;
use std::fmt::Write;

#[tactic(auto, unfolding(crate::specs::Picture::block_text))]
fn push_block(text: &mut String, s: Strip, b: Block) -> Result<(), NoMemory>
    ensures { OnOk result (string_bytes text.new ≡ string_bytes text.old ++ block_text s b) }
{
    push_mark(text, s, b.from, b.to, colour_of(b.count))?;
    text.push_str("/>\n")?;
    Ok(())
}

fn push_blocks(text: &mut String, s: Strip, blocks: &[Block]) -> Result<(), NoMemory>
    ensures { OnOk result (string_bytes text.new ≡ string_bytes text.old ++ flat_map (block_text s) blocks.now) }
{
    for b in blocks {
        push_block(text, s, *b)?;
    }
    Ok(())
}

#[tactic(auto, unfolding(crate::specs::Picture::title_text))]
fn push_title(text: &mut String, f: &Function, from: u64, to: u64) -> Result<(), NoMemory>
    ensures { OnOk result (string_bytes text.new ≡ string_bytes text.old ++ title_text f.now from to) }
{
    let number = f.number;
    text.push_str("<g><title>")?;
    push_name(text, f.name.as_slice())?;
    write!(text, ", function {number}, ")?;
    push_range(text, from, to)?;
    text.push_str("</title>\n")?;
    Ok(())
}

#[tactic(auto, unfolding(crate::specs::Picture::centred))]
fn push_centred(text: &mut String) -> Result<(), NoMemory>
    ensures { OnOk result (string_bytes text.new ≡ string_bytes text.old ++ centred) }
{
    text.push_str(" text-anchor='middle'")?;
    Ok(())
}

// A name with its middle there.
#[tactic(auto, unfolding(crate::specs::Picture::name_at))]
fn push_name_at(text: &mut String, x: u64, name: &[u8]) -> Result<(), NoMemory>
    ensures { OnOk result (string_bytes text.new ≡ string_bytes text.old ++ name_at x name.now) }
{
    text.push_str("<text")?;
    push_point(text, x, 100)?;
    push_centred(text)?;
    text.push_str(">")?;
    push_name(text, name)?;
    text.push_str("</text>\n")?;
    Ok(())
}

// The name of a function, where it has room.
#[tactic(auto, unfolding(crate::specs::Picture::label_text))]
fn push_label(text: &mut String, s: Strip, name: &[u8], from: u64, to: u64) -> Result<(), NoMemory>
    ensures { OnOk result (string_bytes text.new ≡ string_bytes text.old ++ label_text s name.now from to) }
{
    let room = wide(s, from, to).saturating_sub(6) / 7;
    if name.len() as u64 <= room {
        return push_name_at(text, middle(s, from, to), name);
    }
    Ok(())
}

// A function, which has these addresses.
#[tactic(auto, unfolding(crate::specs::Picture::group_text))]
fn push_group(text: &mut String, s: Strip, f: &Function, span: Strip) -> Result<(), NoMemory>
    ensures { OnOk result (string_bytes text.new ≡ string_bytes text.old ++ group_text s f.now span) }
{
    push_title(text, f, span.from, span.to)?;
    push_blocks(text, s, f.blocks.as_slice())?;
    push_label(text, s, f.name.as_slice(), span.from, span.to)?;
    text.push_str("</g>\n")?;
    Ok(())
}

#[tactic(auto, unfolding(crate::specs::Picture::function_text))]
fn push_function(text: &mut String, s: Strip, f: &Function) -> Result<(), NoMemory>
    ensures { OnOk result (string_bytes text.new ≡ string_bytes text.old ++ function_text s f.now) }
{
    push_group(text, s, f, span_of(f))
}

/// Adds all functions.
pub(crate) fn push_functions(
    text: &mut String,
    s: Strip,
    functions: &[Function],
) -> Result<(), NoMemory>
    ensures { OnOk result (string_bytes text.new ≡ string_bytes text.old ++ flat_map (function_text s) functions.now) }
{
    for f in functions {
        push_function(text, s, f)?;
    }
    Ok(())
}
