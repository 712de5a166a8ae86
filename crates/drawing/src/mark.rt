//! Addresses, names, colours and rectangles as they are drawn.

ghost use Rattle.std.specs.Prelude.{◌≡◌, ◌<◌, ◌/◌, ◌%◌, false, [], ◌∷◌, ◌++◌, codes, string_bytes, flat_map, OnOk};
ghost use Rattle.std.specs.Fmt.{digits};
ghost use Rattle.drawing.specs.Marks.{address, range_text, two_digits, is_markup, is_plain, byte_text, name_text, colour_of, along, wide, worded, numbered, point_text, size_text, rect_text, mark_text, ground_text};

use crate::strip::{Strip, along, wide};
use oc_base::fault::NoMemory;
use std::fmt::Write;

fn push_address(text: &mut String, at: u64) -> Result<(), NoMemory>
    ensures { OnOk result (string_bytes text.new ≡ string_bytes text.old ++ address at) }
{
    text.push_str("0x")?;
    write!(text, "{at:x}")?;
    Ok(())
}

#[tactic(auto, unfolding(crate::specs::Marks::range_text))]
pub(crate) fn push_range(text: &mut String, from: u64, to: u64) -> Result<(), NoMemory>
    ensures { OnOk result (string_bytes text.new ≡ string_bytes text.old ++ range_text from to) }
{
    push_address(text, from)?;
    text.push_str("..")?;
    push_address(text, to)
}

fn is_markup(b: u8) -> bool
    ensures { result ≡ is_markup b }
{
    b == 34 || (b == 38 || (b == 39 || (b == 60 || b == 62)))
}

fn is_plain(b: u8) -> bool
    ensures { result ≡ is_plain b }
{
    33 <= b && (b <= 126 && !(b == 92))
}

#[tactic(auto, using(std::proofs::lemmas::Str::encode_ascii))]
fn push_plain(text: &mut String, b: u8) -> Result<(), NoMemory>
    requires { b < 128 }
    ensures { OnOk result (string_bytes text.new ≡ string_bytes text.old ++ b ∷ []) }
{
    text.push(b as char)?;
    Ok(())
}

fn push_digits(text: &mut String, b: u8) -> Result<(), NoMemory>
    ensures { OnOk result (string_bytes text.new ≡ string_bytes text.old ++ two_digits b) }
{
    let (high, low) = (b / 16, b % 16);
    write!(text, "{high:x}{low:x}")?;
    Ok(())
}

fn push_reference(text: &mut String, b: u8) -> Result<(), NoMemory>
    ensures { OnOk result (string_bytes text.new ≡ string_bytes text.old ++ (codes "&#x" ++ two_digits b ++ codes ";")) }
{
    text.push_str("&#x")?;
    push_digits(text, b)?;
    text.push_str(";")?;
    Ok(())
}

fn push_escaped(text: &mut String, b: u8) -> Result<(), NoMemory>
    ensures { OnOk result (string_bytes text.new ≡ string_bytes text.old ++ (codes "\\x" ++ two_digits b)) }
{
    text.push_str("\\x")?;
    push_digits(text, b)
}

fn push_byte(text: &mut String, b: u8) -> Result<(), NoMemory>
    ensures { OnOk result (string_bytes text.new ≡ string_bytes text.old ++ byte_text b) }
{
    if is_markup(b) {
        return push_reference(text, b);
    }
    if is_plain(b) {
        return push_plain(text, b);
    }
    push_escaped(text, b)
}

#[tactic(auto, unfolding(crate::specs::Marks::name_text))]
pub(crate) fn push_name(text: &mut String, name: &[u8]) -> Result<(), NoMemory>
    ensures { OnOk result (string_bytes text.new ≡ string_bytes text.old ++ name_text name.now) }
{
    for b in name {
        push_byte(text, *b)?;
    }
    Ok(())
}

/// The colour of a block that ran so often.
#[tactic(auto, unfolding(crate::specs::Marks::colour_of))]
pub(crate) fn colour_of(count: u64) -> &'static str
    ensures { result.now ≡ colour_of count }
{
    if count == 0 {
        "#bdbdbd"
    } else if count < 10 {
        "#fde725"
    } else if count < 100 {
        "#90d743"
    } else if count < 1000 {
        "#35b779"
    } else if count < 10_000 {
        "#21918c"
    } else if count < 100_000 {
        "#31688e"
    } else if count < 1_000_000 {
        "#443983"
    } else {
        "#440154"
    }
}

/// Adds an attribute with words.
#[tactic(auto, unfolding(crate::specs::Marks::worded))]
pub(crate) fn push_worded(text: &mut String, name: &str, words: &str) -> Result<(), NoMemory>
    ensures { OnOk result (string_bytes text.new ≡ string_bytes text.old ++ worded name.now words.now) }
{
    write!(text, " {name}='{words}'")?;
    Ok(())
}

/// Adds an attribute with a number.
#[tactic(auto, unfolding(crate::specs::Marks::numbered, crate::specs::Marks::worded))]
pub(crate) fn push_numbered(text: &mut String, name: &str, value: u128) -> Result<(), NoMemory>
    ensures { OnOk result (string_bytes text.new ≡ string_bytes text.old ++ numbered name.now value) }
{
    write!(text, " {name}='{value}'")?;
    Ok(())
}

#[tactic(auto, unfolding(crate::specs::Marks::point_text))]
pub(crate) fn push_point(text: &mut String, x: u64, y: u128) -> Result<(), NoMemory>
    ensures { OnOk result (string_bytes text.new ≡ string_bytes text.old ++ point_text x y) }
{
    push_numbered(text, "x", x as u128)?;
    push_numbered(text, "y", y)
}

#[tactic(auto, unfolding(crate::specs::Marks::size_text))]
pub(crate) fn push_size(text: &mut String, width: u64, height: u128) -> Result<(), NoMemory>
    ensures { OnOk result (string_bytes text.new ≡ string_bytes text.old ++ size_text width height) }
{
    push_numbered(text, "width", width as u128)?;
    push_numbered(text, "height", height)
}

/// Adds a rectangle up to the end of its tag.
#[tactic(auto, unfolding(crate::specs::Marks::rect_text))]
pub(crate) fn push_rect(
    text: &mut String,
    x: u64,
    y: u128,
    width: u64,
    height: u64,
    colour: &str,
) -> Result<(), NoMemory>
    ensures { OnOk result (string_bytes text.new ≡ string_bytes text.old ++ rect_text x y width height colour.now) }
{
    text.push_str("<rect")?;
    push_point(text, x, y)?;
    push_size(text, width, height as u128)?;
    push_worded(text, "fill", colour)
}

/// Adds the rectangle of a range of addresses on a strip, up to the end of its tag.
#[tactic(auto, unfolding(crate::specs::Marks::mark_text))]
pub(crate) fn push_mark(
    text: &mut String,
    s: Strip,
    from: u64,
    to: u64,
    colour: &str,
) -> Result<(), NoMemory>
    ensures { OnOk result (string_bytes text.new ≡ string_bytes text.old ++ mark_text s from to colour.now) }
{
    push_rect(text, along(s, from), s.top, wide(s, from, to), 40, colour)
}

/// Adds the whole of a strip.
#[tactic(auto, unfolding(crate::specs::Marks::ground_text))]
pub(crate) fn push_ground(text: &mut String, s: Strip) -> Result<(), NoMemory>
    ensures { OnOk result (string_bytes text.new ≡ string_bytes text.old ++ ground_text s) }
{
    push_rect(text, 20, s.top, 1200, 40, "#eeeeee")?;
    text.push_str("/>\n")?;
    Ok(())
}
