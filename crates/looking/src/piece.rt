//! Addresses, ranges and names as they are shown.

ghost use Rattle.std.specs.Prelude.{◌≡◌, ◌<◌, ◌/◌, ◌%◌, false, [], ◌∷◌, ◌++◌, codes, string_bytes, flat_map, OnOk};
ghost use Rattle.std.specs.Fmt.{digits};
ghost use Rattle.looking.specs.Pieces.{address, range_text, is_plain, byte_text, name_text};

use oc_base::fault::NoMemory;
use std::fmt::Write;

/// Adds an address.
pub fn push_address(text: &mut String, at: u64) -> Result<(), NoMemory>
    ensures { OnOk result (string_bytes text.new ≡ string_bytes text.old ++ address at) }
{
    text.push_str("0x")?;
    write!(text, "{at:x}")?;
    Ok(())
}

/// Adds the addresses from one up to, but not with, another.
pub fn push_range(text: &mut String, from: u64, to: u64) -> Result<(), NoMemory>
    ensures { OnOk result (string_bytes text.new ≡ string_bytes text.old ++ range_text from to) }
{
    push_address(text, from)?;
    text.push_str("..")?;
    push_address(text, to)
}

fn is_plain(b: u8) -> bool
    ensures { result ≡ is_plain b }
{
    33 <= b && (b <= 126 && !(b == 92))
}

#[tactic(auto, using(std::proofs::lemmas::Str::encode_ascii))]
fn push_plain(text: &mut String, b: u8) -> Result<(), NoMemory>
    requires { b < 128 }
    ensures { OnOk result (string_bytes text.new ≡ string_bytes text.old ++ b ∷ []) }
{
    text.push(b as char)?;
    Ok(())
}

fn push_escaped(text: &mut String, b: u8) -> Result<(), NoMemory>
    ensures { OnOk result (string_bytes text.new ≡ string_bytes text.old ++ (codes "\\x" ++ digits 16 false (b / 16) ++ digits 16 false (b % 16))) }
{
    let (high, low) = (b / 16, b % 16);
    text.push_str("\\x")?;
    write!(text, "{high:x}{low:x}")?;
    Ok(())
}

fn push_byte(text: &mut String, b: u8) -> Result<(), NoMemory>
    ensures { OnOk result (string_bytes text.new ≡ string_bytes text.old ++ byte_text b) }
{
    if is_plain(b) {
        return push_plain(text, b);
    }
    push_escaped(text, b)
}

/// Adds a name.
pub fn push_name(text: &mut String, name: &[u8]) -> Result<(), NoMemory>
    ensures { OnOk result (string_bytes text.new ≡ string_bytes text.old ++ name_text name.now) }
{
    for b in name {
        push_byte(text, *b)?;
    }
    Ok(())
}
