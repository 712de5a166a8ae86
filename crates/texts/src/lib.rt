//! Texts as lists of bytes: the parts between marks, lines, and numbers in decimal and hexadecimal digits.
#![tactic(auto)]

ghost use Rattle.std.specs.Prelude.{◌≡◌, ◌==◌, ◌≤◌, ◌<◌, ◌^◌, length, true, map, IfOk};
ghost use Rattle.std.specs.List.{list_all, slice_split};
ghost use Rattle.texts.specs.Texts.{lines_of, number_of, value_of, all_digits, is_hex_digit, hex_digit_value, hex_value_of};

use oc_base::fault::NoMemory;
use std::alloc::{AllocError, Global};

/// The parts between the places where the byte stands, one more than there are such places.
pub fn split_at_each(alloc: Global, bytes: &[u8], byte: u8) -> Result<Vec<&[u8]>, AllocError>
    ensures { IfOk result (λ parts. map (λ x. x.now) parts.items ≡ slice_split (λ b. b == byte) bytes.now) }
{
    bytes.split(|b| *b == byte).collect(alloc)
}

/// The lines, without their newlines. The last line may lack its newline; the empty text has no line.
#[tactic(auto, unfolding(crate::specs::Texts::lines_of))]
pub fn lines_of(alloc: Global, bytes: &[u8]) -> Result<Vec<&[u8]>, NoMemory>
    ensures { IfOk result (λ lines. map (λ x. x.now) lines.items ≡ lines_of bytes.now) }
{
    let mut parts = split_at_each(alloc, bytes, b'\n')?;
    let count = parts.len();
    if count > 0 && parts[count - 1].is_empty() {
        parts.truncate(count - 1);
    }
    Ok(parts)
}

/// Whether every byte is a decimal digit.
pub fn all_digits(bytes: &[u8]) -> bool
    ensures { result ≡ all_digits bytes.now }
{
    bytes.iter().all(|b| b'0' <= *b && *b <= b'9')
}

/// Whether every byte is a hexadecimal digit, of either case.
pub fn all_hex_digits(bytes: &[u8]) -> bool
    ensures { result ≡ list_all is_hex_digit bytes.now }
{
    bytes.iter().all(|b| b.is_ascii_hexdigit())
}

/// The number that a hexadecimal digit stands for.
pub fn hex_digit_value(digit: u8) -> u8
    requires { is_hex_digit digit ≡ true }
    ensures value { result ≡ hex_digit_value digit }
    ensures small { result < 16 }
{
    if digit <= b'9' {
        digit - b'0'
    } else if digit <= b'F' {
        digit - b'A' + 10
    } else {
        digit - b'a' + 10
    }
}

/// The number that at most 10 decimal digits write.
pub fn value_of(digits: &[u8]) -> u64
    requires digits { all_digits digits.now ≡ true }
    requires short { length digits.now ≤ 10 }
    ensures value { result ≡ value_of digits.now }
    ensures small { result < 10 ^ 10 }
{
    let mut value = 0;
    for d in digits {
        value = 10 * value + (*d - b'0') as u64;
    }
    value
}

/// The number that at most 8 hexadecimal digits write.
#[tactic(auto, using(crate::proofs::HexDigits::seven_digits, crate::proofs::HexDigits::eight_digits))]
pub fn hex_value_of(digits: &[u8]) -> u64
    requires digits { list_all is_hex_digit digits.now ≡ true }
    requires short { length digits.now ≤ 8 }
    ensures value { result ≡ hex_value_of digits.now }
    ensures small { result < 2 ^ 32 }
{
    let mut value = 0;
    for d in digits {
        value = 16 * value + hex_digit_value(*d) as u64;
    }
    value
}

/// The number that 1 to 10 digits write, if it is below 2^32.
#[tactic(auto, unfolding(crate::specs::Texts::number_of))]
pub fn number_of(bytes: &[u8]) -> Option<u32>
    ensures { result ≡ number_of bytes.now }
{
    if bytes.is_empty() || bytes.len() > 10 || !all_digits(bytes) {
        return None;
    }
    let value = value_of(bytes);
    if value > u32::MAX as u64 {
        return None;
    }
    Some(value as u32)
}

#[cfg(test)]
mod tests {
    use super::*;

    #[test]
    fn lines_end_with_newlines(rt: HostRuntime) -> Result<(), NoMemory> {
        let cases: [(&[u8], &[&[u8]]); 6] = [
            (b"", &[]),
            (b"\n", &[b""]),
            (b"a", &[b"a"]),
            (b"a\n", &[b"a"]),
            (b"a\n\nb", &[b"a", b"", b"b"]),
            (b"a\r\n", &[b"a\r"]),
        ];
        for (text, lines) in cases {
            let found = lines_of(rt.alloc(), text)?;
            assert_eq!(rt; found.as_slice(), lines);
        }
        Ok(())
    }

    #[test]
    fn numbers_are_short_and_below_2_to_the_32(rt: HostRuntime) {
        let cases: [(&[u8], Option<u32>); 9] = [
            (b"", None),
            (b"0", Some(0)),
            (b"007", Some(7)),
            (b"4294967295", Some(4294967295)),
            (b"4294967296", None),
            (b"00000000001", None),
            (b"-1", None),
            (b"1a", None),
            (b"+1", None),
        ];
        for (digits, number) in cases {
            assert_eq!(rt; number_of(digits), number);
        }
    }
}
