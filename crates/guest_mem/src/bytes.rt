//! Words as bytes and as numbers.
ghost use Rattle.std.specs.Prelude.{◌≡◌, ◌+◌, ◌≤◌, ◌<◌, ◌*◌, ◌^◌, length, take, drop};
ghost use Rattle.guest_mem.specs.Memory.{number_of, bytes_of};
ghost use Rattle.guest_mem.specs.Access.{size_of, extended, sign_extended};
ghost use Rattle.guest_mem.specs.Words.{IsSpliced, plain_bytes_of};

use crate::words::Word;
use link_tags::origins::Origins;
use link_tags::value::Tag;
use rv_isa::instr::Width;

/// The number that 8 bytes are.
#[inline]
pub fn number(bytes: [u8; 8]) -> u64
    ensures value { result ≡ number_of bytes }
    ensures back { bytes_of result ≡ bytes }
{
    u64::from_le_bytes(bytes)
}

/// The bytes of a number.
#[inline]
pub fn bytes(number: u64) -> [u8; 8]
    ensures { result ≡ bytes_of number }
{
    number.to_le_bytes()
}

/// The same bytes, of which callers know that they are 8.
pub fn copied(bytes: &[u8; 8]) -> [u8; 8]
    ensures same { result ≡ bytes.now }
    ensures full { length result ≡ 8 }
{
    *bytes
}

/// The number that the `n` bytes from `off` on make.
pub fn number_at(bytes: &[u8; 8], off: usize, n: usize) -> u64
    requires { off + n ≤ 8 }
    ensures value { result ≡ number_of (take n (drop off bytes.now)) }
    ensures bound { result < 256 ^ n }
{
    let mut part = [0; 8];
    for k in 0..n {
        part[k] = bytes[off + k];
    }
    number(part)
}

/// The bytes of `into` with the first `n` of `from` at `off`.
pub fn spliced(into: [u8; 8], off: usize, n: usize, from: &[u8; 8]) -> [u8; 8]
    requires { off + n ≤ 8 }
    ensures { IsSpliced into off n from.now result }
{
    let mut result = into;
    for k in 0..n {
        result[off + k] = from[k];
    }
    result
}

/// A number of fewer than 64 bits by its sign, where `half` is the least negative one.
fn sign_extend(half: u64, number: u64) -> u64
    requires within { number < 2 * half }
    requires positive { 0 < half }
    requires fits { half ≤ 2 ^ 31 }
    ensures { result ≡ sign_extended half number }
{
    if number < half {
        number
    } else {
        number + (u64::MAX - (2 * half - 1))
    }
}

/// What a load makes of the bytes that it moves, as a number.
pub fn extend(width: Width, number: u64) -> u64
    requires { number < 256 ^ size_of width }
    ensures { result ≡ extended width number }
{
    match width {
        Width::B => sign_extend(0x80, number),
        Width::H => sign_extend(0x8000, number),
        Width::W => sign_extend(0x8000_0000, number),
        _ => number,
    }
}

/// The bytes of a word as the program sees them.
pub fn plain_bytes<O: Origins>(word: Word, origins: &O) -> [u8; 8]
    ensures { result ≡ plain_bytes_of (O.origin origins.now) word }
{
    match word.tag {
        Tag::Plain => word.bytes,
        Tag::Link => bytes(origins.origin(number(word.bytes))),
    }
}
