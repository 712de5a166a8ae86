//! Division with the results that the manual gives division by zero and overflow.
ghost use Rattle.std.specs.Prelude.{◌≡◌, ◌<◌, int_div};
ghost use Rattle.rv_isa.specs.Word.{signed};
ghost use Rattle.rv_alu.specs.Arithmetic.{reduced, div_of, rem_of, divu_of, remu_of};

use crate::words::{signed, signed_w, unsigned, unsigned_w};

/// The signed quotient of 64 bits.
pub fn div(a: u64, b: u64) -> u64
    ensures { result ≡ div_of 64 a b }
{
    if b == 0 { u64::MAX } else { quotient(a, b) }
}

/// The signed remainder of 64 bits.
pub fn rem(a: u64, b: u64) -> u64
    ensures { result ≡ rem_of 64 a b }
{
    if b == 0 {
        a
    } else {
        unsigned(signed(a).wrapping_rem(signed(b)))
    }
}

/// The unsigned quotient of 64 bits.
pub fn divu(a: u64, b: u64) -> u64
    ensures { result ≡ divu_of 64 a b }
{
    a.checked_div(b).unwrap_or(u64::MAX)
}

/// The unsigned remainder of 64 bits.
pub fn remu(a: u64, b: u64) -> u64
    ensures { result ≡ remu_of 64 a b }
{
    a.checked_rem(b).unwrap_or(a)
}

/// The signed quotient of 32 bits.
pub fn divw(a: u32, b: u32) -> u32
    ensures { result ≡ div_of 32 a b }
{
    if b == 0 { u32::MAX } else { quotient_w(a, b) }
}

/// The signed remainder of 32 bits.
pub fn remw(a: u32, b: u32) -> u32
    ensures { result ≡ rem_of 32 a b }
{
    if b == 0 {
        a
    } else {
        unsigned_w(signed_w(a).wrapping_rem(signed_w(b)))
    }
}

/// The unsigned quotient of 32 bits.
pub fn divuw(a: u32, b: u32) -> u32
    ensures { result ≡ divu_of 32 a b }
{
    a.checked_div(b).unwrap_or(u32::MAX)
}

/// The unsigned remainder of 32 bits.
pub fn remuw(a: u32, b: u32) -> u32
    ensures { result ≡ remu_of 32 a b }
{
    a.checked_rem(b).unwrap_or(a)
}

fn quotient(a: u64, b: u64) -> u64
    requires { 0 < b }
    ensures { result ≡ reduced 64 (int_div (signed 64 a) (signed 64 b)) }
{
    unsigned(signed(a).wrapping_div(signed(b)))
}

fn quotient_w(a: u32, b: u32) -> u32
    requires { 0 < b }
    ensures { result ≡ reduced 32 (int_div (signed 32 a) (signed 32 b)) }
{
    unsigned_w(signed_w(a).wrapping_div(signed_w(b)))
}
