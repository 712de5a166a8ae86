//! Numbers of 64 bits from immediates.
ghost use Rattle.std.specs.Prelude.{◌≡◌};
ghost use Rattle.hart.specs.Harts.{moved_by, upper, even, block_of};

use rv_alu::words::{extended, unsigned};
use rv_isa::fields::Imm20;

/// An address that is `z` bytes further.
pub fn moved_by(a: u64, z: i32) -> u64
    ensures { result ≡ moved_by a z }
{
    a.wrapping_add(unsigned(i64::from(z)))
}

/// What LUI gives for an immediate.
pub fn upper(imm: Imm20) -> u64
    ensures { result ≡ upper imm }
{
    extended(imm.get() as u32 * 4096)
}

/// A number with its lowest bit cleared.
pub fn even(a: u64) -> u64
    ensures { result ≡ even a }
{
    a - a % 2
}

/// The address of the aligned 8 bytes that hold a byte.
pub fn block_of(at: u64) -> u64
    ensures { result ≡ block_of at }
{
    8 * (at / 8)
}
