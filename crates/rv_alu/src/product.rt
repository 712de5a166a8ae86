//! The upper halves of products.
ghost use Rattle.std.specs.Prelude.{◌≡◌, ◌*◌, ◌/◌, ◌^◌, pos, ◌*ℤ◌};
ghost use Rattle.std.specs.Int.{int_shr};
ghost use Rattle.rv_isa.specs.Word.{signed};
ghost use Rattle.rv_alu.specs.Arithmetic.{reduced};

use crate::words::{signed, unsigned};

/// Of two signed numbers.
pub fn mulh(a: u64, b: u64) -> u64
    ensures { result ≡ reduced 64 (int_shr (signed 64 a *ℤ signed 64 b) 64) }
{
    high(i128::from(signed(a)) * i128::from(signed(b)))
}

/// Of a signed number and an unsigned one.
pub fn mulhsu(a: u64, b: u64) -> u64
    ensures { result ≡ reduced 64 (int_shr (signed 64 a *ℤ pos b) 64) }
{
    high(i128::from(signed(a)) * i128::from(b))
}

/// Of two unsigned numbers.
pub fn mulhu(a: u64, b: u64) -> u64
    ensures { result ≡ a * b / 2 ^ 64 }
{
    ((u128::from(a) * u128::from(b)) >> 64) as u64
}

/// The upper half of a signed product.
fn high(product: i128) -> u64
    ensures { result ≡ reduced 64 (int_shr product 64) }
{
    unsigned((product >> 64) as i64)
}
