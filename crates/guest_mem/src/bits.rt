//! Rows of bits, 64 in a number.
ghost use Rattle.std.specs.Prelude.{◌≡◌, ℕ, ◌+◌, ◌*◌, ◌-◌, ◌%◌, ◌<◌, ◌≤◌, false, cond, nat_eq, length};
ghost use Rattle.finite.specs.Maps.{within};
ghost use Rattle.guest_mem.specs.Bits.{bit_in, all_bits_in};

/// The bit `i`.
#[inline]
pub fn bit(bits: &[u64], i: usize) -> bool
    requires { i < 64 * length bits.now }
    ensures { result ≡ bit_in bits.now i }
{
    (bits[i / 64] >> (i % 64)) & 1 == 1
}

/// Whether the `n` bits from `i` on, which lie in one byte, are all set.
#[inline]
pub fn all_set(bits: &[u64], i: usize, n: usize) -> bool
    requires place { i < 64 * length bits.now }
    requires byte { i % 8 + n ≤ 8 }
    ensures { result ≡ all_bits_in bits.now i n }
{
    let mask = (1u64 << n) - 1;
    (bits[i / 64] >> (i % 64)) & mask == mask
}

/// Sets or clears the bit `i`.
#[inline]
pub fn set_bit(bits: &mut [u64], i: usize, on: bool)
    requires { i < 64 * length bits.old }
    ensures bits { (j : ℕ) → bit_in bits.new j ≡ cond (nat_eq j i) on (bit_in bits.old j) }
    ensures length { length bits.new ≡ length bits.old }
{
    let mask = 1u64 << (i % 64);
    if on {
        bits[i / 64] |= mask;
    } else {
        bits[i / 64] &= !mask;
    }
}

/// Sets or clears the bits from `lo` up to `hi`.
pub fn set_bits(bits: &mut [u64], lo: usize, hi: usize, on: bool)
    requires order { lo ≤ hi }
    requires end { hi ≤ 64 * length bits.old }
    ensures { (j : ℕ) → bit_in bits.new j ≡ cond (within lo (hi - lo) j) on (bit_in bits.old j) }
{
    for i in lo..hi {
        set_bit(bits, i, on);
    }
}

/// No bits for the words of a page.
pub fn no_bits() -> [u64; 8]
    ensures { (k : ℕ) → bit_in result k ≡ false }
{
    [0; 8]
}

/// The same bit for each byte of a page.
pub fn same_bits(on: bool) -> [u64; 64]
    ensures { (j : ℕ) → j < 4096 → bit_in result j ≡ on }
{
    [if on { u64::MAX } else { 0 }; 64]
}
