//! Registers and 32-bit numbers as signed ones, and back again.
ghost use Rattle.std.specs.Prelude.{◌≡◌, ◌%◌, ◌^◌};
ghost use Rattle.rv_isa.specs.Word.{signed};
ghost use Rattle.rv_alu.specs.Arithmetic.{reduced, low, extended};

/// A register read as two's complement.
pub fn signed(a: u64) -> i64
    ensures { result ≡ signed 64 a }
{
    a.cast_signed()
}

/// The register that reads as `z`.
pub fn unsigned(z: i64) -> u64
    ensures { result ≡ reduced 64 z }
{
    z.cast_unsigned()
}

/// The low 32 bits of a register.
pub fn low(a: u64) -> u32
    ensures { result ≡ low a }
{
    (a & 0xffff_ffff) as u32
}

/// 32 bits read as two's complement.
pub fn signed_w(n: u32) -> i32
    ensures { result ≡ signed 32 n }
{
    n.cast_signed()
}

/// The 32 bits that read as `z`.
pub fn unsigned_w(z: i32) -> u32
    ensures { result ≡ reduced 32 z }
{
    z.cast_unsigned()
}

/// 32 bits extended by their sign to a register.
pub fn extended(n: u32) -> u64
    ensures { result ≡ extended n }
{
    unsigned(i64::from(signed_w(n)))
}
