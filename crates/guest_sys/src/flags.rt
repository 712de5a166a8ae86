//! Bits of flags.
ghost use Rattle.std.specs.Prelude.{◌≡◌};
ghost use Rattle.guest_sys.specs.Calls.{has, asked_for};

/// Whether flags have a bit, or one of some bits.
pub(crate) fn has(flags: u64, bits: u64) -> bool
    ensures { result ≡ has flags bits }
{
    flags & bits != 0
}

/// An argument that a bit of the flags asks for.
pub(crate) fn asked_for(flags: u64, bit: u64, argument: u64) -> Option<u64>
    ensures { result ≡ asked_for flags bit argument }
{
    if has(flags, bit) {
        Some(argument)
    } else {
        None
    }
}
