//! Addresses that words make.

ghost use Rattle.std.specs.Prelude.{◌≡◌, ◌<◌, ◌^◌};
ghost use Rattle.image.specs.Targets.{target, made_by};

/// Where a jump by `off` bytes from `at` goes: the sum, which wraps at 2^64.
#[tactic(auto, unfolding(crate::specs::Targets::target))]
pub fn target(at: u64, off: i32) -> u64
    ensures { result ≡ target at off }
{
    let off = off as i64;
    if off < 0 {
        at.wrapping_sub((-off) as u64)
    } else {
        at.wrapping_add(off as u64)
    }
}

/// What an AUIPC at `at` makes of its upper 20 bits.
#[tactic(auto, unfolding(crate::specs::Targets::made_by))]
pub fn made_by(at: u64, high: u64) -> u64
    requires { high < 2 ^ 20 }
    ensures { result ≡ made_by at high }
{
    if high < 1 << 19 {
        at.wrapping_add(4096 * high)
    } else {
        at.wrapping_sub((1 << 32) - 4096 * high)
    }
}
