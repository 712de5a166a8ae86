//! The pairs of a profile that go from a function.

ghost use Rattle.std.specs.Prelude.{◌≡◌, ◌<◌, ◌≤◌, length, All, AllPairs};
ghost use Rattle.std.specs.List.{filter, AllWithin};
ghost use Rattle.std.specs.List.Sorted.{IsNonDecreasingBy};
ghost use Rattle.image.specs.Aims.{is_inside};
ghost use Rattle.branch_ring.specs.Profiles.{Precedes};
ghost use Rattle.place_funcs.specs.Rows.{leaving, start_of};

use branch_ring::counted::Counted;
use image::ranges::Func;

/// How many pairs go from below an address.
fn below(profile: &[Counted], at: u64) -> usize
    requires { IsNonDecreasingBy start_of profile.now }
    ensures within { result ≤ length profile.now }
    ensures below { AllWithin (λ c. start_of c < at) profile.now 0 result }
    ensures others { AllWithin (λ c. at ≤ start_of c) profile.now result (length profile.now) }
{
    profile.partition_point(|c| c.from < at)
}

/// The pairs that go from addresses of a range, which stand next to each other.
fn within(profile: &[Counted], func: Func) -> &[Counted]
    requires ascends { AllPairs Precedes profile.now }
    requires ordered { func.from ≤ func.to }
    ensures { result.now ≡ filter (λ c. is_inside c.from func) profile.now }
{
    let first = below(profile, func.from);
    let last = below(profile, func.to);
    let rest = &profile[first..];
    &rest[..last - first]
}

/// The pairs that go from a function.
pub fn leaving<'a>(funcs: &[Func], profile: &'a [Counted], f: u32) -> &'a [Counted]
    requires ascends { AllPairs Precedes profile.now }
    requires ordered { All (λ g. g.from ≤ g.to) funcs.now }
    requires there { f < length funcs.now }
    ensures { result.now ≡ leaving funcs.now profile.now f }
{
    within(profile, funcs[f as usize])
}
