//! Functions by their addresses.

ghost use Rattle.std.specs.Prelude.{◌≡◌, ◌<◌, ◌^◌, length, AllPairs, position, IfSome};
ghost use Rattle.image.specs.Aims.{func_start, func_from, is_inside};

use crate::ranges::Func;
use finite::search::place_of;

/// The number of the function that starts at an address.
#[tactic(auto, unfolding(crate::specs::Aims::func_from))]
pub fn func_from(funcs: &[Func], at: u64) -> Option<u32>
    requires rise { AllPairs (λ f g. f.from < g.from) funcs.now }
    requires few { length funcs.now < 2 ^ 32 }
    ensures { result ≡ func_from funcs.now at }
{
    let i = place_of(funcs, at)?;
    Some(i as u32)
}

fn place_inside(funcs: &[Func], at: u64) -> Option<usize>
    ensures first { result ≡ position (is_inside at) funcs.now }
    ensures within { IfSome result (λ i. i < length funcs.now) }
{
    funcs.iter().position(|f| f.from <= at && at < f.to)
}

/// The number of the least function that covers an address.
pub fn func_at(funcs: &[Func], at: u64) -> Option<u32>
    requires { length funcs.now < 2 ^ 32 }
    ensures { result ≡ position (is_inside at) funcs.now }
{
    let i = place_inside(funcs, at)?;
    Some(i as u32)
}
