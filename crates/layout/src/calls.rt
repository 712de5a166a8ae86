//! The calls of an image, by their addresses.

ghost use Rattle.std.specs.Prelude.{◌≡◌, ◌<◌, ◌+◌, ◌==◌, ◌-◌, AllPairs, find};
ghost use Rattle.std.specs.Option.{option_map, option_and_then};
ghost use Rattle.image.specs.Aims.{aim_place, func_start};
ghost use Rattle.layout.specs.Points.{aim_func, site_of, second_of, start_of};

use finite::search::place_of;
use image::picture::Image;
use image::ranges::Aim;

/// The function of the call at an address.
#[tactic(auto, using(finite::proofs::Finding::found_at, finite::proofs::Finding::find_nowhere))]
fn call_at(calls: &[Aim], at: u64) -> Option<u32>
    requires { AllPairs (λ s t. s.at < t.at) calls.now }
    ensures { result ≡ option_map aim_func (find (λ s. aim_place s == at) calls.now) }
{
    let i = place_of(calls, at)?;
    Some(calls[i].func)
}

/// The number of the function that the site at an address calls.
#[tactic(auto, unfolding(crate::specs::Points::site_of))]
pub fn site_of(image: &Image, at: u64) -> Option<u32>
    ensures { result ≡ site_of image.now at }
{
    image.kept();
    call_at(image.sites(), at)
}

/// By the address of a pair's second word, the number of the function that the pair calls.
#[tactic(auto, unfolding(crate::specs::Points::second_of), using(crate::proofs::CallLookups::four_past, crate::proofs::CallLookups::none_below))]
pub fn second_of(image: &Image, at: u64) -> Option<u32>
    ensures { result ≡ second_of image.now at }
{
    if at < 4 {
        return None;
    }
    image.kept();
    call_at(image.pairs(), at - 4)
}

/// Where the function of a number starts.
#[tactic(auto, unfolding(crate::specs::Points::start_of))]
pub fn start_of(image: &Image, func: u32) -> Option<u64>
    ensures { result ≡ start_of image.now func }
{
    image.funcs().get(func as usize).map(|f| f.from)
}
