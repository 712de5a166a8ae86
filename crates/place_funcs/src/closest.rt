//! The order of functions.

ghost use Rattle.std.specs.Prelude.{◌≡◌, ◌<◌, All, AllPairs, length, IfOk};
ghost use Rattle.place_funcs.specs.Edges.{count, edge};
ghost use Rattle.place_funcs.specs.Groups.{IsClosest};

use crate::grouped::grouped;
use crate::order::in_order;
use branch_ring::counted::Counted;
use branch_ring::profile::Profile;
use image::picture::Image;
use oc_base::fault::NoMemory;
use std::alloc::Global;

fn lines(alloc: Global, profile: &Profile) -> Result<Vec<Counted>, NoMemory>
    ensures { IfOk result (λ v. v.items ≡ profile.now) }
{
    let mut all = Vec::with_capacity(alloc, profile.len())?;
    for i in 0..profile.len() {
        all.push(profile.at(i))?;
    }
    Ok(all)
}

/// The functions in an order that puts those next to each other between which the profile goes often. They are given by
/// their numbers in the image.
pub fn closest(
    alloc: Global,
    image: &Image,
    funcs: &[u32],
    profile: &Profile,
) -> Result<Vec<u32>, NoMemory>
    requires rise { AllPairs (λ f g. f < g) funcs.now }
    requires there { All (λ f. f < length image.now.funcs) funcs.now }
    ensures { IfOk result (λ v. IsClosest (edge image.now.funcs profile.now) (count image.now.funcs profile.now) funcs.now v.items) }
{
    image.kept();
    profile.kept();
    let lines = lines(alloc, profile)?;
    let groups = grouped(alloc, image.funcs(), &lines, funcs)?;
    in_order(alloc, image.funcs(), &lines, groups)
}
