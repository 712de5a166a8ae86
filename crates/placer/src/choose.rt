//! The functions that a profile moves.

ghost use Rattle.std.specs.Prelude.{◌≡◌, ◌<◌, length, IfOk};
ghost use Rattle.std.specs.List.{list_any};
ghost use Rattle.image.specs.Aims.{is_inside};
ghost use Rattle.placer.specs.Chosen.{chosen, is_chosen};

use crate::blocks_of::blocks_of;
use crate::rows::rows_below;
use blocks::index::FuncIndex;
use branch_ring::profile::Profile;
use image::ranges::Func;
use oc_base::fault::NoMemory;
use std::alloc::Global;

/// Whether some pair comes from a function.
fn has_source(profile: &Profile, f: &Func) -> bool
    ensures { result ≡ list_any (λ c. is_inside c.from f.now) profile.now }
{
    profile.kept();
    let rows = profile.counts();
    let i = rows_below(rows, f.from);
    if i >= rows.len() {
        return false;
    }
    rows[i].0 < f.to
}

fn is_chosen(alloc: Global, index: &FuncIndex, profile: &Profile, f: u32) -> Result<bool, NoMemory>
    requires { f < length index.now.image.now.funcs }
    ensures { IfOk result (λ b. b ≡ is_chosen index.now.image.now profile.now f) }
{
    let func = &index.image.funcs()[f as usize];
    if !has_source(profile, func) {
        return Ok(false);
    }
    let blocks = blocks_of(alloc, index, f)?;
    Ok(blocks.is_some())
}

/// The functions that can be cut into blocks and from which some pair comes.
pub fn chosen(alloc: Global, index: &FuncIndex, profile: &Profile) -> Result<Vec<u32>, NoMemory>
    ensures { IfOk result (λ funcs. funcs.items ≡ chosen index.now.image.now profile.now) }
{
    index.image.kept();
    let mut funcs = Vec::new(alloc);
    for f in 0..index.image.funcs().len() as u32 {
        if is_chosen(alloc, index, profile, f)? {
            funcs.push(f)?;
        }
    }
    Ok(funcs)
}
