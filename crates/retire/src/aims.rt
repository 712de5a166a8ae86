//! Where calls go.

ghost use Rattle.std.specs.Prelude.{◌≡◌, IfOk};
ghost use Rattle.rv_isa.specs.Decoded.{decoded};
ghost use Rattle.retire.specs.References.{jump_of, aim_of, aims_of};

use image::ranges::Aim;
use image::targets::target;
use layout::layout::Layout;
use oc_base::fault::NoMemory;
use rv_decode::decode;
use rv_isa::instr::Instr;
use std::alloc::Global;

/// Where a word at an address goes, if it is a JAL.
pub fn jump_of(at: u64, word: u32) -> Option<u64>
    ensures { result ≡ jump_of at (decoded word) }
{
    match &decode(word) {
        Some(Instr::Jal { off, .. }) => Some(target(at, off.get())),
        _ => None,
    }
}

/// Where a call of a layout goes now, if it is a JAL.
#[tactic(auto, unfolding(layout::specs::Points::read))]
fn aim_of(layout: &Layout, call: &Aim) -> Option<u64>
    ensures { result ≡ aim_of layout.now call.now }
{
    let word = layout.word_at(call.at)?;
    jump_of(call.at, word)
}

/// Where the sites and pairs of a layout go.
pub fn aims_of(alloc: Global, layout: &Layout) -> Result<Vec<u64>, NoMemory>
    ensures { IfOk result (λ v. v.items ≡ aims_of layout.now) }
{
    Ok(
        layout
            .sites()
            .iter()
            .chain(layout.pairs())
            .filter_map(|call| aim_of(layout, call))
            .collect(alloc)?,
    )
}
