//! Patches worked out.

ghost use Rattle.std.specs.Prelude.{◌≡◌, All, IfOk, IfErr};
ghost use Rattle.std.specs.Option.{option_copied};
ghost use Rattle.layout.specs.Alone.{NamesCalls};
ghost use Rattle.patcher.specs.Goals.{goal_of};
ghost use Rattle.patcher.specs.Patched.{ArePatchesOf, EachPatches, ArePatches};
ghost use Rattle.patcher.specs.Reach.{TextOut, LivesOut, IsNone, AllReach, ExplainsOut, Explains};

use crate::aims::Aims;
use crate::calls::text_calls;
use crate::fault::ReachFault;
use crate::patches::{Patch, Patches};
use crate::tally::{count, count_lives};
use image::picture::Image;
use layout::layout::Layout;
use oc_base::items::Items;
use std::alloc::Global;

/// The patches of text, or the first of its calls that is out of reach.
fn text_patches(alloc: Global, aims: &Aims) -> Result<Vec<Patch>, ReachFault>
    ensures is { IfOk result (λ v. ArePatchesOf (goal_of aims.now.image.now (option_copied aims.now.new)) v.items) }
    ensures reach { IfOk result (λ _. IsNone (TextOut aims.now.image.now (option_copied aims.now.new))) }
    ensures fault { IfErr result (ExplainsOut (TextOut aims.now.image.now (option_copied aims.now.new))) }
{
    let Ok(calls) = text_calls(alloc, aims) else {
        return Err(ReachFault::NoMemory);
    };
    let Ok(text) = count(alloc, &calls) else {
        return Err(ReachFault::NoMemory);
    };
    match text.out {
        Some(out) => Err(ReachFault::BranchReach {
            at: out.at,
            target: out.target,
        }),
        None => Ok(text.patches),
    }
}

/// The patches of each live layout, or the first of their calls that is out of reach.
fn lives_patches(
    alloc: Global,
    aims: &Aims,
    lives: &[Layout],
) -> Result<Vec<Items<Patch>>, ReachFault>
    requires { All (NamesCalls aims.now.image.now) lives.now }
    ensures is { IfOk result (λ v. EachPatches aims.now.image.now (option_copied aims.now.new) lives.now v.items) }
    ensures reach { IfOk result (λ _. IsNone (LivesOut aims.now.image.now (option_copied aims.now.new) lives.now)) }
    ensures fault { IfErr result (ExplainsOut (LivesOut aims.now.image.now (option_copied aims.now.new) lives.now)) }
{
    let Ok(all) = count_lives(alloc, aims, lives) else {
        return Err(ReachFault::NoMemory);
    };
    match all.out {
        Some(out) => Err(ReachFault::BranchReach {
            at: out.at,
            target: out.target,
        }),
        None => Ok(all.lists),
    }
}

/// The words that the calls of text and of the live layouts become when a new layout is placed, or, with none, when all calls are
/// sent to original code. It answers the first call that would be out of reach: those of text ascending, and then those of all
/// live layouts ascending.
pub fn work_out(
    alloc: Global,
    image: &Image,
    lives: &[Layout],
    new: Option<&Layout>,
) -> Result<Patches, ReachFault>
    requires { All (NamesCalls image.now) lives.now }
    ensures is { IfOk result (ArePatches image.now (option_copied new.entry) lives.now) }
    ensures reach { IfOk result (λ _. AllReach image.now (option_copied new.entry) lives.now) }
    ensures fault { IfErr result (Explains image.now (option_copied new.entry) lives.now) }
{
    let Ok(aims) = Aims::of(alloc, image, new) else {
        return Err(ReachFault::NoMemory);
    };
    let text = match text_patches(alloc, &aims) {
        Ok(text) => text,
        Err(e) => return Err(e),
    };
    let lives = match lives_patches(alloc, &aims, lives) {
        Ok(lives) => lives,
        Err(e) => return Err(e),
    };
    Ok(Patches {
        text: Items::from_vec(text),
        lives: Items::from_vec(lives),
    })
}
