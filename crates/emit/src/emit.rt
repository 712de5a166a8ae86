//! The layout of a plan.

ghost use Rattle.std.specs.Prelude.{◌≡◌, ◌≢◌, ◌+◌, ◌*◌, ◌%◌, ◌≤◌, ◌<◌, [], None, IfOk, IfErr, OnOk, length};
ghost use Rattle.plans.specs.Given.{plan_fault};
ghost use Rattle.layout.specs.Alone.{alone, InRegion, RendersAlone};
ghost use Rattle.layout.specs.Rows.{CallsAim};
ghost use Rattle.emit.specs.Entries.{entries_of};
ghost use Rattle.emit.specs.Emitted.{IsEmitted, plan_unreadable, Explains, ExplainsSize, Fits};

use crate::draft::Draft;
use crate::fault::EmitFault;
use image::picture::Image;
use layout::layout::Layout;
use plans::plan::Plan;
use std::alloc::Global;

/// How many bytes the layout of a plan has, wherever it stands.
pub fn size_of(alloc: Global, image: &Image, plan: &Plan) -> Result<u64, EmitFault>
    requires { plan_fault image.now plan.now ≡ None }
    ensures is { IfOk result (λ n. n ≡ 4 * length (entries_of image.now plan.now)) }
    ensures none { OnOk result (plan_unreadable image.now plan.now ≡ None) }
    ensures fault { IfErr result (ExplainsSize image.now plan.now) }
{
    match Draft::of(alloc, image, plan) {
        Ok(draft) => Ok(draft.size()),
        Err(e) => Err(e),
    }
}

/// The layout of a plan at a base: the functions in the plan's order, the blocks of each in its order. It answers the first of the
/// functions that can't be cut into blocks, and else the first word that is out of reach from there.
///
/// What it answers renders the image, if it lies in the image's region, and each of its calls goes to its function, or is the original
/// word. A plan that moves a function has words.
pub fn emit(alloc: Global, image: &Image, plan: &Plan, base: u64) -> Result<Layout, EmitFault>
    requires plan { plan_fault image.now plan.now ≡ None }
    requires whole { base % 4 ≡ 0 }
    requires fits { Fits image.now plan.now base }
    ensures is { IfOk result (IsEmitted image.now plan.now base) }
    ensures none { OnOk result (plan_unreadable image.now plan.now ≡ None) }
    ensures fault { IfErr result (Explains image.now plan.now base) }
    ensures renders { IfOk result (λ l. InRegion image.now base (length l.words) → RendersAlone image.now l) }
    ensures aims { IfOk result (λ l. InRegion image.now base (length l.words) → CallsAim (alone image.now l)) }
    ensures some { IfOk result (λ l. plan.now ≢ [] → 0 < length l.words) }
{
    match Draft::of(alloc, image, plan) {
        Ok(draft) => draft.place(alloc, base),
        Err(e) => Err(e),
    }
}
