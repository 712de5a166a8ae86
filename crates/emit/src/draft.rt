//! The words of a plan before they have a base.

ghost use Rattle.std.specs.Prelude.{◌≡◌, ◌≢◌, ◌+◌, ◌*◌, ◌%◌, ◌≤◌, ◌<◌, [], None, IfOk, IfErr, OnOk, length};
ghost use Rattle.plans.specs.Given.{plan_fault};
ghost use Rattle.layout.specs.Alone.{alone, InRegion, RendersAlone};
ghost use Rattle.layout.specs.Rows.{CallsAim};
ghost use Rattle.emit.specs.Entries.{entries_of};
ghost use Rattle.emit.specs.Placed.{AreNear, Stops};
ghost use Rattle.emit.specs.Emitted.{IsMadeOf, IsEmitted, plan_unreadable, Explains, ExplainsSize, Fits};

use crate::entry::Entry;
use crate::fault::EmitFault;
use crate::lists::{pairs_in, points_of, sites_in};
use crate::place::placed;
use crate::plan::entries_of;
use image::picture::Image;
use layout::layout::Layout;
use plans::plan::Plan;
use std::alloc::Global;

/// The layout of these words at a base.
fn made_of(alloc: Global, image: &Image, entries: &[Entry], base: u64) -> Result<Layout, EmitFault>
    requires whole { base % 4 ≡ 0 }
    requires fits { base + 4 * length entries.now ≤ 0x08000000 }
    requires near { AreNear entries.now }
    ensures is { IfOk result (IsMadeOf image.now entries.now base) }
    ensures fault { IfErr result (Stops base entries.now) }
{
    let words = match placed(alloc, base, entries) {
        Ok(words) => words,
        Err(e) => return Err(e),
    };
    let Ok(points) = points_of(alloc, entries) else {
        return Err(EmitFault::NoMemory);
    };
    let Ok(sites) = sites_in(alloc, image, base, entries) else {
        return Err(EmitFault::NoMemory);
    };
    let Ok(pairs) = pairs_in(alloc, image, base, entries) else {
        return Err(EmitFault::NoMemory);
    };
    Ok(Layout::of(base, words, points, sites, pairs))
}

/// The words of a plan of an image: their number is known, and they are placed at a base without another walk over the functions.
#[derive(Drop)]
pub struct Draft<'a> {
    pub image: &'a Image,
    pub plan: &'a Plan,
    entries: Vec<Entry>,
    ghost of_image: { plan_fault image.now plan.now ≡ None },
    ghost readable: { plan_unreadable image.now plan.now ≡ None },
    ghost words: { entries.items ≡ entries_of image.now plan.now },
}

impl Draft<'_> {
    /// The words of a plan, or the first of its functions that can't be cut into blocks.
    #[tactic(auto, using(plans::proofs::Planned::planned))]
    pub fn of<'a>(alloc: Global, image: &'a Image, plan: &'a Plan) -> Result<Draft<'a>, EmitFault>
        requires { plan_fault image.now plan.now ≡ None }
        ensures image { IfOk result (λ draft. draft.image.now ≡ image.now) }
        ensures plan { IfOk result (λ draft. draft.plan.now ≡ plan.now) }
        ensures none { OnOk result (plan_unreadable image.now plan.now ≡ None) }
        ensures fault { IfErr result (ExplainsSize image.now plan.now) }
    {
        let entries = match entries_of(alloc, image, plan.parts()) {
            Ok(entries) => entries,
            Err(e) => return Err(e),
        };
        Ok(Draft {
            image,
            plan,
            entries,
        })
    }

    /// How many bytes the layout has, wherever it stands.
    pub fn size(&self) -> u64
        ensures { result ≡ 4 * length (entries_of self.now.image.now self.now.plan.now) }
    {
        let entries: &[Entry] = &self.entries;
        4 * entries.len() as u64
    }

    fn put(&self, alloc: Global, base: u64) -> Result<Layout, EmitFault>
        requires whole { base % 4 ≡ 0 }
        requires fits { Fits self.now.image.now self.now.plan.now base }
        ensures is { IfOk result (IsEmitted self.now.image.now self.now.plan.now base) }
        ensures fault { IfErr result (Explains self.now.image.now self.now.plan.now base) }
    {
        self.image.kept();
        match made_of(alloc, self.image, &self.entries, base) {
            Ok(layout) => Ok(layout),
            Err(e) => Err(e),
        }
    }

    /// The layout at a base, or the first word that is out of reach from there. It renders the image, if it lies in the image's region, and
    /// each of its calls goes to its function, or is the original word. A plan that moves a function has words.
    pub fn place(&self, alloc: Global, base: u64) -> Result<Layout, EmitFault>
        requires whole { base % 4 ≡ 0 }
        requires fits { Fits self.now.image.now self.now.plan.now base }
        ensures is { IfOk result (IsEmitted self.now.image.now self.now.plan.now base) }
        ensures fault { IfErr result (Explains self.now.image.now self.now.plan.now base) }
        ensures renders { IfOk result (λ l. InRegion self.now.image.now base (length l.words) → RendersAlone self.now.image.now l) }
        ensures aims { IfOk result (λ l. InRegion self.now.image.now base (length l.words) → CallsAim (alone self.now.image.now l)) }
        ensures some { IfOk result (λ l. self.now.plan.now ≢ [] → 0 < length l.words) }
    {
        self.image.kept();
        match self.put(alloc, base) {
            Ok(layout) => {
                layout.kept();
                Ok(layout)
            }
            Err(e) => Err(e),
        }
    }
}
