//! The calls of an image and the functions that a plan moves.

ghost use Rattle.std.specs.Prelude.{◌≡◌, ℕ, IfOk, OnOk, ◌||◌, take};
ghost use Rattle.std.specs.Ordering.{nat_cmp};
ghost use Rattle.std.specs.BTreeSet.{contains};
ghost use Rattle.layout.specs.Points.{start_of};
ghost use Rattle.emit.specs.Entries.{moves, is_number, calls_of};

use image::picture::Image;
use layout::calls::{second_of, site_of, start_of};
use oc_base::fault::NoMemory;
use plans::plan::Moved;
use std::alloc::Global;
use std::collections::BTreeSet;

/// The calls of an image, and where the functions start that a plan moves.
#[derive(Drop)]
pub struct CallTable<'a> {
    pub image: &'a Image,
    pub parts: &'a [Moved],
    starts: BTreeSet<u64>,
    ghost moves: { (y : ℕ) → contains nat_cmp starts y ≡ moves image.now parts.now y },
}

fn put(starts: &mut BTreeSet<u64>, start: Option<u64>) -> Result<(), NoMemory>
    ensures { OnOk result ((y : ℕ) → contains nat_cmp starts.new y ≡ (contains nat_cmp starts.old y || is_number y start)) }
{
    match start {
        Some(y) => {
            starts.insert(y)?;
            Ok(())
        }
        None => Ok(()),
    }
}

#[tactic(auto, unfolding(crate::specs::Entries::moves))]
fn starts_of(alloc: Global, image: &Image, parts: &[Moved]) -> Result<BTreeSet<u64>, NoMemory>
    ensures { IfOk result (λ s. (y : ℕ) → contains nat_cmp s y ≡ moves image.now parts.now y) }
{
    let mut starts = BTreeSet::new(alloc);
    for m in parts {
        put(&mut starts, start_of(image, m.func))?;
    }
    Ok(starts)
}

impl CallTable<'_> {
    /// The table of an image and the parts of a plan.
    pub fn new<'a>(
        alloc: Global,
        image: &'a Image,
        parts: &'a [Moved],
    ) -> Result<CallTable<'a>, NoMemory>
        ensures image { IfOk result (λ t. t.image.now ≡ image.now) }
        ensures parts { IfOk result (λ t. t.parts.now ≡ parts.now) }
    {
        let starts = starts_of(alloc, image, parts)?;
        Ok(CallTable {
            image,
            parts,
            starts,
        })
    }
}

#[tactic(auto, unfolding(crate::specs::Entries::calls_of))]
impl CallTable<'_> {
    /// Where the function starts that the site at an address calls.
    pub fn site(&self, x: u64) -> Option<u64>
        ensures { result ≡ (calls_of self.now.image.now self.now.parts.now).site x }
    {
        let g = site_of(self.image, x)?;
        start_of(self.image, g)
    }

    /// Where the function starts that the pair calls whose second word is at an address.
    pub fn second(&self, x: u64) -> Option<u64>
        ensures { result ≡ (calls_of self.now.image.now self.now.parts.now).second x }
    {
        let g = second_of(self.image, x)?;
        start_of(self.image, g)
    }

    /// Whether the plan moves the function that starts at an address.
    pub fn moved(&self, start: u64) -> bool
        ensures { result ≡ (calls_of self.now.image.now self.now.parts.now).moved start }
    {
        self.starts.contains(&start)
    }
}
