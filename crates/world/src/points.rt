//! What stands at an address of the live layouts.

ghost use Rattle.std.specs.Prelude.{◌≡◌, ◌<◌, ◌≤◌, ◌+◌, length, slice_get, OnOk};
ghost use Rattle.std.specs.Option.{option_map, option_and_then};
ghost use Rattle.std.specs.Vec.{vec_capacity};
ghost use Rattle.layout.specs.Bases.{ArePlaces};
ghost use Rattle.layout.specs.Points.{in_range, here_in, live_at, here_word, here_point};
ghost use Rattle.sim_laws.specs.Origins.{origin_of};
ghost use Rattle.world.specs.Fetching.{both};
ghost use Rattle.world.specs.Finding.{AreFound};

use layout::bases::{Place, nearest, place_all};
use layout::layout::Layout;
use layout::point::Point;
use link_tags::origins::Origins;
use oc_base::fault::NoMemory;
use oc_base::range::Range;

/// The live layouts, in the order in which they were made, and their places by base.
#[derive(Drop)]
pub struct Lives {
    pub layouts: Vec<Layout>,
    pub places: Vec<Place>,
}

impl Lives {
    /// Makes room for one layout more.
    pub fn reserve_one(&mut self) -> Result<(), NoMemory>
        ensures layouts { self.new.layouts.items ≡ self.old.layouts.items }
        ensures places { self.new.places.items ≡ self.old.places.items }
        ensures room { OnOk result (length self.old.layouts.items < vec_capacity self.new.layouts) }
        ensures place { OnOk result (length self.old.layouts.items + 1 ≤ vec_capacity self.new.places) }
        ensures capacity { vec_capacity self.old.places ≤ vec_capacity self.new.places }
    {
        let count = self.layouts.len() + 1;
        self.layouts.reserve(1)?;
        self.places.reserve(count)?;
        Ok(())
    }

    /// Finds the places of the layouts anew. It takes no memory.
    pub fn place_all(&mut self)
        requires { length self.old.layouts.items ≤ vec_capacity self.old.places }
        ensures layouts { self.new.layouts ≡ self.old.layouts }
        ensures places { ArePlaces self.old.layouts.items self.new.places.items }
        ensures capacity { vec_capacity self.new.places ≡ vec_capacity self.old.places }
    {
        place_all(&mut self.places, &self.layouts);
    }
}

/// The word that a layout has at an address, and what it stands for.
#[tactic(auto, using(crate::proofs::Lives::no_word, crate::proofs::Lives::no_point, crate::proofs::Lives::both_here))]
fn both_in(l: &Layout, at: u64) -> Option<(u32, Point)>
    ensures { result ≡ option_map both (here_in l.now at) }
{
    let word = l.word_at(at)?;
    let point = l.point_at(at)?;
    Some((word, point))
}

/// The same of the layout at a position, if there is one.
fn both_at(layouts: &[Layout], position: usize, at: u64) -> Option<(u32, Point)>
    ensures { result ≡ option_and_then (λ l. option_map both (here_in l at)) (slice_get layouts.now position) }
{
    both_in(layouts.get(position)?, at)
}

/// The word that a live layout has at an address, and what it stands for, by a search. The layout that may hold the address becomes the
/// recent one.
// rare after `live_both`, so kept out of its callers
#[inline(never)]
fn searched(lives: &Lives, recent: &mut usize, at: u64) -> Option<(u32, Point)>
    requires { AreFound lives.now }
    ensures { result ≡ option_map both (live_at lives.now.layouts.items at) }
{
    let Some(k) = nearest(&lives.places, at) else {
        return None;
    };
    *recent = k;
    both_in(&lives.layouts[k], at)
}

/// The same, where the layout at the position `recent` is tried before the search. It may be any number.
#[inline(always)]
pub fn live_both(lives: &Lives, recent: &mut usize, at: u64) -> Option<(u32, Point)>
    requires { AreFound lives.now }
    ensures { result ≡ option_map both (live_at lives.now.layouts.items at) }
{
    if let Some(found) = both_at(&lives.layouts, *recent, at) {
        return Some(found);
    }
    searched(lives, recent, at)
}

/// The word that a live layout has at an address.
#[tactic(auto, using(crate::proofs::Lives::word_alone))]
pub fn live_word(lives: &Lives, recent: &mut usize, at: u64) -> Option<u32>
    requires { AreFound lives.now }
    ensures { result ≡ option_map here_word (live_at lives.now.layouts.items at) }
{
    let (word, _) = live_both(lives, recent, at)?;
    Some(word)
}

/// The original address of one of the region.
#[inline(never)]
#[tactic(auto, using(crate::proofs::Lives::point_alone))]
fn live_origin(lives: &Lives, mut recent: usize, at: u64) -> u64
    requires { AreFound lives.now }
    ensures { result ≡ origin_of at (option_map here_point (live_at lives.now.layouts.items at)) }
{
    match live_both(lives, &mut recent, at) {
        Some((_, Point::Start(x))) => x,
        Some((_, Point::Hop(x))) => x,
        Some((_, Point::Mid(x))) => x,
        None => at,
    }
}

/// Whether an address is in a range.
pub fn is_in(r: Range, at: u64) -> bool
    ensures { result ≡ in_range r at }
{
    r.from <= at && at < r.to
}

/// The original addresses of those in the region.
#[derive(Drop)]
pub struct Points<'a> {
    pub lives: &'a Lives,
    pub region: Range,
    /// The position of the layout that is tried before the search. It may be any number.
    pub recent: usize,
    ghost found: { AreFound lives.now },
}

impl Origins for Points<'_> {
    ghost use Rattle.sim_laws.specs.Origins.{origin_of};
    ghost use Rattle.world.specs.Worlds.{point_at};

    ghost origin = { λ p a. origin_of a (point_at p.region p.lives.now.layouts.items a) };

    fn origin(&self, at: u64) -> u64 {
        if !is_in(self.region, at) {
            return at;
        }
        live_origin(self.lives, self.recent, at)
    }
}
