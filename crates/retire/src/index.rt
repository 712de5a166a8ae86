//! The layout that holds an address, by a search.

ghost use Rattle.std.specs.Prelude.{◌≡◌, ◌↔◌, ℕ, AllPairs, Some, IfOk, true};
ghost use Rattle.layout.specs.Apart.{LieApart, AreApart, Covers, LiesIn};
ghost use Rattle.layout.specs.Bases.{ArePlaces};

use layout::bases::{Place, nearest, place_all};
use layout::layout::Layout;
use oc_base::fault::NoMemory;
use std::alloc::Global;

/// Layouts that lie apart, with their places by base.
#[derive(Drop)]
pub struct Index<'a> {
    pub lives: &'a [Layout],
    places: Vec<Place>,
    ghost apart: { AreApart lives.now },
    ghost are: { ArePlaces lives.now places.items },
}

fn covers(layout: &Layout, at: u64) -> bool
    ensures { (result ≡ true) ↔ Covers at layout.now }
{
    layout.kept();
    if at < layout.base() {
        return false;
    }
    at < layout.base() + 4 * layout.words().len() as u64
}

impl<'a> Index<'a> {
    pub fn of(alloc: Global, lives: &'a [Layout]) -> Result<Index<'a>, NoMemory>
        requires { AllPairs LieApart lives.now }
        ensures { IfOk result (λ index. index.lives.now ≡ lives.now) }
    {
        let mut places = Vec::with_capacity(alloc, lives.len())?;
        place_all(&mut places, lives);
        Ok(Index { lives, places })
    }

    /// The position of the layout that holds an address.
    pub fn holder_of(&self, at: u64) -> Option<usize>
        ensures { (k : ℕ) → (result ≡ Some k) ↔ LiesIn self.now.lives.now at k }
    {
        let k = nearest(&self.places, at)?;
        if !covers(&self.lives[k], at) {
            return None;
        }
        Some(k)
    }
}
