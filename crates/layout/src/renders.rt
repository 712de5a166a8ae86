//! Whether a layout renders an image.

ghost use Rattle.std.specs.Prelude.{◌≡◌, ◌+◌, ◌*◌, ◌<◌, ◌^◌, ◌↔◌, ℕ, true, length, IsTrue, All, is_some, position, ◌==◌, AllPairs, Option};
ghost use Rattle.image.specs.Aims.{aim_place};
ghost use Rattle.layout.specs.Laid.{point_in};
ghost use Rattle.layout.specs.Points.{site_of, second_of};
ghost use Rattle.layout.specs.Alone.{called_at, InRegion, RendersAlone};
ghost use Rattle.layout.specs.Tests.{is_number, point_test, listed, word_test, site_test, pair_test};

use crate::calls::{second_of, site_of};
use crate::layout::Layout;
use crate::point::Point;
use crate::rows::Alone;
use finite::search::place_of;
use image::picture::Image;
use image::ranges::Aim;

/// Whether a call is listed, if there is one at an address.
fn listed(call: Option<u32>, list: &[Aim], at: u64) -> bool
    requires { AllPairs (λ s t. s.at < t.at) list.now }
    ensures { result ≡ listed call list.now at }
{
    match call {
        Some(_) => place_of(list, at).is_some(),
        None => true,
    }
}

fn is_number(o: Option<u32>, n: u32) -> bool
    ensures { result ≡ is_number o n }
{
    match o {
        Some(m) => m == n,
        None => false,
    }
}

impl Alone<'_> {
    /// The function that the layout's word at an address calls as a site.
    fn site(&self, at: u64) -> Option<u32>
        ensures { result ≡ called_at (site_of self.now.image.now) (point_in self.now.layout.now at) }
    {
        match self.layout.point_at(at) {
            Some(Point::Start(x)) => site_of(self.image, x),
            _ => None,
        }
    }

    /// The function that the layout's word at an address calls as the second word of a pair.
    fn second(&self, at: u64) -> Option<u32>
        ensures { result ≡ called_at (second_of self.now.image.now) (point_in self.now.layout.now at) }
    {
        match self.layout.point_at(at) {
            Some(Point::Start(x)) => second_of(self.image, x),
            _ => None,
        }
    }

    #[tactic(auto, unfolding(crate::specs::Tests::point_test))]
    fn is_rendered(&self, at: u64) -> bool
        requires { at + 8 < 2 ^ 64 }
        ensures { result ≡ point_test self.now.image.now self.now.layout.now at (point_in self.now.layout.now at) }
    {
        match self.layout.point_at(at) {
            Some(Point::Start(x)) => self.is_start(at, x),
            Some(Point::Hop(x)) => self.is_hop(at, x),
            Some(Point::Mid(x)) => self.is_second_half(at, x),
            None => true,
        }
    }

    /// Whether the word at an address renders what it stands for, and is listed if it is a call.
    #[tactic(auto, unfolding(crate::specs::Tests::word_test))]
    fn is_word(&self, at: u64) -> bool
        requires { at + 8 < 2 ^ 64 }
        ensures { result ≡ word_test self.now.image.now self.now.layout.now at }
    {
        self.layout.kept();
        self.is_rendered(at)
            && listed(self.site(at), self.layout.sites(), at)
            && listed(self.second(at), self.layout.pairs(), at)
    }

    fn are_words(&self) -> bool
        ensures { IsTrue result ↔ ((k : ℕ) → k < length self.now.layout.now.words → word_test self.now.image.now self.now.layout.now (self.now.layout.now.base + 4 * k) ≡ true) }
    {
        self.layout.kept();
        let base = self.layout.base();
        for k in 0..self.layout.words().len() {
            if !self.is_word(base + 4 * k as u64) {
                return false;
            }
        }
        true
    }

    #[tactic(auto, unfolding(crate::specs::Tests::site_test))]
    fn is_site(&self, s: &Aim) -> bool
        ensures { result ≡ site_test self.now.image.now self.now.layout.now s.now }
    {
        is_number(self.site(s.at), s.func)
    }

    #[tactic(auto, unfolding(crate::specs::Tests::pair_test))]
    fn is_pair(&self, s: &Aim) -> bool
        ensures { result ≡ pair_test self.now.image.now self.now.layout.now s.now }
    {
        is_number(self.second(s.at), s.func)
    }

    fn are_sites(&self) -> bool
        ensures { IsTrue result ↔ All (λ s. site_test self.now.image.now self.now.layout.now s ≡ true) self.now.layout.now.sites }
    {
        self.layout.sites().iter().all(|s| self.is_site(s))
    }

    fn are_pairs(&self) -> bool
        ensures { IsTrue result ↔ All (λ s. pair_test self.now.image.now self.now.layout.now s ≡ true) self.now.layout.now.pairs }
    {
        self.layout.pairs().iter().all(|s| self.is_pair(s))
    }

    /// Whether every word of the layout lies in the region.
    fn is_within(&self) -> bool
        ensures { IsTrue result ↔ InRegion self.now.image.now self.now.layout.now.base (length self.now.layout.now.words) }
    {
        let count = self.layout.words().len() as u64;
        if count == 0 {
            return true;
        }
        self.layout.kept();
        let region = self.image.region();
        let base = self.layout.base();
        region.from <= base && base + 4 * (count - 1) < region.to
    }
}

/// Whether a layout, taken alone, lies in the image's region and renders the image: each of its words renders the original word
/// that it stands for, and its sites and pairs are exactly those that it holds.
pub fn renders(image: &Image, layout: &Layout) -> bool
    ensures { IsTrue result ↔ RendersAlone image.now layout.now }
{
    image.kept();
    layout.kept();
    let alone = Alone { image, layout };
    if !alone.is_within() {
        return false;
    }
    if !alone.are_words() {
        return false;
    }
    if !alone.are_sites() {
        return false;
    }
    alone.are_pairs()
}
