//! Layouts.

ghost use Rattle.std.specs.Prelude.{◌≡◌, ◌≤◌, ◌<◌, IfOk, IsSome};
ghost use Rattle.layout.specs.Laid.{item_at, point_in, with_word};

use crate::point::Point;
use image::ranges::Aim;
use oc_base::fault::NoMemory;
use std::alloc::Global;
use std::marker::Model;

/// Words that stand one after another from a base, what each of them stands for, and which of them are calls that may be aimed
/// anew. Sites are direct calls at their JAL. Pairs are far calls, here at their second word. Both ascend by address.
#[derive(Debug, Drop)]
pub struct Layout {
    base: u64,
    words: Vec<u32>,
    points: Vec<Point>,
    sites: Vec<Aim>,
    pairs: Vec<Aim>,
}

impl Model for Layout {
    ghost use Rattle.layout.specs.Laid.{Laid, IsLaid};

    ghost Value = { Laid };

    ghost view = { λ l. record {
      base = l.base;
      words = l.words.items;
      points = l.points.items;
      sites = l.sites.items;
      pairs = l.pairs.items;
    } };

    ghost invariant = { λ l. IsLaid (record {
      base = l.base;
      words = l.words.items;
      points = l.points.items;
      sites = l.sites.items;
      pairs = l.pairs.items;
    }) };
}

impl Layout {
    ghost use Rattle.layout.specs.Laid.{IsLaid};

    /// A layout of these parts. It takes no memory.
    pub fn of(
        base: u64,
        words: Vec<u32>,
        points: Vec<Point>,
        sites: Vec<Aim>,
        pairs: Vec<Aim>,
    ) -> Layout
        requires { IsLaid (record {
          base = base;
          words = words.items;
          points = points.items;
          sites = sites.items;
          pairs = pairs.items;
        }) }
        ensures { result ≡ record {
          base = base;
          words = words.items;
          points = points.items;
          sites = sites.items;
          pairs = pairs.items;
        } }
    {
        Layout {
            base,
            words,
            points,
            sites,
            pairs,
        }
    }

    /// An equal layout.
    pub fn copy(&self, alloc: Global) -> Result<Layout, NoMemory>
        ensures { IfOk result (λ l. l ≡ self.now) }
    {
        Ok(Layout {
            base: self.base,
            words: Vec::from_slice(alloc, &self.words)?,
            points: Vec::from_slice(alloc, &self.points)?,
            sites: Vec::from_slice(alloc, &self.sites)?,
            pairs: Vec::from_slice(alloc, &self.pairs)?,
        })
    }

    /// What each layout keeps, for a caller's proof. It does nothing.
    pub fn kept(&self)
        ensures { IsLaid self.now }
    {
        let _ = &self.base;
    }

    pub fn base(&self) -> u64
        ensures { result ≡ self.now.base }
    {
        self.base
    }

    pub fn words(&self) -> &[u32]
        ensures { result.now ≡ self.now.words }
    {
        &self.words
    }

    pub fn points(&self) -> &[Point]
        ensures { result.now ≡ self.now.points }
    {
        &self.points
    }

    /// Direct calls that may be retargeted, at their JAL.
    pub fn sites(&self) -> &[Aim]
        ensures { result.now ≡ self.now.sites }
    {
        &self.sites
    }

    /// Far calls that may be retargeted, at their second word.
    pub fn pairs(&self) -> &[Aim]
        ensures { result.now ≡ self.now.pairs }
    {
        &self.pairs
    }

    /// What the word at an address stands for. An address at which no word begins has none.
    pub fn point_at(&self, at: u64) -> Option<Point>
        ensures { result ≡ point_in self.now at }
    {
        item_at(self.base, &self.points, at)
    }

    /// The word at an address.
    pub fn word_at(&self, at: u64) -> Option<u32>
        ensures { result ≡ item_at self.now.base self.now.words at }
    {
        item_at(self.base, &self.words, at)
    }

    /// Puts another word at the address of a word.
    pub fn set_word(&mut self, at: u64, word: u32)
        requires { IsSome (item_at self.old.base self.old.words at) }
        ensures { self.new ≡ with_word at word self.old }
    {
        let i = ((at - self.base) / 4) as usize;
        self.words[i] = word;
    }
}

/// What a list has for an address, if its elements stand at every fourth address from a base.
#[tactic(auto, unfolding(crate::specs::Laid::item_at))]
fn item_at<T: Copy>(base: u64, items: &[T], at: u64) -> Option<T>
    ensures { result ≡ item_at base items.now at }
{
    if at < base {
        return None;
    }
    let past = at - base;
    if past % 4 != 0 {
        return None;
    }
    items.get((past / 4) as usize).copied()
}
