//! The image of an executable.

ghost use Rattle.std.specs.Prelude.{◌≡◌, ◌<◌, ◌≤◌, ◌==◌, ◌-◌, ◌&&◌, nat_le, is_some, position, take, AllPairs, IfOk};
ghost use Rattle.std.specs.List.{list_any};
ghost use Rattle.image.specs.Texts.{covers, word_at};
ghost use Rattle.image.specs.Aims.{is_inside, aim_place};
ghost use Rattle.image.specs.Picture.{Picture, IsKept, is_second};

use crate::funcs::func_at;
use crate::ranges::{Aim, Func, Part, TextRange};
use crate::texts::{text_at, word_at};
use finite::search::place_of;
use oc_base::fault::NoMemory;
use oc_base::items::Items;
use oc_base::range::Range;
use std::alloc::Global;
use std::marker::Model;

/// An executable as the machine sees it. Every list ascends by address.
#[derive(Debug, Drop)]
pub struct Image {
    texts: Items<TextRange>,
    parts: Items<Part>,
    entry: u64,
    region: Range,
    funcs: Items<Func>,
    sites: Items<Aim>,
    pairs: Items<Aim>,
    slots: Items<Aim>,
    headers: (u64, u64),
}

impl Model for Image {
    ghost use Rattle.image.specs.Picture.{Picture, IsKept};

    ghost Value = { Picture };

    ghost view = { λ i. record {
      texts = i.texts;
      parts = i.parts;
      entry = i.entry;
      region = i.region;
      funcs = i.funcs;
      sites = i.sites;
      pairs = i.pairs;
      slots = i.slots;
      headers = i.headers;
    } };

    ghost invariant = { λ i. IsKept (record {
      texts = i.texts;
      parts = i.parts;
      entry = i.entry;
      region = i.region;
      funcs = i.funcs;
      sites = i.sites;
      pairs = i.pairs;
      slots = i.slots;
      headers = i.headers;
    }) };
}

impl Image {
    /// An image of these parts. It takes no memory.
    pub fn of(
        texts: Vec<TextRange>,
        parts: Vec<Part>,
        entry: u64,
        region: Range,
        funcs: Vec<Func>,
        sites: Vec<Aim>,
        pairs: Vec<Aim>,
        slots: Vec<Aim>,
        headers: (u64, u64),
    ) -> Image
        requires { IsKept (record {
          texts = texts.items;
          parts = parts.items;
          entry = entry;
          region = region;
          funcs = funcs.items;
          sites = sites.items;
          pairs = pairs.items;
          slots = slots.items;
          headers = headers;
        }) }
        ensures { result ≡ record {
          texts = texts.items;
          parts = parts.items;
          entry = entry;
          region = region;
          funcs = funcs.items;
          sites = sites.items;
          pairs = pairs.items;
          slots = slots.items;
          headers = headers;
        } }
    {
        Image {
            texts: Items::from_vec(texts),
            parts: Items::from_vec(parts),
            entry,
            region,
            funcs: Items::from_vec(funcs),
            sites: Items::from_vec(sites),
            pairs: Items::from_vec(pairs),
            slots: Items::from_vec(slots),
            headers,
        }
    }

    /// An equal image.
    pub fn copy(&self, alloc: Global) -> Result<Image, NoMemory>
        ensures { IfOk result (λ i. i ≡ self.now) }
    {
        let texts = copied_texts(alloc, self.texts.as_slice())?;
        let parts = copied_parts(alloc, self.parts.as_slice())?;
        Ok(Image {
            texts: Items::from_vec(texts),
            parts: Items::from_vec(parts),
            entry: self.entry,
            region: self.region,
            funcs: Items::from_slice(alloc, self.funcs.as_slice())?,
            sites: Items::from_slice(alloc, self.sites.as_slice())?,
            pairs: Items::from_slice(alloc, self.pairs.as_slice())?,
            slots: Items::from_slice(alloc, self.slots.as_slice())?,
            headers: self.headers,
        })
    }

    /// What each image keeps, for a caller's proof. It does nothing.
    pub fn kept(&self)
        ensures { IsKept self.now }
    {
        let _ = &self.entry;
    }

    pub fn texts(&self) -> &[TextRange]
        ensures { result.now ≡ self.now.texts }
    {
        self.texts.as_slice()
    }

    pub fn parts(&self) -> &[Part]
        ensures { result.now ≡ self.now.parts }
    {
        self.parts.as_slice()
    }

    pub fn entry(&self) -> u64
        ensures { result ≡ self.now.entry }
    {
        self.entry
    }

    /// Where moved code may lie.
    pub fn region(&self) -> Range
        ensures { result ≡ self.now.region }
    {
        self.region
    }

    pub fn funcs(&self) -> &[Func]
        ensures { result.now ≡ self.now.funcs }
    {
        self.funcs.as_slice()
    }

    /// Direct calls that may be retargeted, at their JAL.
    pub fn sites(&self) -> &[Aim]
        ensures { result.now ≡ self.now.sites }
    {
        self.sites.as_slice()
    }

    /// Far calls that may be retargeted, at their AUIPC.
    pub fn pairs(&self) -> &[Aim]
        ensures { result.now ≡ self.now.pairs }
    {
        self.pairs.as_slice()
    }

    /// Stored addresses of functions that may be retargeted.
    pub fn slots(&self) -> &[Aim]
        ensures { result.now ≡ self.now.slots }
    {
        self.slots.as_slice()
    }

    /// The address and the number of the program headers, both 0 where no segment holds them.
    pub fn headers(&self) -> (u64, u64)
        ensures { result ≡ self.now.headers }
    {
        self.headers
    }

    /// The word of text at an address.
    pub fn word(&self, at: u64) -> Option<u32>
        ensures { result ≡ word_at self.now.texts at }
    {
        word_at(self.texts.as_slice(), at)
    }

    /// Whether an address is one of text.
    #[tactic(auto, using(finite::proofs::Finding::any_find))]
    pub fn in_text(&self, at: u64) -> bool
        ensures { result ≡ list_any (covers at) self.now.texts }
    {
        text_at(self.texts.as_slice(), at).is_some()
    }

    /// The number of the least function that covers an address.
    pub fn func_at(&self, at: u64) -> Option<u32>
        ensures { result ≡ position (is_inside at) self.now.funcs }
    {
        func_at(self.funcs.as_slice(), at)
    }

    /// Whether an address is that of the second word of a pair.
    pub fn second_of_pair(&self, at: u64) -> bool
        ensures { result ≡ is_second self.now.pairs at }
    {
        is_second(self.pairs.as_slice(), at)
    }
}

/// Whether an address is 4 past one of the places.
#[tactic(auto, using(crate::proofs::Seconds::four_past, crate::proofs::Seconds::none_below))]
fn is_second(pairs: &[Aim], at: u64) -> bool
    requires { AllPairs (λ s t. s.at < t.at) pairs.now }
    ensures { result ≡ is_second pairs.now at }
{
    if at < 4 {
        return false;
    }
    place_of(pairs, at - 4).is_some()
}

fn copied_texts(alloc: Global, texts: &[TextRange]) -> Result<Vec<TextRange>, NoMemory>
    ensures { IfOk result (λ v. v.items ≡ texts.now) }
{
    let mut all = Vec::with_capacity(alloc, texts.len())?;
    for t in texts {
        all.push(t.copy(alloc)?)?;
    }
    Ok(all)
}

fn copied_parts(alloc: Global, parts: &[Part]) -> Result<Vec<Part>, NoMemory>
    ensures { IfOk result (λ v. v.items ≡ parts.now) }
{
    let mut all = Vec::with_capacity(alloc, parts.len())?;
    for p in parts {
        all.push(p.copy(alloc)?)?;
    }
    Ok(all)
}
