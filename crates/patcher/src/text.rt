//! The words of text as they are now.

ghost use Rattle.std.specs.Prelude.{◌≡◌, ◌<◌, ◌≤◌, length, true, slice_index_or, position, IfOk, IfSome, IsSome};
ghost use Rattle.image.specs.declared.ranges.TextRange.{TextRange as TextData};
ghost use Rattle.image.specs.Texts.{covers, text_start, text_end, word_in, word_at};
ghost use Rattle.patcher.specs.Texts.{AreTexts, range_with, text_with};

use finite::search::{Keyed, Spanned, place_near};
use image::picture::Image;
use image::ranges::TextRange;
use oc_base::fault::NoMemory;
use std::alloc::Global;
use std::marker::Model;

/// The words of one text range as they are now.
#[derive(Debug, Drop)]
pub struct Section {
    from: u64,
    words: Vec<u32>,
}

impl Model for Section {
    ghost use Rattle.image.specs.declared.ranges.TextRange.{TextRange};

    ghost Value = { TextRange };

    ghost view = { λ s. record { from = s.from; words = s.words.items } };
}

impl Keyed for Section {
    ghost use Rattle.image.specs.Texts.{text_start};

    ghost key = { text_start };

    fn key(&self) -> u64 {
        self.from
    }
}

impl Spanned for Section {
    ghost use Rattle.image.specs.Texts.{text_end};

    ghost end = { text_end };

    fn end(&self) -> u64 {
        self.from + 4 * self.words.len() as u64
    }
}

impl Section {
    fn of(alloc: Global, range: &TextRange) -> Result<Section, NoMemory>
        ensures { IfOk result (λ s. s ≡ range.now) }
    {
        Ok(Section {
            from: range.from,
            words: Vec::from_slice(alloc, range.words.as_slice())?,
        })
    }

    fn copy(&self, alloc: Global) -> Result<Section, NoMemory>
        ensures { IfOk result (λ s. s ≡ self.now) }
    {
        Ok(Section {
            from: self.from,
            words: Vec::from_slice(alloc, &self.words)?,
        })
    }

    #[tactic(auto, unfolding(image::specs::Texts::word_in))]
    fn word(&self, at: u64) -> Option<u32>
        requires { self.now.from ≤ at }
        ensures { result ≡ word_in at self.now }
    {
        let past = at - self.from;
        if past % 4 != 0 {
            return None;
        }
        self.words.get((past / 4) as usize).copied()
    }

    fn set_word(&mut self, at: u64, word: u32)
        requires low { self.old.from ≤ at }
        requires high { at < text_end self.old }
        ensures { self.new ≡ range_with at word self.old }
    {
        let i = ((at - self.from) / 4) as usize;
        self.words[i] = word;
    }
}

/// The words of an image's text as they are now: each call may have been aimed anew.
#[derive(Debug, Drop)]
pub struct TextNow {
    sections: Vec<Section>,
}

impl Model for TextNow {
    ghost use Rattle.std.specs.Prelude.{List};
    ghost use Rattle.image.specs.declared.ranges.TextRange.{TextRange};
    ghost use Rattle.patcher.specs.Texts.{AreTexts};

    ghost Value = { List TextRange };

    ghost view = { λ t. t.sections.items };

    ghost invariant = { λ t. AreTexts t.sections.items };
}

impl TextNow {
    /// The words of an image.
    pub fn of(alloc: Global, image: &Image) -> Result<TextNow, NoMemory>
        ensures { IfOk result (λ t. t ≡ image.now.texts) }
    {
        image.kept();
        let sections = sections_of(alloc, image.texts())?;
        Ok(TextNow { sections })
    }

    /// Equal words.
    pub fn copy(&self, alloc: Global) -> Result<TextNow, NoMemory>
        ensures { IfOk result (λ t. t ≡ self.now) }
    {
        let sections = copied(alloc, &self.sections)?;
        Ok(TextNow { sections })
    }

    /// The word of text at an address. There is none exactly where no word of text stands.
    #[tactic(auto, unfolding(image::specs::Texts::word_at), using(finite::proofs::Finding::found_at, finite::proofs::Finding::find_nowhere))]
    #[inline(always)]
    pub fn word(&self, at: u64) -> Option<u32>
        ensures { result ≡ word_at self.now at }
    {
        let i = place_of(&self.sections, at)?;
        self.sections[i].word(at)
    }

    /// Puts another word at the address of a word.
    pub(crate) fn set_word(&mut self, at: u64, word: u32)
        requires { IsSome (word_at self.old at) }
        ensures { self.new ≡ text_with at word self.old }
    {
        let i = place_of(&self.sections, at).unwrap();
        self.sections[i].set_word(at, word);
    }
}

/// The place of the range that covers an address.
#[inline(always)]
fn place_of(sections: &[Section], at: u64) -> Option<usize>
    requires { AreTexts sections.now }
    ensures place { result ≡ position (covers at) sections.now }
    ensures within { IfSome result (λ i. i < length sections.now) }
    ensures covers { IfSome result (λ i. (d : TextData) → covers at (slice_index_or sections.now i d) ≡ true) }
{
    place_near(sections, 0, at)
}

fn sections_of(alloc: Global, ranges: &[TextRange]) -> Result<Vec<Section>, NoMemory>
    ensures { IfOk result (λ v. v.items ≡ ranges.now) }
{
    let mut all = Vec::with_capacity(alloc, ranges.len())?;
    for range in ranges {
        all.push(Section::of(alloc, range)?)?;
    }
    Ok(all)
}

fn copied(alloc: Global, sections: &[Section]) -> Result<Vec<Section>, NoMemory>
    ensures { IfOk result (λ v. v.items ≡ sections.now) }
{
    let mut all = Vec::with_capacity(alloc, sections.len())?;
    for section in sections {
        all.push(section.copy(alloc)?)?;
    }
    Ok(all)
}
