//! Words and data by their address.

ghost use Rattle.std.specs.Prelude.{◌≡◌, ◌<◌, ◌≤◌, ◌^◌, ◌+◌, length, slice_index_or, true, All, AllPairs, find, position, IfSome};
ghost use Rattle.std.specs.Option.{option_copied};
ghost use Rattle.image.specs.declared.ranges.TextRange.{TextRange as TextData};
ghost use Rattle.image.specs.Texts.{text_start, text_end, covers, text_at, word_in, word_at, word_after};
ghost use Rattle.image.specs.declared.ranges.Part.{Part as PartData};
ghost use Rattle.image.specs.Aims.{covers_part};
ghost use Rattle.image.specs.Picture.{IsText, IsPart};

use crate::ranges::{Part, TextRange};
use finite::search::place_covering;

/// The text range that covers an address.
#[tactic(auto, using(finite::proofs::Finding::found_at, finite::proofs::Finding::find_nowhere))]
pub fn text_at(texts: &[TextRange], at: u64) -> Option<&TextRange>
    requires fit { All IsText texts.now }
    requires rise { AllPairs (λ s t. text_end s ≤ t.from) texts.now }
    ensures first { option_copied result ≡ text_at texts.now at }
    ensures from { IfSome result (λ t. t.now.from ≤ at) }
    ensures to { IfSome result (λ t. at < text_end t.now) }
    ensures high { IfSome result (λ t. text_end t.now ≤ 0x08000000) }
{
    let i = place_of_text(texts, at)?;
    Some(&texts[i])
}

fn place_of_text(texts: &[TextRange], at: u64) -> Option<usize>
    requires fit { All IsText texts.now }
    requires rise { AllPairs (λ s t. text_end s ≤ t.from) texts.now }
    ensures place { result ≡ position (covers at) texts.now }
    ensures within { IfSome result (λ i. i < length texts.now) }
    ensures covers { IfSome result (λ i. (d : TextData) → covers at (slice_index_or texts.now i d) ≡ true) }
{
    place_covering(texts, at)
}

/// The word that stands at an address of a text range.
#[tactic(auto, unfolding(crate::specs::Texts::word_in))]
pub fn word_in(at: u64, t: &TextRange) -> Option<u32>
    requires { t.now.from ≤ at }
    ensures { result ≡ word_in at t.now }
{
    let past = at - t.from;
    if past % 4 != 0 {
        return None;
    }
    t.words.as_slice().get((past / 4) as usize).copied()
}

/// The word of text at an address.
#[tactic(auto, unfolding(crate::specs::Texts::word_at))]
pub fn word_at(texts: &[TextRange], at: u64) -> Option<u32>
    requires fit { All IsText texts.now }
    requires rise { AllPairs (λ s t. text_end s ≤ t.from) texts.now }
    ensures is { result ≡ word_at texts.now at }
    ensures low { IfSome result (λ w. at < 0x08000000) }
{
    let t = text_at(texts, at)?;
    word_in(at, t)
}

/// The word after the one at an address, in the same text range.
#[tactic(auto, unfolding(crate::specs::Texts::word_after))]
pub fn word_after(texts: &[TextRange], at: u64) -> Option<u32>
    requires fit { All IsText texts.now }
    requires rise { AllPairs (λ s t. text_end s ≤ t.from) texts.now }
    ensures { result ≡ word_after texts.now at }
{
    let t = text_at(texts, at)?;
    word_in(at + 4, t)
}

/// The part that covers an address.
#[tactic(auto, using(finite::proofs::Finding::found_at, finite::proofs::Finding::find_nowhere))]
pub fn part_at(parts: &[Part], at: u64) -> Option<&Part>
    requires fit { All IsPart parts.now }
    requires rise { AllPairs (λ s t. s.range.to ≤ t.range.from) parts.now }
    ensures first { option_copied result ≡ find (covers_part at) parts.now }
    ensures from { IfSome result (λ p. p.now.range.from ≤ at) }
    ensures to { IfSome result (λ p. at < p.now.range.to) }
    ensures high { IfSome result (λ p. p.now.range.to ≤ 0x08000000) }
{
    let i = place_of_part(parts, at)?;
    Some(&parts[i])
}

fn place_of_part(parts: &[Part], at: u64) -> Option<usize>
    requires fit { All IsPart parts.now }
    requires rise { AllPairs (λ s t. s.range.to ≤ t.range.from) parts.now }
    ensures place { result ≡ position (covers_part at) parts.now }
    ensures within { IfSome result (λ i. i < length parts.now) }
    ensures covers { IfSome result (λ i. (d : PartData) → covers_part at (slice_index_or parts.now i d) ≡ true) }
{
    place_covering(parts, at)
}
