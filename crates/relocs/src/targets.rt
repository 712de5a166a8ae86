//! The addresses to which the JALs and branches of text go.

ghost use Rattle.std.specs.Prelude.{◌≡◌, ℕ, ◌==◌, ◌++◌, All, IfOk, OnOk};
ghost use Rattle.std.specs.List.{filter_map, list_any};
ghost use Rattle.std.specs.List.Sorted.{IsNonDecreasing};
ghost use Rattle.image.specs.Texts.{text_words, aim_of, targets, is_target};
ghost use Rattle.image.specs.Picture.{IsText};

use crate::jumps::direct_target;
use image::ranges::TextRange;
use oc_base::fault::NoMemory;
use std::alloc::Global;

#[tactic(auto, using(crate::proofs::TargetLemmas::aims_more))]
fn push_targets(t: &TextRange, out: &mut Vec<u64>) -> Result<(), NoMemory>
    requires { IsText t.now }
    ensures { OnOk result (out.new.items ≡ out.old.items ++ filter_map aim_of (text_words t.now)) }
{
    let words = t.words.as_slice();
    let start = t.from;
    for i in 0..words.len() {
        if let Some(target) = direct_target(words[i], start + 4 * i as u64) {
            out.push(target)?;
        }
    }
    Ok(())
}

#[tactic(auto, unfolding(image::specs::Texts::targets), using(crate::proofs::TargetLemmas::aims_of_text))]
fn collected(alloc: Global, texts: &[TextRange]) -> Result<Vec<u64>, NoMemory>
    requires { All IsText texts.now }
    ensures { IfOk result (λ v. v.items ≡ targets texts.now) }
{
    let mut all = Vec::new(alloc);
    for t in texts {
        push_targets(t, &mut all)?;
    }
    Ok(all)
}

/// The targets in order.
pub fn sorted_targets(alloc: Global, texts: &[TextRange]) -> Result<Vec<u64>, NoMemory>
    requires { All IsText texts.now }
    ensures sorted { IfOk result (λ v. IsNonDecreasing v.items) }
    ensures same { IfOk result (λ v. (a : ℕ) → is_target texts.now a ≡ list_any (λ t. t == a) v.items) }
{
    let mut all = collected(alloc, texts)?;
    all.sort_unstable();
    Ok(all)
}

/// Whether an address is among numbers in order.
pub fn is_among(sorted: &[u64], at: u64) -> bool
    requires { IsNonDecreasing sorted.now }
    ensures { result ≡ list_any (λ t. t == at) sorted.now }
{
    sorted.binary_search(&at).is_ok()
}
