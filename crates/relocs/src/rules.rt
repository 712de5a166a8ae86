//! Sites, pairs and slots: which words and which data name a function.

ghost use Rattle.std.specs.Prelude.{◌≡◌, ℕ, ◌^◌, ◌<◌, ◌≤◌, ◌==◌, length, map, All, AllPairs, IfOk, IfSome};
ghost use Rattle.std.specs.List.{list_any};
ghost use Rattle.std.specs.List.Sorted.{IsNonDecreasing};
ghost use Rattle.finite.specs.Lists.{Lists};
ghost use Rattle.image.specs.Texts.{text_end, is_target};
ghost use Rattle.image.specs.Aims.{site_at, is_inner, far_call_at, pair_at};
ghost use Rattle.image.specs.Picture.{IsText};
ghost use Rattle.relocs.specs.Named.{is_call, is_far, aim_at, aim_entry};

use crate::aims::{Rule, aims};
use crate::jumps::{far_target, jal_target};
use crate::targets::{is_among, sorted_targets};
use elf_read::tables::Reloc;
use image::funcs::func_from;
use image::ranges::{Aim, Func, TextRange};
use image::texts::{word_after, word_at};
use oc_base::fault::NoMemory;
use std::alloc::Global;

/// The function that the word at an address calls by a JAL.
#[tactic(auto, unfolding(image::specs::Aims::site_at))]
fn site_at(texts: &[TextRange], funcs: &[Func], at: u64) -> Option<u32>
    requires fit { All IsText texts.now }
    requires rise { AllPairs (λ s t. text_end s ≤ t.from) texts.now }
    requires funcs_rise { AllPairs (λ f g. f.from < g.from) funcs.now }
    requires few { length funcs.now < 2 ^ 32 }
    ensures { result ≡ site_at texts.now funcs.now at }
{
    let word = word_at(texts, at)?;
    let target = jal_target(word, at)?;
    func_from(funcs, target)
}

/// The function that the word at an address and the next one call by an AUIPC and a JALR.
#[tactic(auto, unfolding(image::specs::Aims::far_call_at))]
fn far_call_at(texts: &[TextRange], funcs: &[Func], at: u64) -> Option<u32>
    requires fit { All IsText texts.now }
    requires rise { AllPairs (λ s t. text_end s ≤ t.from) texts.now }
    requires funcs_rise { AllPairs (λ f g. f.from < g.from) funcs.now }
    requires few { length funcs.now < 2 ^ 32 }
    ensures is { result ≡ far_call_at texts.now funcs.now at }
    ensures low { IfSome result (λ f. at < 0x08000000) }
{
    let first = word_at(texts, at)?;
    let second = word_after(texts, at)?;
    let target = far_target(first, second, at)?;
    func_from(funcs, target)
}

#[derive(Drop)]
struct SiteRule<'a> {
    texts: &'a [TextRange],
    funcs: &'a [Func],
    ghost fit: { All IsText texts.now },
    ghost rise: { AllPairs (λ s t. text_end s ≤ t.from) texts.now },
    ghost funcs_rise: { AllPairs (λ f g. f.from < g.from) funcs.now },
    ghost few: { length funcs.now < 2 ^ 32 },
}

impl<'a> Rule for SiteRule<'a> {
    ghost takes = { λ s r. is_call r };

    ghost aim = { λ s a. site_at s.texts.now s.funcs.now a };

    fn takes(&self, r: &Reloc) -> bool {
        r.kind == 17
    }

    fn aim(&self, at: u64) -> Option<u32> {
        site_at(self.texts, self.funcs, at)
    }
}

/// The sites, ascending.
pub fn sites(
    alloc: Global,
    texts: &[TextRange],
    funcs: &[Func],
    relocs: &[Reloc],
) -> Result<Vec<Aim>, NoMemory>
    requires fit { All IsText texts.now }
    requires rise { AllPairs (λ s t. text_end s ≤ t.from) texts.now }
    requires funcs_rise { AllPairs (λ f g. f.from < g.from) funcs.now }
    requires few { length funcs.now < 2 ^ 32 }
    ensures { IfOk result (λ v. Lists (aim_at is_call (site_at texts.now funcs.now) relocs.now) (map aim_entry v.items)) }
{
    let rule = SiteRule { texts, funcs };
    aims(alloc, &rule, relocs)
}

/// Whether an address is no entry, no function's start and no target.
#[tactic(auto, unfolding(image::specs::Aims::is_inner))]
fn is_inner(texts: &[TextRange], funcs: &[Func], entry: u64, targets: &[u64], at: u64) -> bool
    requires funcs_rise { AllPairs (λ f g. f.from < g.from) funcs.now }
    requires few { length funcs.now < 2 ^ 32 }
    requires sorted { IsNonDecreasing targets.now }
    requires same { (a : ℕ) → is_target texts.now a ≡ list_any (λ t. t == a) targets.now }
    ensures { result ≡ is_inner texts.now funcs.now entry at }
{
    if at == entry {
        return false;
    }
    if func_from(funcs, at).is_some() {
        return false;
    }
    !is_among(targets, at)
}

/// The function that a pair at an address calls.
#[tactic(auto, unfolding(image::specs::Aims::pair_at))]
fn pair_at(texts: &[TextRange], funcs: &[Func], entry: u64, targets: &[u64], at: u64) -> Option<u32>
    requires fit { All IsText texts.now }
    requires rise { AllPairs (λ s t. text_end s ≤ t.from) texts.now }
    requires funcs_rise { AllPairs (λ f g. f.from < g.from) funcs.now }
    requires few { length funcs.now < 2 ^ 32 }
    requires sorted { IsNonDecreasing targets.now }
    requires same { (a : ℕ) → is_target texts.now a ≡ list_any (λ t. t == a) targets.now }
    ensures { result ≡ pair_at texts.now funcs.now entry at }
{
    let func = far_call_at(texts, funcs, at)?;
    if is_inner(texts, funcs, entry, targets, at + 4) {
        Some(func)
    } else {
        None
    }
}

#[derive(Drop)]
struct PairRule<'a> {
    texts: &'a [TextRange],
    funcs: &'a [Func],
    entry: u64,
    targets: &'a [u64],
    ghost fit: { All IsText texts.now },
    ghost rise: { AllPairs (λ s t. text_end s ≤ t.from) texts.now },
    ghost funcs_rise: { AllPairs (λ f g. f.from < g.from) funcs.now },
    ghost few: { length funcs.now < 2 ^ 32 },
    ghost sorted: { IsNonDecreasing targets.now },
    ghost same: { (a : ℕ) → is_target texts.now a ≡ list_any (λ t. t == a) targets.now },
}

impl<'a> Rule for PairRule<'a> {
    ghost takes = { λ s r. is_far r };

    ghost aim = { λ s a. pair_at s.texts.now s.funcs.now s.entry a };

    fn takes(&self, r: &Reloc) -> bool {
        r.kind == 18 || r.kind == 19
    }

    fn aim(&self, at: u64) -> Option<u32> {
        pair_at(self.texts, self.funcs, self.entry, self.targets, at)
    }
}

/// The pairs, ascending.
pub fn pairs(
    alloc: Global,
    texts: &[TextRange],
    funcs: &[Func],
    entry: u64,
    relocs: &[Reloc],
) -> Result<Vec<Aim>, NoMemory>
    requires fit { All IsText texts.now }
    requires rise { AllPairs (λ s t. text_end s ≤ t.from) texts.now }
    requires funcs_rise { AllPairs (λ f g. f.from < g.from) funcs.now }
    requires few { length funcs.now < 2 ^ 32 }
    ensures { IfOk result (λ v. Lists (aim_at is_far (pair_at texts.now funcs.now entry) relocs.now) (map aim_entry v.items)) }
{
    let targets = sorted_targets(alloc, texts)?;
    let rule = PairRule {
        texts,
        funcs,
        entry,
        targets: &targets,
    };
    aims(alloc, &rule, relocs)
}
