//! Functions, from symbols.

ghost use Rattle.std.specs.Prelude.{◌≡◌, ◌^◌, ◌≤◌, ◌<◌, ◌+◌, ℕ, All, AllPairs, map, IfOk, OnOk, ◌==◌, ◌&&◌, if◌then◌else◌};
ghost use Rattle.std.specs.List.{list_any};
ghost use Rattle.std.specs.Ordering.{nat_cmp};
ghost use Rattle.std.specs.BTreeMap.{get, IsOrdered};
ghost use Rattle.finite.specs.Lists.{Lists};
ghost use Rattle.image.specs.Texts.{text_end};
ghost use Rattle.image.specs.Picture.{IsText};
ghost use Rattle.relocs.specs.Functions.{holds, is_code, is_function, symbol_end, greater, end_at, func_entry};

use elf_read::elf::{Symbol, Symbols};
use image::ranges::{Func, TextRange};
use image::texts::text_at;
use oc_base::fault::NoMemory;
use std::alloc::Global;
use std::collections::BTreeMap;

/// Whether a range of at least one byte lies wholly in one text range.
#[tactic(auto, using(crate::proofs::FunctionLemmas::in_one, crate::proofs::FunctionLemmas::in_none))]
fn in_one_text(texts: &[TextRange], from: u64, size: u64) -> bool
    requires fit { All IsText texts.now }
    requires rise { AllPairs (λ s t. text_end s ≤ t.from) texts.now }
    requires some { 0 < size }
    ensures { result ≡ list_any (holds from (from + size)) texts.now }
{
    let Some(t) = text_at(texts, from) else {
        return false;
    };
    size <= t.from + 4 * t.words.len() as u64 - from
}

fn is_code(s: &Symbol) -> bool
    ensures { result ≡ is_code s.now }
{
    s.info % 16 == 2 && s.section != 0 && s.value % 4 == 0 && s.size % 4 == 0 && s.size > 0
}

/// Whether a symbol names a function.
#[tactic(auto, unfolding(crate::specs::Functions::is_function))]
fn is_function(texts: &[TextRange], s: &Symbol) -> bool
    requires fit { All IsText texts.now }
    requires rise { AllPairs (λ s t. text_end s ≤ t.from) texts.now }
    ensures { result ≡ is_function texts.now s.now }
{
    is_code(s) && in_one_text(texts, s.value, s.size)
}

/// Keeps the greater of two ends for a start.
fn raise(ends: &mut BTreeMap<u64, u64>, from: u64, end: u64) -> Result<(), NoMemory>
    ensures { OnOk result ((q : ℕ) → get nat_cmp ends.new q
        ≡ (if from == q then greater (get nat_cmp ends.old q) end else get nat_cmp ends.old q)) }
{
    let end = match ends.get(&from) {
        Some(known) => (*known).max(end),
        None => end,
    };
    ends.insert(from, end)?;
    Ok(())
}

/// Adds the end of the function that a symbol names, where it names one.
#[tactic(auto, using(crate::proofs::FunctionLemmas::function_fits))]
fn note(ends: &mut BTreeMap<u64, u64>, texts: &[TextRange], s: &Symbol) -> Result<(), NoMemory>
    requires fit { All IsText texts.now }
    requires rise { AllPairs (λ s t. text_end s ≤ t.from) texts.now }
    ensures { OnOk result ((q : ℕ) → get nat_cmp ends.new q
        ≡ (if is_function texts.now s.now && s.now.value == q then greater (get nat_cmp ends.old q) (symbol_end s.now) else get nat_cmp ends.old q)) }
{
    if !is_function(texts, s) {
        return Ok(());
    }
    raise(ends, s.value, s.value + s.size)
}

/// The end of each function by its start.
fn ends(
    alloc: Global,
    texts: &[TextRange],
    symbols: &Symbols,
) -> Result<BTreeMap<u64, u64>, NoMemory>
    requires fit { All IsText texts.now }
    requires rise { AllPairs (λ s t. text_end s ≤ t.from) texts.now }
    ensures { IfOk result (λ m. (q : ℕ) → get nat_cmp m q ≡ end_at texts.now symbols.now q) }
{
    let mut ends = BTreeMap::new(alloc);
    for i in 0..symbols.len() {
        let s = symbols.at(i);
        note(&mut ends, texts, &s)?;
    }
    Ok(ends)
}

fn listed(alloc: Global, ends: &BTreeMap<u64, u64>) -> Result<Vec<Func>, NoMemory>
    ensures entries { IfOk result (λ v. map func_entry v.items ≡ ends.now.entries) }
    ensures ordered { IsOrdered nat_cmp ends.now }
{
    let mut all = Vec::with_capacity(alloc, ends.len())?;
    for (from, to) in ends {
        all.push(Func {
            from: *from,
            to: *to,
        })?;
    }
    Ok(all)
}

/// The functions: each start once, with its greatest end, ascending.
pub fn functions(
    alloc: Global,
    texts: &[TextRange],
    symbols: &Symbols,
) -> Result<Vec<Func>, NoMemory>
    requires fit { All IsText texts.now }
    requires rise { AllPairs (λ s t. text_end s ≤ t.from) texts.now }
    ensures { IfOk result (λ v. Lists (end_at texts.now symbols.now) (map func_entry v.items)) }
{
    let ends = ends(alloc, texts, symbols)?;
    let all = listed(alloc, &ends)?;
    Ok(all)
}
