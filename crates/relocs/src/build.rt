//! The image of an executable.

ghost use Rattle.std.specs.Prelude.{◌≡◌, ◌≢◌, ◌<◌, ◌≤◌, ◌+◌, ◌^◌, ◌⊎◌, ℕ, List, All, AllPairs, length, map, IfOk, IfErr, IfSome, IsSome, OnOk, Some, None, find};
ghost use Rattle.std.specs.List.{flat_map};
ghost use Rattle.std.specs.Option.{option_copied};
ghost use Rattle.std.specs.List.Sorted.{IsNonDecreasingBy, IsPermutation};
ghost use Rattle.finite.specs.Lists.{Lists};
ghost use Rattle.elf_read.specs.Whole.{IsWhole, segment_end};
ghost use Rattle.image.specs.Texts.{text_start, text_end, word_at, targets};
ghost use Rattle.image.specs.Picture.{IsText, IsFunc, IsFree, IsPaged};
ghost use Rattle.relocs.specs.declared.fault.ImageFault.TheVariants.{NoMemory as WantOfMemory};
ghost use Rattle.relocs.specs.Functions.{end_at, func_entry};
ghost use Rattle.relocs.specs.Regions.{region_of};
ghost use Rattle.relocs.specs.Built.{texts_of, parts_in, has_headers, headers_of, fault_of, IsFaultless, IsImage};

use crate::checks::checked_texts;
use crate::fault::ImageFault;
use crate::functions::functions;
use crate::parts::sorted_parts;
use crate::region::default_region;
use crate::rules::{pairs, sites};
use crate::slots::slots;
use crate::texts::sort_texts;
use elf_read::elf::{Elf, Executable, Segment};
use image::picture::Image;
use image::ranges::{Func, Part, TextRange};
use oc_base::fault::NoMemory;
use oc_base::range::Range;
use std::alloc::Global;

/// What the text ranges of an executable without a fault keep. It does nothing.
fn text_laws(elf: &Elf, texts: &[TextRange], region: Range)
    requires whole { IsWhole elf.now }
    requires faultless { IsFaultless elf.now region }
    requires sorted { IsNonDecreasingBy text_start texts.now }
    requires same { IsPermutation (texts_of elf.now) texts.now }
    ensures fit { All IsText texts.now }
    ensures rise { AllPairs (λ s t. text_end s ≤ t.from) texts.now }
    ensures starts { AllPairs (λ s t. s.from < t.from) texts.now }
    ensures cuts { All (λ g. All (λ t. (text_end t ≤ g.at) ⊎ ((segment_end g ≤ t.from) ⊎ ((g.at ≤ t.from) × (text_end t ≤ segment_end g)))) texts.now) elf.now.segments }
    ensures entry { IsSome (word_at texts.now elf.now.entry) }
    ensures unaimed { All (λ a. (a < region.from) ⊎ (region.to ≤ a)) (targets texts.now) }
{}

/// What the functions keep. It does nothing.
fn func_laws(elf: &Elf, texts: &[TextRange], funcs: &[Func])
    requires fit { All IsText texts.now }
    requires listed { Lists (end_at texts.now elf.now.symbols) (map func_entry funcs.now) }
    ensures fit { All (IsFunc texts.now) funcs.now }
    ensures rise { AllPairs (λ f g. f.from < g.from) funcs.now }
    ensures few { length funcs.now < 2 ^ 32 }
{}

/// What the addresses of the region keep. It does nothing.
fn region_laws(elf: &Elf, texts: &[TextRange], parts: &[Part], region: Range)
    requires whole { IsWhole elf.now }
    requires faultless { IsFaultless elf.now region }
    requires texts { IsPermutation (texts_of elf.now) texts.now }
    requires parts { IsPermutation (flat_map (parts_in texts.now) elf.now.segments) parts.now }
    ensures { (a : ℕ) → region.from ≤ a → a < region.to → IsFree texts.now parts.now a }
{}

fn has_headers(elf: &Elf, g: &Segment) -> bool
    ensures { result ≡ has_headers elf.now g.now }
{
    let end = elf.phoff as u128 + 56 * elf.phnum as u128;
    g.offset <= elf.phoff && end <= g.offset as u128 + g.bytes.len() as u128
}

fn header_segment<'a>(elf: &Elf, segments: &'a [Segment]) -> Option<&'a Segment>
    ensures first { option_copied result ≡ find (has_headers elf.now) segments.now }
    ensures from { IfSome result (λ g. g.now.offset ≤ elf.now.phoff) }
    ensures to { IfSome result (λ g. elf.now.phoff ≤ g.now.offset + length g.now.bytes) }
{
    segments.iter().find(|g| has_headers(elf, g))
}

/// The address of the program headers and their number, both 0 where no segment holds them.
#[tactic(auto, unfolding(crate::specs::Built::headers_of), using(crate::proofs::Builds::place_fits))]
fn headers_of(elf: &Elf) -> (u64, u64)
    requires { IsWhole elf.now }
    ensures { result ≡ headers_of elf.now }
{
    match header_segment(elf, elf.segments.as_slice()) {
        Some(g) => (g.at + (elf.phoff - g.offset), elf.phnum as u64),
        None => (0, 0),
    }
}

/// The image that the text ranges in order make.
fn image_of(
    alloc: Global,
    elf: &Elf,
    texts: Vec<TextRange>,
    region: Range,
) -> Result<Image, NoMemory>
    requires whole { IsWhole elf.now }
    requires faultless { IsFaultless elf.now region }
    requires pages { IsPaged region }
    requires sorted { IsNonDecreasingBy text_start texts.items }
    requires same { IsPermutation (texts_of elf.now) texts.items }
    ensures { IfOk result (IsImage elf.now region) }
{
    let segments = elf.segments.as_slice();
    let symbols = &elf.symbols;
    let entries = elf.relocs.distinct(alloc)?;
    let relocs = entries.as_slice();
    let lines = texts.as_slice();
    text_laws(elf, lines, region);
    let parts = sorted_parts(alloc, segments, lines)?;
    let data = parts.as_slice();
    region_laws(elf, lines, data, region);
    let funcs = functions(alloc, lines, symbols)?;
    let code = funcs.as_slice();
    func_laws(elf, lines, code);
    let sites = sites(alloc, lines, code, relocs)?;
    let pairs = pairs(alloc, lines, code, elf.entry, relocs)?;
    let slots = slots(alloc, data, code, symbols, relocs)?;
    let headers = headers_of(elf);
    Ok(Image::of(
        texts, parts, elf.entry, region, funcs, sites, pairs, slots, headers,
    ))
}

fn region_of(elf: &Elf, region: Option<Range>) -> Range
    requires whole { IsWhole elf.now }
    requires pages { IfSome region IsPaged }
    ensures is { result ≡ region_of elf.now region }
    ensures pages { IsPaged result }
{
    match region {
        Some(region) => region,
        None => default_region(elf.segments.as_slice()),
    }
}

/// The image of an executable and a region for moved code, or the first fault with its address.
///
/// The region's ends are multiples of 4096. Without one it has 524288 bytes and begins 4096 past the highest end of a
/// segment, which is rounded up to 4096 first.
pub fn build_image(
    alloc: Global,
    elf: &Executable,
    region: Option<Range>,
) -> Result<Image, ImageFault>
    requires { IfSome region IsPaged }
    ensures none { OnOk result (fault_of elf.now (region_of elf.now region) ≡ None) }
    ensures image { IfOk result (IsImage elf.now (region_of elf.now region)) }
    ensures fault { IfErr result (λ e. e ≢ WantOfMemory → fault_of elf.now (region_of elf.now region) ≡ Some e) }
{
    elf.kept();
    let elf = elf.parts();
    let region = region_of(elf, region);
    let mut texts = checked_texts(alloc, elf, region)?;
    sort_texts(&mut texts);
    let image = image_of(alloc, elf, texts, region)?;
    Ok(image)
}
