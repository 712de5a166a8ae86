//! Slots: stored addresses of functions in virtual tables.

ghost use Rattle.std.specs.Prelude.{◌≡◌, ℕ, ◌^◌, ◌<◌, ◌≤◌, ◌+◌, ◌==◌, ◌&&◌, length, map, filter, slice_get, All, AllPairs, IfOk, IfSome, slice_index, false};
ghost use Rattle.std.specs.Bool.{OnTrue};
ghost use Rattle.std.specs.List.Sorted.{IsNonDecreasingBy};
ghost use Rattle.std.specs.Option.{option_map_or};
ghost use Rattle.byteorder.specs.Endian.{little_number};
ghost use Rattle.finite.specs.Lists.{Lists};
ghost use Rattle.image.specs.Aims.{stored_in, stored_at, slot_at};
ghost use Rattle.image.specs.Picture.{IsPart};
ghost use Rattle.relocs.specs.Cover.{start_of, greatest_end, is_held};
ghost use Rattle.relocs.specs.Named.{is_table, is_tabled, is_kept, is_stored, aim_at, aim_entry, table_range};

use crate::aims::{Rule, aims};
use crate::cover::{is_held, sort_by_start, tops};
use elf_read::elf::{Symbol, Symbols};
use elf_read::tables::Reloc;
use image::funcs::func_from;
use image::ranges::{Aim, Func, Part};
use image::texts::part_at;
use oc_base::fault::NoMemory;
use std::alloc::Global;

fn byte_at(bytes: &[u8], i: usize) -> u64
    ensures is { result ≡ slice_index bytes.now i }
    ensures byte { result < 256 }
{
    match bytes.get(i) {
        Some(byte) => *byte as u64,
        None => 0,
    }
}

/// The first 8 bytes as a number: those past the end are zero.
fn number_of(b: &[u8]) -> u64
    ensures { result ≡ little_number 8 b.now }
{
    let low = byte_at(b, 0) + 256 * (byte_at(b, 1) + 256 * (byte_at(b, 2) + 256 * byte_at(b, 3)));
    let high = byte_at(b, 4) + 256 * (byte_at(b, 5) + 256 * (byte_at(b, 6) + 256 * byte_at(b, 7)));
    low + (1 << 32) * high
}

#[tactic(auto, unfolding(image::specs::Aims::stored_in), using(crate::proofs::SlotLemmas::drop_past))]
fn stored_in(at: u64, p: &Part) -> u64
    requires { p.now.range.from ≤ at }
    ensures { result ≡ stored_in at p.now }
{
    let bytes = p.bytes.as_slice();
    let past = at - p.range.from;
    if past >= bytes.len() as u64 {
        return 0;
    }
    number_of(&bytes[past as usize..])
}

/// The number in the 8 bytes from an address on, if they lie in one part.
#[tactic(auto, using(crate::proofs::SlotLemmas::stored_none, crate::proofs::SlotLemmas::stored_short, crate::proofs::SlotLemmas::stored_there))]
fn stored_at(parts: &[Part], at: u64) -> Option<u64>
    requires fit { All IsPart parts.now }
    requires rise { AllPairs (λ s t. s.range.to ≤ t.range.from) parts.now }
    ensures is { result ≡ stored_at parts.now at }
    ensures low { IfSome result (λ v. at < 0x08000000) }
{
    let p = part_at(parts, at)?;
    if p.range.to - at < 8 {
        return None;
    }
    Some(stored_in(at, p))
}

/// The function whose start is stored in the aligned 8 bytes at an address.
#[tactic(auto, unfolding(image::specs::Aims::slot_at))]
fn slot_at(parts: &[Part], funcs: &[Func], at: u64) -> Option<u32>
    requires fit { All IsPart parts.now }
    requires rise { AllPairs (λ s t. s.range.to ≤ t.range.from) parts.now }
    requires funcs_rise { AllPairs (λ f g. f.from < g.from) funcs.now }
    requires few { length funcs.now < 2 ^ 32 }
    ensures { result ≡ slot_at parts.now funcs.now at }
{
    if at % 8 != 0 {
        return None;
    }
    let value = stored_at(parts, at)?;
    func_from(funcs, value)
}

fn is_table(s: &Symbol) -> bool
    ensures { result ≡ is_table s.now }
{
    s.info % 16 == 1 && s.name.starts_with(b"_ZTV")
}

/// The ranges of the virtual tables.
#[tactic(auto, using(finite::proofs::Filtered::map_filter_more))]
fn table_ranges(alloc: Global, symbols: &Symbols) -> Result<Vec<(u64, u64)>, NoMemory>
    ensures { IfOk result (λ v. v.items ≡ map table_range (filter is_table symbols.now)) }
{
    let mut ranges = Vec::new(alloc);
    for i in 0..symbols.len() {
        let s = symbols.at(i);
        if is_table(&s) {
            ranges.push((s.value, s.value.saturating_add(s.size)))?;
        }
    }
    Ok(ranges)
}

/// The ranges of virtual tables by their starts, and the greatest end so far at each.
#[derive(Drop)]
struct Tables<'a> {
    symbols: &'a Symbols,
    ranges: Vec<(u64, u64)>,
    tops: Vec<u64>,
    ghost sorted: { IsNonDecreasingBy start_of ranges.items },
    ghost len: { length tops.items ≡ length ranges.items },
    ghost tops_are: { (k : ℕ) → k < length ranges.items → slice_index tops.items k ≡ greatest_end ranges.items (k + 1) },
    ghost same: { (a : ℕ) → a + 8 < 2 ^ 64 → is_tabled symbols.now a ≡ is_held ranges.items a (a + 8) },
}

fn tables_of(alloc: Global, symbols: &Symbols) -> Result<Tables<'_>, NoMemory>
    ensures { IfOk result (λ t. t.symbols.now ≡ symbols.now) }
{
    let mut ranges = table_ranges(alloc, symbols)?;
    sort_by_start(&mut ranges);
    let tops = tops(alloc, &ranges)?;
    Ok(Tables {
        symbols,
        ranges,
        tops,
    })
}

/// Whether the 8 bytes from an address on lie in a virtual table.
fn is_tabled(tables: &Tables<'_>, at: u64) -> bool
    requires { at < 0x08000000 }
    ensures { result ≡ is_tabled tables.now.symbols.now at }
{
    is_held(&tables.ranges, &tables.tops, at, at + 8)
}

/// Whether a symbol is a function's, of the value that is stored at an address.
fn is_kept(parts: &[Part], at: u64, s: &Symbol) -> bool
    requires fit { All IsPart parts.now }
    requires rise { AllPairs (λ s t. s.range.to ≤ t.range.from) parts.now }
    ensures is { result ≡ is_kept parts.now at s.now }
    ensures low { OnTrue result (at < 0x08000000) }
{
    if s.info % 16 != 2 {
        return false;
    }
    match stored_at(parts, at) {
        Some(value) => value == s.value,
        None => false,
    }
}

fn names_kept(parts: &[Part], symbols: &Symbols, r: &Reloc) -> bool
    requires fit { All IsPart parts.now }
    requires rise { AllPairs (λ s t. s.range.to ≤ t.range.from) parts.now }
    ensures is { result ≡ option_map_or (is_kept parts.now r.now.at) (slice_get symbols.now r.now.symbol) false }
    ensures low { OnTrue result (r.now.at < 0x08000000) }
{
    match symbols.get(r.symbol as usize) {
        Some(s) => is_kept(parts, r.at, &s),
        None => false,
    }
}

#[derive(Drop)]
struct SlotRule<'a> {
    parts: &'a [Part],
    funcs: &'a [Func],
    tables: Tables<'a>,
    ghost fit: { All IsPart parts.now },
    ghost rise: { AllPairs (λ s t. s.range.to ≤ t.range.from) parts.now },
    ghost funcs_rise: { AllPairs (λ f g. f.from < g.from) funcs.now },
    ghost few: { length funcs.now < 2 ^ 32 },
}

impl<'a> Rule for SlotRule<'a> {
    ghost takes = { λ s r. is_stored s.tables.symbols.now s.parts.now r };

    ghost aim = { λ s a. slot_at s.parts.now s.funcs.now a };

    #[tactic(auto, unfolding(crate::specs::Named::is_stored))]
    fn takes(&self, r: &Reloc) -> bool {
        if r.kind != 2 {
            return false;
        }
        if r.addend != 0 {
            return false;
        }
        if !names_kept(self.parts, self.tables.symbols, r) {
            return false;
        }
        is_tabled(&self.tables, r.at)
    }

    fn aim(&self, at: u64) -> Option<u32> {
        slot_at(self.parts, self.funcs, at)
    }
}

/// The slots, ascending.
pub fn slots(
    alloc: Global,
    parts: &[Part],
    funcs: &[Func],
    symbols: &Symbols,
    relocs: &[Reloc],
) -> Result<Vec<Aim>, NoMemory>
    requires fit { All IsPart parts.now }
    requires rise { AllPairs (λ s t. s.range.to ≤ t.range.from) parts.now }
    requires funcs_rise { AllPairs (λ f g. f.from < g.from) funcs.now }
    requires few { length funcs.now < 2 ^ 32 }
    ensures { IfOk result (λ v. Lists (aim_at (is_stored symbols.now parts.now) (slot_at parts.now funcs.now) relocs.now) (map aim_entry v.items)) }
{
    let tables = tables_of(alloc, symbols)?;
    let rule = SlotRule {
        parts,
        funcs,
        tables,
    };
    aims(alloc, &rule, relocs)
}
