//! The first bad program header, by the spans of the loaded segments before it.

ghost use Rattle.std.specs.Prelude.{◌≡◌, ◌<◌, ◌++◌, ◌∷◌, [], List, length, false, IfOk, IfSome};
ghost use Rattle.elf_read.specs.declared.tables.ProgramHeader.{ProgramHeader as Header};
ghost use Rattle.elf_read.specs.Faults.{is_bad, first_bad_segment};
ghost use Rattle.elf_read.specs.Spans.{is_unfit, AreSpansOf};

use crate::checks::is_loaded;
use crate::tables::ProgramHeader;
use finite::spans::Spans;
use oc_base::fault::NoMemory;
use std::alloc::Global;

/// Whether a segment has more bytes in the file than in memory, or passes the last address.
fn is_unfit(h: &ProgramHeader) -> bool
    ensures { result ≡ is_unfit h.now }
{
    h.file_size > h.memory_size || h.address as u128 + h.memory_size as u128 > 1 << 64
}

/// Whether a segment is bad after others. One that isn't joins them, if it is loaded.
fn is_bad(spans: &mut Spans, h: &ProgramHeader) -> Result<bool, NoMemory>
    ensures { IfOk result (λ bad. (earlier : List Header) → AreSpansOf earlier spans.old → (bad ≡ is_bad earlier h.now) × (bad ≡ false → AreSpansOf (earlier ++ h.now ∷ []) spans.new)) }
{
    if !is_loaded(h) {
        return Ok(false);
    }
    if is_unfit(h) {
        return Ok(true);
    }
    let last = h.address + (h.memory_size - 1);
    if spans.meet(h.address, last) {
        return Ok(true);
    }
    spans.insert(h.address, last)?;
    Ok(false)
}

/// The place of the first bad program header.
pub fn first_bad_segment(
    alloc: Global,
    headers: &[ProgramHeader],
) -> Result<Option<usize>, NoMemory>
    ensures first { IfOk result (λ place. place ≡ first_bad_segment headers.now) }
    ensures within { IfOk result (λ place. IfSome place (λ i. i < length headers.now)) }
{
    let mut spans = Spans::new(alloc);
    for i in 0..headers.len() {
        if is_bad(&mut spans, &headers[i])? {
            return Ok(Some(i));
        }
    }
    Ok(None)
}
