//! What a text stands for.

ghost use Rattle.std.specs.Prelude.{◌≤◌, ◌<◌, ◌+◌, ◌*◌, ◌^◌, length};
ghost use Rattle.std.specs.List.{All, sum_by};
ghost use Rattle.rv_asm.specs.Kept.{IsSound, symbol_size};

use crate::symbol::{Fixup, Named};
use oc_base::items::Items;

/// A program: words of text from 0x10000 on, bytes of data from the text's end on, rounded up to 4096, the entry,
/// functions and objects in the order of the text, and relocations.
///
/// It keeps that text and data have at most 16777216 bytes each, that no range ends before it begins, that names
/// hold no zero byte and take fewer than 2^31 bytes in a table of strings, and that each relocation names a function.
#[derive(Debug, Drop)]
pub struct Program {
    pub text: Items<u32>,
    pub bytes: Items<u8>,
    pub entry: u64,
    pub funcs: Items<Named>,
    pub objects: Items<Named>,
    pub fixups: Items<Fixup>,
    ghost text_limit: { 4 * length text ≤ 16777216 },
    ghost data_limit: { length bytes ≤ 16777216 },
    ghost sound_funcs: { All IsSound funcs },
    ghost sound_objects: { All IsSound objects },
    ghost short_names: { sum_by symbol_size funcs + sum_by symbol_size objects < 2 ^ 31 },
    ghost aims: { All (λ f. f.func < length funcs) fixups },
}
