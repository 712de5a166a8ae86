//! The pieces of an image.

ghost use Rattle.std.specs.Prelude.{◌≡◌, IfOk, map};

use finite::search::{Keyed, Spanned};
use oc_base::fault::NoMemory;
use oc_base::items::Items;
use oc_base::range::Range;
use std::alloc::Global;

/// A function's range of addresses.
#[derive(Clone, Copy, Debug, PartialEq, Eq)]
pub struct Func {
    pub from: u64,
    pub to: u64,
}

impl Keyed for Func {
    ghost use Rattle.image.specs.Aims.{func_start};

    ghost key = { func_start };

    fn key(&self) -> u64 {
        self.from
    }
}

/// A place that names a function, by the function's number.
#[derive(Clone, Copy, Debug, PartialEq, Eq)]
pub struct Aim {
    pub at: u64,
    pub func: u32,
}

impl Keyed for Aim {
    ghost use Rattle.image.specs.Aims.{aim_place};

    ghost key = { aim_place };

    fn key(&self) -> u64 {
        self.at
    }
}

/// The words of one text section, from an address on.
#[derive(Debug, Drop)]
pub struct TextRange {
    pub from: u64,
    pub words: Items<u32>,
}

impl Keyed for TextRange {
    ghost use Rattle.image.specs.Texts.{text_start};

    ghost key = { text_start };

    fn key(&self) -> u64 {
        self.from
    }
}

impl Spanned for TextRange {
    ghost use Rattle.image.specs.Texts.{text_end};

    ghost end = { text_end };

    fn end(&self) -> u64 {
        self.from + 4 * self.words.len() as u64
    }
}

impl TextRange {
    pub fn copy(&self, alloc: Global) -> Result<TextRange, NoMemory>
        ensures { IfOk result (λ t. t ≡ self.now) }
    {
        Ok(TextRange {
            from: self.from,
            words: Items::from_slice(alloc, self.words.as_slice())?,
        })
    }
}

/// Data and what may be done with it. The bytes of the range past `bytes` are zero.
#[derive(Debug, Drop)]
pub struct Part {
    pub range: Range,
    pub read: bool,
    pub write: bool,
    pub bytes: Items<u8>,
}

impl Keyed for Part {
    ghost use Rattle.image.specs.Aims.{part_start};

    ghost key = { part_start };

    fn key(&self) -> u64 {
        self.range.from
    }
}

impl Spanned for Part {
    ghost use Rattle.image.specs.Aims.{part_end};

    ghost end = { part_end };

    fn end(&self) -> u64 {
        self.range.to
    }
}

impl Part {
    pub fn copy(&self, alloc: Global) -> Result<Part, NoMemory>
        ensures { IfOk result (λ p. p ≡ self.now) }
    {
        Ok(Part {
            range: self.range,
            read: self.read,
            write: self.write,
            bytes: Items::from_slice(alloc, self.bytes.as_slice())?,
        })
    }
}
