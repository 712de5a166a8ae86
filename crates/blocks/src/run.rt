//! Basic blocks.

ghost use Rattle.std.specs.Prelude.{◌≡◌};

use crate::word::Word;
use oc_base::items::Items;
use oc_base::range::Range;
use std::marker::Model;

/// A basic block with its words, from `from` up to, but not with, `to`.
#[derive(Debug, Drop)]
pub struct Run {
    pub from: u64,
    pub to: u64,
    /// Whether the word after the last one may come next by itself: the last is no branch and no jump without a link.
    pub falls: bool,
    pub words: Items<Word>,
}

/// A basic block.
#[derive(Clone, Copy, Debug, PartialEq, Eq)]
pub struct Block {
    pub range: Range,
    /// Whether the word after the last one may come next by itself: the last is no branch and no jump without a link.
    pub falls: bool,
}

/// The basic blocks of a function, ascending. Contracts see them as a list.
#[derive(Debug, Drop)]
pub struct Blocks {
    list: Items<Block>,
}

impl Model for Blocks {
    ghost use Rattle.std.specs.Prelude.{List};
    ghost use Rattle.blocks.specs.declared.run.Block.{Block as BlockData};

    ghost Value = { List BlockData };

    ghost view = { λ b. b.list };
}

impl Blocks {
    /// These blocks. It takes no memory.
    pub fn of(list: Vec<Block>) -> Blocks
        ensures { result ≡ list.items }
    {
        Blocks {
            list: Items::from_vec(list),
        }
    }

    pub fn list(&self) -> &[Block]
        ensures { result.now ≡ self.now }
    {
        self.list.as_slice()
    }
}
