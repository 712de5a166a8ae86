//! A chain of blocks.

ghost use Rattle.std.specs.Prelude.{◌≡◌, ◌<◌, ◌-◌, ◌++◌, [], ◌∷◌, ℕ, List, true, false, IfOk, OnOk, MatchOption, length, slice_index};
ghost use Rattle.place_blocks.specs.Chains.{ends};
ghost use Rattle.place_blocks.specs.Slots.{is_full};

use oc_base::fault::NoMemory;
use std::alloc::Global;
use std::collections::VecDeque;
use std::marker::Model;

/// The numbers of blocks, one after another. Contracts see it as a list.
#[derive(Drop)]
pub struct Chain {
    blocks: VecDeque<u32>,
}

impl Model for Chain {
    ghost Value = { List ℕ };

    ghost view = { λ c. c.blocks.items };
}

/// Moves the blocks of the second to the end of the first.
fn append(first: VecDeque<u32>, second: VecDeque<u32>) -> Result<VecDeque<u32>, NoMemory>
    ensures { IfOk result (λ all. all.items ≡ first.items ++ second.items) }
{
    let mut all = first;
    let mut rest = second;
    all.append(&mut rest)?;
    Ok(all)
}

/// Moves the last block of the first to the front of the second.
fn move_one(first: &mut VecDeque<u32>, second: &mut VecDeque<u32>) -> Result<(), NoMemory>
    ensures same { OnOk result (first.new.items ++ second.new.items ≡ first.old.items ++ second.old.items) }
    ensures len { OnOk result (length first.new.items ≡ length first.old.items - 1) }
{
    let Some(block) = first.pop_back() else {
        return Ok(());
    };
    second.push_front(block)?;
    Ok(())
}

/// Moves the blocks of the first to the front of the second.
fn prepend(first: VecDeque<u32>, second: VecDeque<u32>) -> Result<VecDeque<u32>, NoMemory>
    ensures { IfOk result (λ all. all.items ≡ first.items ++ second.items) }
{
    let mut rest = first;
    let mut all = second;
    for _ in 0..rest.len() {
        move_one(&mut rest, &mut all)?;
    }
    Ok(all)
}

/// Moves the blocks of the shorter one.
fn concatenate(first: VecDeque<u32>, second: VecDeque<u32>) -> Result<VecDeque<u32>, NoMemory>
    ensures { IfOk result (λ all. all.items ≡ first.items ++ second.items) }
{
    if first.len() < second.len() {
        return prepend(first, second);
    }
    append(first, second)
}

impl Chain {
    /// The chain of no block. It takes no memory.
    pub fn new(alloc: Global) -> Chain
        ensures { result ≡ [] }
    {
        Chain {
            blocks: VecDeque::new(alloc),
        }
    }

    pub fn single(alloc: Global, block: u32) -> Result<Chain, NoMemory>
        ensures { IfOk result (λ c. c ≡ block ∷ []) }
    {
        let mut blocks = VecDeque::new(alloc);
        blocks.push_back(block)?;
        Ok(Chain { blocks })
    }

    pub fn is_full(&self) -> bool
        ensures { result ≡ is_full self.now }
    {
        self.blocks.len() != 0
    }

    pub fn len(&self) -> usize
        ensures { result ≡ length self.now }
    {
        self.blocks.len()
    }

    /// A block by its place.
    pub fn at(&self, i: usize) -> u32
        requires { i < length self.now }
        ensures { result ≡ slice_index self.now i }
    {
        self.blocks[i]
    }

    pub fn last(&self) -> Option<u32>
        ensures { MatchOption result (is_full self.now ≡ false) (λ a. ends a self.now ≡ true) }
    {
        let count = self.len();
        if count == 0 {
            return None;
        }
        Some(self.at(count - 1))
    }

    pub fn ends(&self, block: u32) -> bool
        ensures { result ≡ ends block self.now }
    {
        let count = self.len();
        if count == 0 {
            return false;
        }
        self.at(count - 1) == block
    }

    /// Adds the blocks of another chain at the end. Those of the shorter one move.
    pub fn extend(&mut self, alloc: Global, tail: Chain) -> Result<(), NoMemory>
        ensures { OnOk result (self.new ≡ self.old ++ tail) }
    {
        let Chain { blocks: second } = tail;
        let first = std::mem::replace(&mut self.blocks, VecDeque::new(alloc));
        self.blocks = concatenate(first, second)?;
        Ok(())
    }
}
