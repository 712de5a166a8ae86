//! Positions that are marked, and those of them whose layouts are yet to be followed.

ghost use Rattle.std.specs.Prelude.{◌≡◌, ℕ, ◌<◌, [], length, OnOk, IfOk};
ghost use Rattle.layout.specs.Apart.{LiesIn};
ghost use Rattle.retire.specs.References.{PointInto};
ghost use Rattle.retire.specs.Marks.{Marked};

use crate::index::Index;
use oc_base::fault::NoMemory;
use std::alloc::Global;

/// Which positions are marked, and those of them that wait.
#[derive(Drop)]
pub struct Marks {
    pub marked: Vec<bool>,
    pub waiting: Vec<usize>,
}

impl Marks {
    ghost use Rattle.retire.specs.Marks.{IsMarked, Marked};

    /// None of so many positions is marked.
    pub fn none(alloc: Global, count: usize) -> Result<Marks, NoMemory>
        ensures size { IfOk result (λ m. length m.marked.items ≡ count) }
        ensures marked { IfOk result (λ m. (k : ℕ) → IsMarked m.marked.items k → ⊥) }
        ensures waiting { IfOk result (λ m. m.waiting.items ≡ []) }
    {
        Ok(Marks {
            marked: vec![in alloc; false; count]?,
            waiting: Vec::new(alloc),
        })
    }

    fn mark(&mut self, k: usize) -> Result<(), NoMemory>
        requires { k < length self.old.marked.items }
        ensures { OnOk result (Marked (λ i. i ≡ k) self.old self.new) }
    {
        if self.marked[k] {
            return Ok(());
        }
        self.waiting.push(k)?;
        self.marked[k] = true;
        Ok(())
    }

    /// Marks the layout that holds an address.
    fn mark_holder(&mut self, index: &Index, at: u64) -> Result<(), NoMemory>
        requires { length self.old.marked.items ≡ length index.now.lives.now }
        ensures { OnOk result (Marked (LiesIn index.now.lives.now at) self.old self.new) }
    {
        let Some(k) = index.holder_of(at) else {
            return Ok(());
        };
        self.mark(k)?;
        Ok(())
    }

    /// Marks each layout that holds one of these addresses.
    pub fn mark_holders(&mut self, index: &Index, addresses: &[u64]) -> Result<(), NoMemory>
        requires { length self.old.marked.items ≡ length index.now.lives.now }
        ensures { OnOk result (Marked (PointInto index.now.lives.now addresses.now) self.old self.new) }
    {
        for at in addresses {
            self.mark_holder(index, *at)?;
        }
        Ok(())
    }
}
