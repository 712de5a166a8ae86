//! The names of a text.

ghost use Rattle.std.specs.Prelude.{◌≡◌, [], OnOk};
ghost use Rattle.asm_text.specs.Keywords.{lookup};
ghost use Rattle.rv_asm.specs.Names.{add};

use crate::meaning::Meaning;
use indexmap::IndexMap;
use oc_base::fault::NoMemory;
use std::alloc::Global;
use std::marker::Model;

/// The names, in the order in which they are given; the first meaning of a name holds.
#[derive(Drop)]
pub struct Names {
    table: IndexMap<Vec<u8>, Meaning>,
}

impl Model for Names {
    ghost use Rattle.std.specs.Prelude.{ℕ, List, map};
    ghost use Rattle.rv_asm.specs.declared.meaning.Meaning.{Meaning};

    ghost Value = { List (List ℕ × Meaning) };

    ghost view = { λ n. map (λ e. (e.0.items, e.1)) n.table.entries };
}

impl Names {
    pub fn new(alloc: Global) -> Names
        ensures { result ≡ [] }
    {
        Names {
            table: IndexMap::new(alloc),
        }
    }

    pub fn get(&self, name: &[u8]) -> Option<Meaning>
        ensures { result ≡ lookup self.now name.now }
    {
        self.table.get(name).copied()
    }

    /// Adds a name, unless it is there.
    pub(crate) fn add(
        &mut self,
        alloc: Global,
        name: &[u8],
        meaning: Meaning,
    ) -> Result<(), NoMemory>
        ensures { OnOk result (self.new ≡ add self.old name.now meaning) }
    {
        match self.get(name) {
            Some(_) => Ok(()),
            None => {
                let name = Vec::from_slice(alloc, name)?;
                self.table.insert(name, meaning)?;
                Ok(())
            }
        }
    }
}
