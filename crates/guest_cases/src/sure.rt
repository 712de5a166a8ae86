//! Files in memory that can always be read.

ghost use Rattle.std.specs.Prelude.{◌≡◌, [], Some, None};
ghost use Rattle.std.specs.Option.{option_map};
ghost use Rattle.oc_base.specs.Table.{newest_in};
ghost use Rattle.guest_cases.specs.Sure.{filled};

use oc_base::fault::{Failed, TakeFault};
use oc_base::files::Files;
use oc_base::memory::MemFiles;
use std::alloc::Global;

/// Files in memory none of whose calls is made to fail. A file that isn't there has no bytes, so no file fails to be read.
#[derive(Drop)]
pub struct SureFiles {
    files: MemFiles,
    ghost sure: { files.calls.fails.items ≡ [] },
}

impl SureFiles {
    /// These files.
    pub fn new(files: Vec<(String, Vec<u8>)>) -> Self
        ensures disk { ⟦<SureFiles as Files>⟧.disk result ≡ Some (filled (newest_in files.items)) }
    {
        let none = Vec::new(*files.allocator());
        SureFiles {
            files: MemFiles::new(files, none),
        }
    }
}

impl Files for SureFiles {
    ghost disk = { λ s. option_map filled (⟦<MemFiles as Files>⟧.disk s.files) };

    ghost asked = { λ s. ⟦<MemFiles as Files>⟧.asked s.files };

    ghost take_faults = { λ _. None };

    ghost put_faults = { λ s. ⟦<MemFiles as Files>⟧.put_faults s.files };

    fn take(&mut self, alloc: Global, name: &str, limit: usize) -> Result<Vec<u8>, TakeFault> {
        match self.files.take(alloc, name, limit) {
            Ok(bytes) => Ok(bytes),
            Err(TakeFault::Failed) => Ok(Vec::new(alloc)),
            Err(TakeFault::TooLong) => Err(TakeFault::TooLong),
            Err(TakeFault::NoMemory) => Err(TakeFault::NoMemory),
        }
    }

    fn put(&mut self, name: &str, bytes: &[u8]) -> Result<(), Failed> {
        self.files.put(name, bytes)
    }
}
