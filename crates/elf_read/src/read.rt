//! An executable, from its bytes.

ghost use Rattle.std.specs.Prelude.{◌≡◌, ◌≢◌, IfOk, IfErr, OnOk, Some, None};
ghost use Rattle.elf_read.specs.declared.fault.ElfFault.TheVariants.{NoMemory};
ghost use Rattle.elf_read.specs.Faults.{fault_of};
ghost use Rattle.elf_read.specs.Parts.{parts_of};

use crate::elf::Executable;
use crate::fault::ElfFault;
use crate::reading::tables_of;
use crate::whole::parts_of;
use std::alloc::Global;

/// The parts of an executable, or the first fault of its bytes.
pub fn read_elf(alloc: Global, bytes: &[u8]) -> Result<Executable, ElfFault>
    ensures none { OnOk result (fault_of bytes.now ≡ None) }
    ensures parts { IfOk result (λ elf. elf ≡ parts_of bytes.now) }
    ensures fault { IfErr result (λ e. e ≢ NoMemory → fault_of bytes.now ≡ Some e) }
{
    let tables = tables_of(alloc, bytes)?;
    let elf = parts_of(alloc, bytes, &tables)?;
    Ok(Executable::of(elf))
}
