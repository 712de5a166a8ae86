//! What is read of a program's own file.

ghost use Rattle.std.specs.Prelude.{◌≡◌, ◌≢◌, ◌<◌, [], length, IfOk, IfErr, OnOk};
ghost use Rattle.elf_read.specs.declared.fault.ElfFault.TheVariants.{NoMemory, NoText};
ghost use Rattle.elf_make.specs.Parts.{elf_parts};

use crate::make::make_elf;
use elf_read::elf::Executable;
use elf_read::fault::ElfFault;
use elf_read::read::read_elf;
use rv_asm::program::Program;
use std::alloc::Global;

/// The parts of a program's file. A program without a word of text has none.
pub fn read_back(alloc: Global, p: &Program) -> Result<Executable, ElfFault>
    ensures parts { IfOk result (λ elf. elf ≡ elf_parts p.now) }
    ensures some { OnOk result (0 < length p.now.text) }
    ensures fault { IfErr result (λ e. e ≢ NoMemory → (e ≡ NoText) × (p.now.text ≡ [])) }
{
    let file = make_elf(alloc, p)?;
    read_elf(alloc, file.as_slice())
}
