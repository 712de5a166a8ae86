//! A program's image, and the names of its functions.

ghost use Rattle.std.specs.Prelude.{◌≡◌, ◌⊎◌, length, IfOk, IfErr, IfSome};
ghost use Rattle.image.specs.Picture.{IsPaged};
ghost use Rattle.elf_read.specs.Parts.{parts_of};
ghost use Rattle.delivered.specs.Building.{IsBuilt};
ghost use Rattle.look.specs.Decision.{names_in, Refuses};
ghost use Rattle.look.specs.declared.decision.Refusal.{Refusal};

use crate::decision::Refusal;
use elf_read::elf::Executable;
use elf_read::fault::ElfFault;
use elf_read::read::read_elf;
use func_names::names_of;
use image::picture::Image;
use oc_base::items::Items;
use oc_base::range::Range;
use relocs::build::build_image;
use relocs::fault::ImageFault;
use report::answer::ProgramFault;
use std::alloc::Global;

/// A program's image, and the names of its functions.
#[derive(Drop)]
pub(crate) struct Opened {
    pub(crate) image: Image,
    pub(crate) names: Vec<Items<u8>>,
}

// A program's file and its image.
#[derive(Drop)]
struct Parts {
    elf: Executable,
    image: Image,
}

// The parts and the image of a program, or its first fault.
fn parts_of(alloc: Global, bytes: &[u8], region: Option<Range>) -> Result<Parts, Refusal>
    requires pages { IfSome region IsPaged }
    ensures parts { IfOk result (λ program. program.elf ≡ parts_of bytes.now) }
    ensures image { IfOk result (λ program. IsBuilt bytes.now region program.image) }
    ensures refusal { IfErr result (λ refusal. Refuses bytes.now region refusal ⊎ (refusal ≡ Refusal.NoMemory)) }
{
    let elf = match read_elf(alloc, bytes) {
        Ok(elf) => elf,
        Err(ElfFault::NoMemory) => return Err(Refusal::NoMemory),
        Err(fault) => return Err(Refusal::Program(ProgramFault::Elf(fault))),
    };
    let image = match build_image(alloc, &elf, region) {
        Ok(image) => image,
        Err(ImageFault::NoMemory) => return Err(Refusal::NoMemory),
        Err(fault) => return Err(Refusal::Program(ProgramFault::Image(fault))),
    };
    image.kept();
    Ok(Parts { elf, image })
}

/// The image of a program and the names of its functions, or the program's first fault.
pub(crate) fn open_program(
    alloc: Global,
    bytes: &[u8],
    region: Option<Range>,
) -> Result<Opened, Refusal>
    requires pages { IfSome region IsPaged }
    ensures image { IfOk result (λ program. IsBuilt bytes.now region program.image) }
    ensures names { IfOk result (λ program. program.names.items ≡ names_in bytes.now program.image) }
    ensures count { IfOk result (λ program. length program.names.items ≡ length program.image.funcs) }
    ensures refusal { IfErr result (λ refusal. Refuses bytes.now region refusal ⊎ (refusal ≡ Refusal.NoMemory)) }
{
    let Parts { elf, image } = match parts_of(alloc, bytes, region) {
        Ok(parts) => parts,
        Err(refusal) => return Err(refusal),
    };
    image.kept();
    let Ok(names) = names_of(alloc, &elf.parts().symbols, image.funcs()) else {
        return Err(Refusal::NoMemory);
    };
    Ok(Opened { image, names })
}
