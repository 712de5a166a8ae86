//! The image of a program's bytes.

ghost use Rattle.std.specs.Prelude.{◌≡◌, ◌⊎◌, IfOk, IfErr, IfSome};
ghost use Rattle.image.specs.Picture.{IsPaged};
ghost use Rattle.report.specs.declared.answer.Ended.{Ended};
ghost use Rattle.delivered.specs.Building.{IsBuilt, Refuses};

use elf_read::fault::ElfFault;
use elf_read::read::read_elf;
use image::picture::Image;
use oc_base::range::Range;
use relocs::build::build_image;
use relocs::fault::ImageFault;
use report::answer::{Ended, ProgramFault};
use std::alloc::Global;

/// The image of a program, with the region that is given or the default one. The first fault of the file is reported, or else that of the image.
pub fn build(alloc: Global, bytes: &[u8], region: Option<Range>) -> Result<Image, Ended>
    requires pages { IfSome region IsPaged }
    ensures image { IfOk result (IsBuilt bytes.now region) }
    ensures refusal { IfErr result (λ ended. Refuses bytes.now region ended ⊎ (ended ≡ Ended.NoMemory)) }
{
    let elf = match read_elf(alloc, bytes) {
        Ok(elf) => elf,
        Err(ElfFault::NoMemory) => return Err(Ended::NoMemory),
        Err(fault) => return Err(Ended::Program(ProgramFault::Elf(fault))),
    };
    let image = match build_image(alloc, &elf, region) {
        Ok(image) => image,
        Err(ImageFault::NoMemory) => return Err(Ended::NoMemory),
        Err(fault) => return Err(Ended::Program(ProgramFault::Image(fault))),
    };
    image.kept();
    Ok(image)
}
