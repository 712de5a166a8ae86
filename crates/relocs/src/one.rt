ghost use Rattle.std.specs.Prelude.{◌≡◌};
ghost use Rattle.oc_base.specs.declared.range.Range.{Range};
ghost use Rattle.elf_read.specs.declared.elf.Elf.{Elf};
ghost use Rattle.image.specs.Picture.{Picture};
ghost use Rattle.relocs.specs.Built.{IsImage};

/// Says that an executable and a region have one image. It does nothing.
pub fn one_image()
    ensures { (elf : Elf) (region : Range) (p q : Picture) → IsImage elf region p → IsImage elf region q → p ≡ q }
{}
