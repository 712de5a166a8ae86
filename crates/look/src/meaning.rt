//! What a fault of a program's file means, in words.

ghost use Rattle.std.specs.Prelude.{◌≡◌, ◌++◌, string_bytes, IfOk};
ghost use Rattle.look.specs.Meaning.{elf_meaning, image_meaning, meaning};

use elf_read::fault::ElfFault;
use relocs::fault::ImageFault;
use report::answer::ProgramFault;
use std::alloc::{AllocError, Global};

fn elf_meaning(alloc: Global, fault: ElfFault) -> Result<String, AllocError>
    ensures { IfOk result (λ text. string_bytes text ≡ elf_meaning fault) }
{
    match fault {
        ElfFault::NotElf => {
            String::from_str(alloc, "no ELF file: name the program that the linker made")
        }
        ElfFault::NotRiscv64Exec => String::from_str(
            alloc,
            "no RISC-V executable at fixed addresses: link for riscv64 with -static",
        ),
        ElfFault::Compressed => String::from_str(
            alloc,
            "compressed instructions: build with -march=rv64ima, the C library too",
        ),
        ElfFault::FloatAbi => String::from_str(
            alloc,
            "a floating-point ABI: build with -mabi=lp64, the C library too",
        ),
        ElfFault::Truncated(offset) => {
            format!(in alloc;
                "the file ends before what stands at its byte {offset}: copy or link it again"
            )
        }
        ElfFault::BadSegment(index) => {
            format!(in alloc; "segment {index} doesn't fit: the file is damaged, link it again")
        }
        ElfFault::TooLarge => String::from_str(
            alloc,
            "a segment lies outside 0x1000..0x8000000, or there are more than 16 MiB of text: link it lower with -Wl,-Ttext-segment=0x10000 (lld: -Wl,--image-base=0x10000), or link less",
        ),
        ElfFault::NoText => String::from_str(alloc, "no section of text: keep the section headers"),
        ElfFault::NoSymbols => String::from_str(
            alloc,
            "no symbol table: don't strip the file; strip -g leaves it",
        ),
        ElfFault::NoMemory => String::from_str(alloc, "out of memory"),
    }
}

fn image_meaning(alloc: Global, fault: ImageFault) -> Result<String, AllocError>
    ensures { IfOk result (λ text. string_bytes text ≡ image_meaning fault) }
{
    match fault {
        ImageFault::TextMisaligned(at) => {
            format!(in alloc;
                "the text section at 0x{at:x} isn't whole words: keep bytes out of it"
            )
        }
        ImageFault::TextOutside(at) => {
            format!(in alloc;
                "the text section at 0x{at:x} is in no segment of the file, or meets another one: link it again"
            )
        }
        ImageFault::EntryOutside(at) => {
            format!(in alloc;
                "the entry 0x{at:x} is no word of text: name a function by -Wl,-e,_start"
            )
        }
        ImageFault::RegionOverlap(at) => {
            format!(in alloc;
                "the region for moved code isn't free at 0x{at:x}: name another by --region BASE:SIZE"
            )
        }
        ImageFault::RegionAimed(at) => {
            format!(in alloc;
                "the jump at 0x{at:x} goes into the region for moved code: name another by --region BASE:SIZE"
            )
        }
        ImageFault::NoMemory => String::from_str(alloc, "out of memory"),
    }
}

/// What a fault means, and what to do.
pub(crate) fn meaning(alloc: Global, fault: ProgramFault) -> Result<String, AllocError>
    ensures { IfOk result (λ text. string_bytes text ≡ meaning fault) }
{
    match fault {
        ProgramFault::Elf(fault) => elf_meaning(alloc, fault),
        ProgramFault::Image(fault) => image_meaning(alloc, fault),
    }
}
