//! The files and the images of guests.

ghost use Rattle.std.specs.Prelude.{IfSome};
ghost use Rattle.image.specs.Picture.{IsPaged};

use crate::guests::{guest, with_newlines};
use elf_make::make::make_elf;
use elf_read::read::read_elf;
use image::picture::Image;
use oc_base::range::Range;
use relocs::build::build_image;
use rv_asm::assemble::assemble;
use std::alloc::Global;
use std::test::Fail;

/// The number that hexadecimal digits say.
fn hex(word: &str) -> u64 {
    u64::from_str_radix(word, 16).unwrap_or(u64::MAX)
}

/// Puts a number into a file, such as `7c:4:2`: at 7c, in 4 bytes, the number 2.
fn put(file: &mut [u8], text: &str) {
    let (at, rest) = text.split_once(':').unwrap_or(("", ""));
    let (width, value) = rest.split_once(':').unwrap_or(("", ""));
    let (at, width) = (hex(at) as usize, hex(width) as usize);
    let bytes = hex(value).to_le_bytes();
    for i in 0..width.min(8) {
        if let Some(byte) = file.get_mut(at.wrapping_add(i)) {
            *byte = bytes[i];
        }
    }
}

/// Puts numbers into a file, such as `7c:4:2 a0:8:10`.
pub fn put_all(file: &mut [u8], text: &str) {
    for number in text.split_whitespace() {
        put(file, number);
    }
}

/// The file of a guest such as `line`, or `line with 7c:4:2`, which has other numbers in some places.
pub fn file_of(alloc: Global, what: &str) -> Result<Vec<u8>, Fail> {
    let (name, numbers) = what.split_once(" with ").unwrap_or((what, ""));
    let text = with_newlines(alloc, guest(name))?;
    if text.len() > 67_108_864 {
        return Err(Fail::new("too long"));
    }
    let Ok(program) = assemble(alloc, &text) else {
        return Err(Fail::new("no program"));
    };
    let mut file = make_elf(alloc, &program)?.into_vec();
    put_all(&mut file, numbers);
    Ok(file)
}

/// Whole pages such as `12000..13000`, in hexadecimal.
fn pages(text: &str) -> Option<Range>
    ensures { IfSome result IsPaged }
{
    let (from, to) = text.split_once("..")?;
    let (from, to) = (hex(from), hex(to));
    if from > to || from % 4096 != 0 || to % 4096 != 0 {
        return None;
    }
    Some(Range { from, to })
}

/// The image of a file such as `countdown`, or `countdown in 12000..13000`, whose region isn't the default one.
pub fn image_of(alloc: Global, what: &str) -> Result<Image, Fail> {
    let (name, region) = what.split_once(" in ").unwrap_or((what, ""));
    let file = file_of(alloc, name)?;
    let Ok(parts) = read_elf(alloc, &file) else {
        return Err(Fail::new("no executable"));
    };
    let Ok(image) = build_image(alloc, &parts, pages(region)) else {
        return Err(Fail::new("no image"));
    };
    Ok(image)
}
