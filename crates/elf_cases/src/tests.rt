//! Small executables, whole and mangled: what their images hold, or their first fault.
//!
//! All numbers in tables are hexadecimal, but for those of answers.

ghost use Rattle.std.specs.Prelude.{IfSome};
ghost use Rattle.image.specs.Picture.{IsPaged};

use elf_read::read::read_elf;
use image::picture::Image;
use image::ranges::Aim;
use oc_base::range::Range;
use relocs::build::build_image;
use std::alloc::{AllocError, Global};
use std::test::Fail;

/// Calls `f` through a virtual table. Each line of a file says how many bytes its numbers have, and the numbers.
const VTABLE: &str = "\
identification: 1 7f 45 4c 46 2 1 1 0 0 0 0 0 0 0 0 0
an executable, for RISC-V: 2 2 f3
version: 4 1
entry, program headers, section headers: 8 10000 40 168
flags: 4 0
sizes and counts of headers: 2 40 38 2 40 6 0
program header of text: 8 500000001 b0 10000 10000 24 24 1000
program header of data: 8 600000001 d8 11000 11000 8 8 1000
text: 4 11437 43283 280e7 43283 280e7 5d00893 73 550513 8067 0
data: 8 1001c
no symbol: 8 0 0 0
symbol main: 8 1000200000001 10000 1c
symbol f: 8 1000200000006 1001c 8
symbol _ZTV1F: 8 2000100000008 11000 8
names: 1 0 6d 61 69 6e 0 66 0 5f 5a 54 56 31 46 0 0
relocation: 8 11000 200000002 0
no section: 8 0 0 0 0 0 0 0 0
section of text: 8 100000000 6 10000 b0 24 0 0 0
section of data: 8 100000000 3 11000 d8 8 0 0 0
section of symbols: 8 200000000 0 0 e0 60 4 0 0
section of names: 8 300000000 0 0 140 f 0 0 0
section of relocations: 8 400000000 0 0 150 18 3 0 0
";

/// Calls `leaf` by an AUIPC and a JALR, and jumps to the JALR.
const PAIR: &str = "\
identification: 1 7f 45 4c 46 2 1 1 0 0 0 0 0 0 0 0 0
an executable, for RISC-V: 2 2 f3
version: 4 1
entry, program headers, section headers: 8 10000 40 100
flags: 4 0
sizes and counts of headers: 2 40 38 1 40 5 0
program header of text: 8 500000001 78 10000 10000 18 18 1000
text: 4 102b7 1028067 13 97 8080e7 8067
no symbol: 8 0 0 0
symbol main: 8 1000200000001 10000 14
symbol leaf: 8 1000200000006 10014 4
names: 1 0 6d 61 69 6e 0 6c 65 61 66 0 0 0 0 0 0
relocation: 8 1000c 200000013 0
no section: 8 0 0 0 0 0 0 0 0
section of text: 8 100000000 6 10000 78 18 0 0 0
section of symbols: 8 200000000 0 0 90 48 3 0 0
section of names: 8 300000000 0 0 d8 b 0 0 0
section of relocations: 8 400000000 0 0 e8 18 2 0 0
";

/// Calls `work` twice, which counts down.
const COUNTDOWN: &str = "\
identification: 1 7f 45 4c 46 2 1 1 0 0 0 0 0 0 0 0 0
an executable, for RISC-V: 2 2 f3
version: 4 1
entry, program headers, section headers: 8 10000 40 128
flags: 4 0
sizes and counts of headers: 2 40 38 1 40 5 0
program header of text: 8 500000001 78 10000 10000 28 28 1000
text: 4 10000ef c000ef 5d00893 73 200293 fff28293 fe029ee3 317 3f37513 8067
no symbol: 8 0 0 0
symbol main: 8 1000200000001 10000 10
symbol work: 8 1000200000006 10010 18
names: 1 0 6d 61 69 6e 0 77 6f 72 6b 0 0 0 0 0 0
relocation: 8 10000 200000011 0
relocation: 8 10004 200000011 0
no section: 8 0 0 0 0 0 0 0 0
section of text: 8 100000000 6 10000 78 28 0 0 0
section of symbols: 8 200000000 0 0 a0 48 3 0 0
section of names: 8 300000000 0 0 e8 b 0 0 0
section of relocations: 8 400000000 0 0 f8 30 2 0 0
";

fn number_of(word: Option<&str>) -> u64 {
    u64::from_str_radix(word.unwrap_or(""), 16).unwrap_or(0)
}

/// Adds the numbers of a line, of which the first says how many bytes each of the others has.
fn put_line(file: &mut Vec<u8>, line: &str) -> Result<(), AllocError> {
    let mut words = line.split_whitespace();
    let width = number_of(words.next()) as usize;
    for word in words {
        let bytes = number_of(Some(word)).to_le_bytes();
        file.extend_from_slice(bytes.get(..width).unwrap_or(&[]))?;
    }
    Ok(())
}

/// The bytes of a file.
fn file(alloc: Global, lines: &str) -> Result<Vec<u8>, AllocError> {
    let mut file = Vec::new(alloc);
    for line in lines.lines() {
        let (_, numbers) = line.split_once(": ").unwrap_or(("", ""));
        put_line(&mut file, numbers)?;
    }
    Ok(file)
}

/// Writes a number of so many bytes at a place.
fn put(file: &mut [u8], at: usize, width: usize, value: u64) {
    let bytes = value.to_le_bytes();
    for i in 0..width.min(8) {
        if let Some(byte) = file.get_mut(at.wrapping_add(i)) {
            *byte = bytes[i];
        }
    }
}

/// A file with changes, each a place, a number of bytes and their value.
fn changed(alloc: Global, file: &[u8], changes: &str) -> Result<Vec<u8>, AllocError> {
    let mut new = Vec::from_slice(alloc, file)?;
    for change in changes.split(',') {
        let mut words = change.split_whitespace();
        let at = number_of(words.next());
        let width = number_of(words.next());
        let value = number_of(words.next());
        put(&mut new, at as usize, width as usize, value);
    }
    Ok(new)
}

fn counts(alloc: Global, image: &Image) -> Result<String, AllocError> {
    let (funcs, sites) = (image.funcs().len(), image.sites().len());
    let (pairs, slots) = (image.pairs().len(), image.slots().len());
    format!(in alloc; "{funcs} functions, {sites} sites, {pairs} pairs, {slots} slots")
}

/// The image of a file, or the text of its fault.
fn image_of(
    alloc: Global,
    file: &[u8],
    region: Option<Range>,
) -> Result<Result<Image, String>, AllocError>
    requires { IfSome region IsPaged }
{
    let elf = match read_elf(alloc, file) {
        Ok(elf) => elf,
        Err(fault) => return Ok(Err(format!(in alloc; "{fault:?}")?)),
    };
    match build_image(alloc, &elf, region) {
        Ok(image) => Ok(Ok(image)),
        Err(fault) => Ok(Err(format!(in alloc; "{fault:?}")?)),
    }
}

/// The fault of a file, or how many functions, sites, pairs and slots its image has.
fn answer(alloc: Global, file: &[u8], region: Option<Range>) -> Result<String, AllocError>
    requires { IfSome region IsPaged }
{
    match image_of(alloc, file, region)? {
        Ok(image) => counts(alloc, &image),
        Err(fault) => Ok(fault),
    }
}

/// The first case with another answer than is wanted, with that answer.
fn first_wrong<'a>(
    alloc: Global,
    lines: &str,
    cases: &'a str,
) -> Result<Option<(&'a str, String)>, AllocError> {
    let whole = file(alloc, lines)?;
    for case in cases.lines() {
        let (_, rest) = case.split_once(": ").unwrap_or(("", ""));
        let (changes, want) = rest.split_once("= ").unwrap_or(("", ""));
        let got = answer(alloc, &changed(alloc, &whole, changes)?, None)?;
        if got.as_str() != want {
            return Ok(Some((case, got)));
        }
    }
    Ok(None)
}

/// What a file's header can get wrong: what a case is, its changes, and the answer that is wanted.
const HEADER_CASES: &str = "\
whole:  = 2 functions, 0 sites, 0 pairs, 1 slots
first byte: 0 1 7e = NotElf
fourth byte: 3 1 0 = NotElf
class of 32 bits: 4 1 1 = NotRiscv64Exec
high end first: 5 1 2 = NotRiscv64Exec
a shared object: 10 2 3 = NotRiscv64Exec
another machine: 12 2 3e = NotRiscv64Exec
few registers: 30 4 8 = NotRiscv64Exec
size of program headers: 36 2 37 = NotRiscv64Exec
size of section headers: 3a 2 0 = NotRiscv64Exec
few registers and compressed: 30 4 9 = NotRiscv64Exec
compressed: 30 4 1 = Compressed
compressed and floats: 30 4 3 = Compressed
single floats: 30 4 2 = FloatAbi
double floats: 30 4 4 = FloatAbi
another flag: 30 4 10 = 2 functions, 0 sites, 0 pairs, 1 slots
program headers one byte past: 20 8 279 = Truncated(633)
program headers up to the end: 20 8 278 = TextOutside(65536)
section headers one byte past: 28 8 169 = Truncated(361)
headers both past: 20 8 279, 28 8 2e8 = Truncated(633)
headers past the last address: 28 8 ffffffffffffffff = Truncated(18446744073709551615)
program headers past the last address: 20 8 ffffffffffffffff = Truncated(18446744073709551615)
section headers half way: 28 8 8000000000000000 = Truncated(9223372036854775808)
no section: 3c 2 0 = NoText
no section, wherever its headers: 3c 2 0, 28 8 2328, 3a 2 1 = NoText
no segment: 38 2 0 = TextOutside(65536)
no segment, wherever its headers: 38 2 0, 20 8 2328, 36 2 1 = TextOutside(65536)
";

#[test]
fn headers_are_refused_by_their_first_fault(rt: HostRuntime) -> Result<(), Fail> {
    assert_eq!(rt; first_wrong(rt.alloc(), VTABLE, HEADER_CASES)?, None);
    Ok(())
}

/// Program headers are at 40 and 78, section headers from 168 on: none, text, data, symbols, names, relocations.
const TABLE_CASES: &str = "\
whole:  = 2 functions, 0 sites, 0 pairs, 1 slots
segment one byte past: 48 8 2c5 = Truncated(709)
segment up to the end: 48 8 2c4 = 2 functions, 0 sites, 0 pairs, 1 slots
segment past, of no type: 40 4 2, 48 8 2e8 = TextOutside(65536)
segment past, of no memory: a0 8 0, 80 8 2e8 = 2 functions, 0 sites, 0 pairs, 0 slots
segment past, of no bytes: 98 8 0, 80 8 2e9 = 2 functions, 0 sites, 0 pairs, 0 slots
symbols one byte past: 240 8 289 = Truncated(649)
symbols of no size: 248 8 0, 240 8 2e9 = 0 functions, 0 sites, 0 pairs, 0 slots
strings of all sizes: 288 8 ffffffffffffffff = Truncated(320)
relocations one byte past: 2c0 8 2d1 = Truncated(721)
text section past, of which the place is not read: 1c0 8 2e9 = 2 functions, 0 sites, 0 pairs, 1 slots
segment before section: 48 8 2c5, 240 8 289 = Truncated(709)
more in the file than in memory: a0 8 7 = BadSegment(1)
both with more in the file than in memory: a0 8 7, 68 8 1 = BadSegment(0)
symbols past, and more in the file than in memory: 240 8 289, 68 8 1 = Truncated(649)
less in the file than in memory: a0 8 9 = 2 functions, 0 sites, 0 pairs, 1 slots
segment over another's last byte: 88 8 10023 = BadSegment(1)
segment over another's first byte: 88 8 10000 = BadSegment(1)
segment right past the space: 88 8 8000000 = TooLarge
segment next to another: 88 8 10024 = 2 functions, 0 sites, 0 pairs, 0 slots
segment up to another's first byte: 88 8 fff9 = BadSegment(1)
segment before another: 88 8 fff8 = 2 functions, 0 sites, 0 pairs, 0 slots
segment past the last address: 88 8 fffffffffffffff9 = BadSegment(1)
segment up to the last address: 88 8 fffffffffffffff8 = TooLarge
segment below the space: 88 8 fff = TooLarge
segment at the space's start: 88 8 1000 = 2 functions, 0 sites, 0 pairs, 0 slots
segment past the space: 88 8 7fffff9 = TooLarge
segment at the space's end: 88 8 7fffff8 = RegionOverlap(134221824)
text of 16 MiB and a byte: 1c8 8 1000001 = TooLarge
text of 16 MiB: 1c8 8 1000000 = TextOutside(65536)
text that is not loaded: 1b0 8 4 = NoText
text that is not executed: 1b0 8 2 = NoText
text of no bits: 1ac 4 8 = NoText
empty text: 1c8 8 0 = NoText
no symbols: 22c 4 b = NoSymbols
too large and no symbols: 88 8 fff, 22c 4 b = TooLarge
no text and no symbols: 1c8 8 0, 22c 4 b = NoText
";

#[test]
fn tables_are_refused_by_their_first_fault(rt: HostRuntime) -> Result<(), Fail> {
    assert_eq!(rt; first_wrong(rt.alloc(), VTABLE, TABLE_CASES)?, None);
    Ok(())
}

/// Text is at b0.
const IMAGE_CASES: &str = "\
whole:  = 2 functions, 0 sites, 0 pairs, 1 slots
misplaced text: 1b8 8 10002 = TextMisaligned(65538)
text of half a word: 1c8 8 22 = TextMisaligned(65536)
text past its segment: 1b8 8 10004 = TextOutside(65540)
text before its segment: 1b8 8 fffc = TextOutside(65532)
data as text: 1f0 8 7 = 2 functions, 0 sites, 0 pairs, 0 slots
half a word of data as text, text outside: 1f0 8 7, 208 8 6, 1b8 8 10004 = TextMisaligned(69632)
text over text: 1f0 8 7, 1f8 8 10020, 208 8 4 = TextOutside(65568)
text next to text: 1f0 8 7, 1f8 8 10020, 208 8 4, 1c8 8 20 = 1 functions, 0 sites, 0 pairs, 0 slots
entry at half a word: 18 8 10002 = EntryOutside(65538)
entry past text: 18 8 10024 = EntryOutside(65572)
entry before text: 18 8 fffc = EntryOutside(65532)
entry in data: 18 8 11000 = EntryOutside(69632)
entry at the last word: 18 8 10020 = 2 functions, 0 sites, 0 pairs, 1 slots
jump to the region's start: b0 4 306f, 18 8 10020 = RegionAimed(65536)
jump to the region's last word: b0 4 7fd8206f = RegionAimed(65536)
jump to before the region: b0 4 7fd0206f = 2 functions, 0 sites, 0 pairs, 1 slots
jump to past the region: b0 4 8306f = 2 functions, 0 sites, 0 pairs, 1 slots
";

#[test]
fn text_entry_and_region_are_refused_by_their_first_fault(rt: HostRuntime) -> Result<(), Fail> {
    assert_eq!(rt; first_wrong(rt.alloc(), VTABLE, IMAGE_CASES)?, None);
    Ok(())
}

/// Symbols are from e0 on, their names at 140, the relocation at 150.
const SLOT_CASES: &str = "\
whole:  = 2 functions, 0 sites, 0 pairs, 1 slots
symbol of another kind: 114 1 1 = 1 functions, 0 sites, 0 pairs, 0 slots
symbol of a binding: 114 1 12 = 2 functions, 0 sites, 0 pairs, 1 slots
symbol of no section: 116 2 0 = 1 functions, 0 sites, 0 pairs, 0 slots
function at half a word: 118 8 1001e = 1 functions, 0 sites, 0 pairs, 0 slots
function of no size: 120 8 0 = 1 functions, 0 sites, 0 pairs, 0 slots
function of half a word: 120 8 6 = 1 functions, 0 sites, 0 pairs, 0 slots
function past text: 120 8 c = 1 functions, 0 sites, 0 pairs, 0 slots
function of one word: 120 8 4 = 2 functions, 0 sites, 0 pairs, 1 slots
relocation with an addend: 160 8 1 = 2 functions, 0 sites, 0 pairs, 0 slots
relocation of another kind: 158 8 200000003 = 2 functions, 0 sites, 0 pairs, 0 slots
relocation of no symbol: 158 8 400000002 = 2 functions, 0 sites, 0 pairs, 0 slots
relocation of another function: 158 8 100000002 = 2 functions, 0 sites, 0 pairs, 0 slots
relocation of another table: 2d0 4 4 = 2 functions, 0 sites, 0 pairs, 0 slots
relocation at half a slot: 150 8 11004 = 2 functions, 0 sites, 0 pairs, 0 slots
another function stored: d8 8 10000 = 2 functions, 0 sites, 0 pairs, 0 slots
table too short: 138 8 7 = 2 functions, 0 sites, 0 pairs, 0 slots
table of another name: 14b 1 58 = 2 functions, 0 sites, 0 pairs, 0 slots
function as a table: 12c 1 2 = 2 functions, 0 sites, 0 pairs, 0 slots
no strings: 250 4 5 = 2 functions, 0 sites, 0 pairs, 0 slots
";

#[test]
fn functions_and_slots_need_their_conditions(rt: HostRuntime) -> Result<(), Fail> {
    assert_eq!(rt; first_wrong(rt.alloc(), VTABLE, SLOT_CASES)?, None);
    Ok(())
}

/// Text is at 78, symbols from 90 on, the relocation at e8.
const PAIR_CASES: &str = "\
whole:  = 2 functions, 0 sites, 1 pairs, 0 slots
kind 18: f0 8 200000012 = 2 functions, 0 sites, 1 pairs, 0 slots
kind 17: f0 8 200000011 = 2 functions, 0 sites, 0 pairs, 0 slots
at the second word: e8 8 10010 = 2 functions, 0 sites, 0 pairs, 0 slots
another register: 88 4 8100e7 = 2 functions, 0 sites, 0 pairs, 0 slots
the register x0: 84 4 17, 88 4 8000e7 = 2 functions, 0 sites, 0 pairs, 0 slots
no start of a function: 88 4 c080e7 = 2 functions, 0 sites, 0 pairs, 0 slots
the entry between: 18 8 10010 = 2 functions, 0 sites, 0 pairs, 0 slots
a function between: b0 8 10010, b8 8 4 = 2 functions, 0 sites, 0 pairs, 0 slots
a jump between: 80 4 80006f = 2 functions, 0 sites, 0 pairs, 0 slots
a branch between: 80 4 463 = 2 functions, 0 sites, 0 pairs, 0 slots
a branch to the first word: 80 4 263 = 2 functions, 0 sites, 1 pairs, 0 slots
";

#[test]
fn pairs_need_their_conditions(rt: HostRuntime) -> Result<(), Fail> {
    assert_eq!(rt; first_wrong(rt.alloc(), PAIR, PAIR_CASES)?, None);
    Ok(())
}

/// Text is at 78, symbols from a0 on, relocations at f8.
const SITE_CASES: &str = "\
whole:  = 2 functions, 2 sites, 0 pairs, 0 slots
kind 18: 100 8 200000012 = 2 functions, 1 sites, 0 pairs, 0 slots
no start of a function: 78 4 14000ef = 2 functions, 1 sites, 0 pairs, 0 slots
another symbol: 100 8 100000011 = 2 functions, 2 sites, 0 pairs, 0 slots
the same place twice: 110 8 10000 = 2 functions, 1 sites, 0 pairs, 0 slots
a word that is no jump: 78 4 13 = 2 functions, 1 sites, 0 pairs, 0 slots
two names, of which one is shorter: c0 8 10010, c8 8 4 = 1 functions, 2 sites, 0 pairs, 0 slots
relocations in two sections: 12c 4 4, 140 8 f8, 148 8 30, 150 4 2 = 2 functions, 2 sites, 0 pairs, 0 slots
one in each of two sections: 12c 4 4, 140 8 110, 148 8 18, 150 4 2, 248 8 18 = 2 functions, 2 sites, 0 pairs, 0 slots
one in one section, none in another: 12c 4 4, 140 8 110, 148 8 18, 150 4 2, 248 8 17 = 2 functions, 1 sites, 0 pairs, 0 slots
the second of two in a section of its own too: 12c 4 4, 140 8 110, 148 8 18, 150 4 2 = 2 functions, 2 sites, 0 pairs, 0 slots
";

#[test]
fn sites_need_their_conditions(rt: HostRuntime) -> Result<(), Fail> {
    assert_eq!(rt; first_wrong(rt.alloc(), COUNTDOWN, SITE_CASES)?, None);
    Ok(())
}

#[test]
fn short_files_are_truncated(rt: HostRuntime) -> Result<(), Fail> {
    let whole = file(rt.alloc(), VTABLE)?;
    for (len, want) in [
        (0, "NotElf"),
        (15, "NotElf"),
        (16, "Truncated(0)"),
        (63, "Truncated(0)"),
        (64, "Truncated(64)"),
        (175, "Truncated(64)"),
        (176, "Truncated(360)"),
        (743, "Truncated(360)"),
    ] {
        let got = answer(rt.alloc(), whole.get(..len).unwrap_or(&[]), None)?;
        assert_eq!(rt; got.as_str(), want, "{len} bytes");
    }
    Ok(())
}

/// The page of 4096 bytes with a number.
fn page(number: u64) -> Option<Range>
    ensures { IfSome result IsPaged }
{
    if number >= 1 << 40 {
        return None;
    }
    Some(Range {
        from: number * 4096,
        to: number * 4096 + 4096,
    })
}

fn show_aims(text: &mut String, kind: &str, aims: &[Aim]) -> Result<(), AllocError> {
    for s in aims {
        write!(text, "{kind} {:x} to {}, ", s.at, s.func)?;
    }
    Ok(())
}

/// What an image holds.
fn shown(alloc: Global, image: &Image) -> Result<String, AllocError> {
    let mut text = String::new(alloc);
    for f in image.funcs() {
        write!(text, "function {:x}..{:x}, ", f.from, f.to)?;
    }
    show_aims(&mut text, "site", image.sites())?;
    show_aims(&mut text, "pair", image.pairs())?;
    show_aims(&mut text, "slot", image.slots())?;
    let region = image.region();
    write!(text, "region {:x}..{:x}", region.from, region.to)?;
    Ok(text)
}

/// The whole image of a file, or its fault.
fn whole_image(alloc: Global, lines: &str) -> Result<String, AllocError> {
    match image_of(alloc, &file(alloc, lines)?, None)? {
        Ok(image) => shown(alloc, &image),
        Err(fault) => Ok(fault),
    }
}

#[test]
fn images_hold_functions_sites_pairs_and_slots(rt: HostRuntime) -> Result<(), Fail> {
    let image = whole_image(rt.alloc(), COUNTDOWN)?;
    assert_eq!(rt;
        image.as_str(),
        "function 10000..10010, function 10010..10028, site 10000 to 1, site 10004 to 1, region 12000..92000"
    );
    let image = whole_image(rt.alloc(), VTABLE)?;
    assert_eq!(rt;
        image.as_str(),
        "function 10000..1001c, function 1001c..10024, slot 11000 to 1, region 13000..93000"
    );
    let image = whole_image(rt.alloc(), PAIR)?;
    assert_eq!(rt;
        image.as_str(),
        "function 10000..10014, function 10014..10018, pair 1000c to 1, region 12000..92000"
    );
    Ok(())
}

/// Regions of one page, by its number.
const PAGE_CASES: &str = "\
0 = RegionOverlap(0)
1 = 2 functions, 0 sites, 0 pairs, 1 slots
f = 2 functions, 0 sites, 0 pairs, 1 slots
10 = RegionOverlap(65536)
11 = RegionOverlap(69632)
12 = 2 functions, 0 sites, 0 pairs, 1 slots
7fff = 2 functions, 0 sites, 0 pairs, 1 slots
8000 = RegionOverlap(134217728)
";

/// The first page with another answer than is wanted, with that answer.
fn first_wrong_page<'a>(
    alloc: Global,
    cases: &'a str,
) -> Result<Option<(&'a str, String)>, AllocError> {
    let file = file(alloc, VTABLE)?;
    for case in cases.lines() {
        let (number, want) = case.split_once(" = ").unwrap_or(("", ""));
        let got = answer(alloc, &file, page(number_of(Some(number))))?;
        if got.as_str() != want {
            return Ok(Some((case, got)));
        }
    }
    Ok(None)
}

#[test]
fn a_region_is_taken_from_its_least_address(rt: HostRuntime) -> Result<(), Fail> {
    assert_eq!(rt; first_wrong_page(rt.alloc(), PAGE_CASES)?, None);
    Ok(())
}

/// What stands at addresses of the guest with a pair: the word, whether it is text, the function, whether it is a pair's second word.
const ADDRESS_CASES: &str = "\
fffc = None, false, None, false
ffff = None, false, None, false
10002 = None, true, Some(0), false
10004 = Some(16941159), true, Some(0), false
1000c = Some(151), true, Some(0), false
10010 = Some(8421607), true, Some(0), true
10013 = None, true, Some(0), false
10014 = Some(32871), true, Some(1), false
10017 = None, true, Some(1), false
10018 = None, false, None, false
";

/// The first address of which an image says something else than is wanted, with that.
fn first_wrong_address<'a>(
    alloc: Global,
    image: &Image,
    cases: &'a str,
) -> Result<Option<(&'a str, String)>, AllocError> {
    for case in cases.lines() {
        let (number, want) = case.split_once(" = ").unwrap_or(("", ""));
        let at = number_of(Some(number));
        let (word, func) = (image.word(at), image.func_at(at));
        let (text, second) = (image.in_text(at), image.second_of_pair(at));
        let got = format!(in alloc; "{word:?}, {text}, {func:?}, {second}")?;
        if got.as_str() != want {
            return Ok(Some((case, got)));
        }
    }
    Ok(None)
}

/// The same, where `main` ends with its third word and `leaf` starts with its second.
const OVERLAP_CASES: &str = "\
10000 = Some(66231), true, Some(0), false
10004 = Some(16941159), true, Some(0), false
1000b = None, true, Some(0), false
1000c = Some(151), true, Some(1), false
10017 = None, true, Some(1), false
10018 = None, false, None, false
";

/// The same of a copy of the image of the guest with a pair, of which the file is changed.
fn first_wrong_copy<'a>(
    alloc: Global,
    changes: &str,
    cases: &'a str,
) -> Result<Option<(&'a str, String)>, AllocError> {
    let whole = file(alloc, PAIR)?;
    let image = match image_of(alloc, &changed(alloc, &whole, changes)?, None)? {
        Ok(image) => image,
        Err(fault) => return Ok(Some((cases, fault))),
    };
    let Ok(copy) = image.copy(alloc) else {
        return Err(AllocError);
    };
    first_wrong_address(alloc, &copy, cases)
}

#[test]
fn a_copy_answers_at_addresses(rt: HostRuntime) -> Result<(), Fail> {
    assert_eq!(rt; first_wrong_copy(rt.alloc(), "", ADDRESS_CASES)?, None);
    Ok(())
}

#[test]
fn the_least_function_counts_where_two_overlap(rt: HostRuntime) -> Result<(), Fail> {
    let changes = "b8 8 c, c8 8 10004, d0 8 14";
    assert_eq!(rt; first_wrong_copy(rt.alloc(), changes, OVERLAP_CASES)?, None);
    Ok(())
}
