//! Images of guests, whose files have other numbers in some places. A row says what it shows, and has a guest, the numbers, and the
//! image: its text ranges with their numbers of words, its parts with rights, number of bytes and the first of these, functions, sites, pairs, slots, and the words
//! of program headers. What is wanted was told by an independent implementation, and the bytes by the file.

use cases::images::image_of;
use image::picture::Image;
use image::ranges::{Aim, Part};
use std::alloc::{AllocError, Global};
use std::test::Fail;

fn push_texts(text: &mut String, alloc: Global, image: &Image) -> Result<(), AllocError> {
    for range in image.texts() {
        let (from, count) = (range.from, range.words.len());
        text.push_str(&format!(in alloc; "text {from:x} of {count}, ")?)?;
    }
    Ok(())
}

fn push_part(text: &mut String, alloc: Global, part: &Part) -> Result<(), AllocError> {
    let (from, to) = (part.range.from, part.range.to);
    let read = if part.read { "r" } else { "-" };
    let write = if part.write { "w" } else { "-" };
    let count = part.bytes.len();
    text.push_str(&format!(in alloc; "part {from:x}..{to:x} {read}{write} {count} ")?)?;
    for byte in part.bytes.as_slice().iter().take(8) {
        text.push_str(&format!(in alloc; "{byte:02x}")?)?;
    }
    text.push_str(", ")
}

fn push_parts(text: &mut String, alloc: Global, image: &Image) -> Result<(), AllocError> {
    for part in image.parts() {
        push_part(text, alloc, part)?;
    }
    Ok(())
}

fn push_funcs(text: &mut String, alloc: Global, image: &Image) -> Result<(), AllocError> {
    for func in image.funcs() {
        let (from, to) = (func.from, func.to);
        text.push_str(&format!(in alloc; "func {from:x}..{to:x}, ")?)?;
    }
    Ok(())
}

fn push_aims(text: &mut String, alloc: Global, what: &str, aims: &[Aim]) -> Result<(), AllocError> {
    for aim in aims {
        let (at, func) = (aim.at, aim.func);
        text.push_str(&format!(in alloc; "{what} {at:x} of {func}, ")?)?;
    }
    Ok(())
}

fn image_text(alloc: Global, image: &Image) -> Result<String, AllocError> {
    let mut text = String::new(alloc);
    push_texts(&mut text, alloc, image)?;
    push_parts(&mut text, alloc, image)?;
    push_funcs(&mut text, alloc, image)?;
    push_aims(&mut text, alloc, "site", image.sites())?;
    push_aims(&mut text, alloc, "pair", image.pairs())?;
    push_aims(&mut text, alloc, "slot", image.slots())?;
    let (at, count) = image.headers();
    text.push_str(&format!(in alloc; "headers {at:x} {count}")?)?;
    Ok(text)
}

/// The first row with another image than is wanted, and that image.
fn first_wrong(alloc: Global, rows: &str) -> Result<String, Fail> {
    for row in rows.lines() {
        let (what, wanted) = row.split_once(" = ").unwrap_or(("", ""));
        let (_, guest) = what.split_once(": ").unwrap_or(("", ""));
        let image = image_of(alloc, guest)?;
        let got = image_text(alloc, &image)?;
        if got.as_str() != wanted {
            return Ok(format!(in alloc; "{row}: {got}")?);
        }
    }
    Ok(String::new(alloc))
}

const TOUCHING: &str = "\
a pair in one section: far call = text 10000 of 5, func 10000..10010, func 10010..10014, pair 10000 of 1, headers 0 0
a pair and a function over two: far call with 1120:8:4 1204:4:1 1208:8:6 1210:8:10004 1218:8:1004 1220:8:10 = text 10000 of 1, text 10004 of 4, func 10010..10014, headers 0 0
a function over two: far call with 1120:8:8 1204:4:1 1208:8:6 1210:8:10008 1218:8:1008 1220:8:c = text 10000 of 2, text 10008 of 3, func 10010..10014, pair 10000 of 0, headers 0 0
a function in each: far call with 1120:8:10 1204:4:1 1208:8:6 1210:8:10010 1218:8:1010 1220:8:4 = text 10000 of 4, text 10010 of 1, func 10000..10010, func 10010..10014, pair 10000 of 1, headers 0 0";

#[test]
fn nothing_goes_over_two_text_sections_that_touch(rt: HostRuntime) -> Result<(), Fail> {
    assert_eq!(rt; first_wrong(rt.alloc(), TOUCHING)?.as_str(), "");
    Ok(())
}

const PARTS: &str = "\
read and written: line = text 10000 of 8, part 11000..11003 rw 3 68690a, func 10000..10020, headers 0 0
read: line with 7c:4:4 = text 10000 of 8, part 11000..11003 r- 3 68690a, func 10000..10020, headers 0 0
written: line with 7c:4:2 = text 10000 of 8, part 11000..11003 -w 3 68690a, func 10000..10020, headers 0 0
neither: line with 7c:4:1 = text 10000 of 8, part 11000..11003 -- 3 68690a, func 10000..10020, headers 0 0
zeros behind the bytes: line with a0:8:10 = text 10000 of 8, part 11000..11010 rw 3 68690a, func 10000..10020, headers 0 0
zeros alone: line with 98:8:0 = text 10000 of 8, part 11000..11003 rw 0 , func 10000..10020, headers 0 0
what a text section leaves of its segment: line with 20e0:8:18 = text 10000 of 6, part 10018..10020 r- 8 9308d00573000000, part 11000..11003 rw 3 68690a, headers 0 0";

#[test]
fn parts_have_the_rights_and_bytes_of_their_segments(rt: HostRuntime) -> Result<(), Fail> {
    assert_eq!(rt; first_wrong(rt.alloc(), PARTS)?.as_str(), "");
    Ok(())
}

const SLOTS: &str = "\
in the bytes: table = text 10000 of 9, part 11000..11008 rw 8 1c00010000000000, func 10000..1001c, func 1001c..10024, slot 11000 of 1, headers 0 0
over their end, with a whole number: table with 98:8:4 = text 10000 of 9, part 11000..11008 rw 4 1c000100, func 10000..1001c, func 1001c..10024, slot 11000 of 1, headers 0 0
over their end, with half a number: table with 98:8:2 = text 10000 of 9, part 11000..11008 rw 2 1c00, func 10000..1001c, func 1001c..10024, headers 0 0
in zeros: table with 98:8:0 = text 10000 of 9, part 11000..11008 rw 0 , func 10000..1001c, func 1001c..10024, headers 0 0
over the end of the part: table with 98:8:4 a0:8:4 = text 10000 of 9, part 11000..11004 rw 4 1c000100, func 10000..1001c, func 1001c..10024, headers 0 0";

#[test]
fn a_slot_may_end_behind_the_bytes_of_its_part(rt: HostRuntime) -> Result<(), Fail> {
    assert_eq!(rt; first_wrong(rt.alloc(), SLOTS)?.as_str(), "");
    Ok(())
}

const HEADERS: &str = "\
in no segment: line = text 10000 of 8, part 11000..11003 rw 3 68690a, func 10000..10020, headers 0 0
in the first segment: line with 48:8:0 50:8:f000 60:8:1020 68:8:1020 = text 10000 of 8, part f000..10000 r- 4096 7f454c4602010100, part 11000..11003 rw 3 68690a, func 10000..10020, headers f040 2
in the second: line with 80:8:40 98:8:70 a0:8:70 = text 10000 of 8, part 11000..11070 rw 112 0100000005000000, func 10000..10020, headers 11000 2
up to the end of its bytes: line with 80:8:0 98:8:b0 a0:8:b0 = text 10000 of 8, part 11000..110b0 rw 176 7f454c4602010100, func 10000..10020, headers 11040 2
past the end of its bytes: line with 80:8:0 98:8:af a0:8:b0 = text 10000 of 8, part 11000..110b0 rw 175 7f454c4602010100, func 10000..10020, headers 0 0";

#[test]
fn program_headers_stand_in_the_first_segment_with_all_of_them(
    rt: HostRuntime,
) -> Result<(), Fail> {
    assert_eq!(rt; first_wrong(rt.alloc(), HEADERS)?.as_str(), "");
    Ok(())
}
