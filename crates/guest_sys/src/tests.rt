//! Tables of calls, a line a call: the hart, the number, five arguments in hexadecimal, with `@` before a link, and the reply that
//! Linux' manual pages and the numbers of errno ask for. Other lines give a range rights, store doublewords, or say what an output
//! holds, how many harts were made, and which bytes the last call wrote.
ghost use Rattle.std.specs.Prelude.{◌≤◌};

use crate::call::syscall;
use crate::effect::{Effect, Reply};
use crate::state::Sys;
use guest_mem::fault::StoreFault;
use guest_mem::flat::FlatMem;
use guest_mem::store::GuestStore;
use link_tags::origins::Origins;
use link_tags::value::Value;
use oc_base::fault::NoMemory;
use oc_base::items::Items;
use oc_base::range::Range;
use rv_isa::instr::Width;
use std::alloc::Global;
use std::test::Fail;

/// Every link goes back to one address.
struct One;

impl Origins for One {
    ghost origin = { λ _ _. 0x10028 };

    fn origin(&self, _at: u64) -> u64 {
        0x10028
    }
}

#[derive(Drop)]
struct Guest {
    sys: Sys,
    mem: FlatMem,
    // the clear address of each hart
    clear: u64,
    // what the last call wrote
    written: Items<Range>,
}

impl Guest {
    /// A guest whose input is `hello`, with the break at 0x200000. At its clear address it has a page that may be read and written,
    /// and after it one that may only be read.
    fn new(alloc: Global) -> Result<Guest, NoMemory> {
        let input = Vec::from_slice(alloc, b"hello")?;
        let mut guest = Guest {
            sys: Sys::new(alloc, input, 0x0020_0000),
            mem: FlatMem::new(alloc),
            clear: 0x0010_0000,
            written: Items::new(alloc),
        };
        guest.set_rights("100000 101000 rw")?;
        guest.set_rights("101000 102000 r")?;
        Ok(guest)
    }

    /// Gives a range rights, such as `100000 101000 rw`.
    fn set_rights(&mut self, line: &str) -> Result<(), NoMemory> {
        let mut words = line.split_whitespace();
        let from = number(words.next(), 16);
        let to = number(words.next(), 16);
        let rights = words.next().unwrap_or("");
        let range = Range {
            from,
            to: to.min(0x1000_0000),
        };
        self.mem
            .set_rights(range, rights.contains('r'), rights.contains('w'))
    }

    /// Stores doublewords, such as `100040 100002 2`: two from 0x100040 on.
    fn store(&mut self, line: &str) -> Result<(), StoreFault> {
        let mut words = line.split_whitespace();
        let mut at = number(words.next(), 16);
        for word in words {
            self.mem.store(at, Width::D, value(Some(word), 16), &One)?;
            at = at.wrapping_add(8);
        }
        Ok(())
    }

    /// The reply to a call such as `3 64 1 100000 5 0 0`. Where it asks for another clear address, it gets it.
    fn call(&mut self, alloc: Global, line: &str) -> Result<String, NoMemory> {
        let mut words = line.split_whitespace();
        let hart = (number(words.next(), 10) % 64) as u32;
        let number = value(words.next(), 10);
        let zero = Value::plain(0);
        let regs = [
            value(words.next(), 16),
            value(words.next(), 16),
            value(words.next(), 16),
            value(words.next(), 16),
            value(words.next(), 16),
            zero,
            zero,
            number,
        ];
        let effect = syscall(
            alloc,
            &mut self.sys,
            &mut self.mem,
            &One,
            hart,
            self.clear,
            &regs,
        )?;
        if let Reply::SetClear { clear } = effect.reply {
            self.clear = clear;
        }
        let text = shown(alloc, &effect)?;
        self.written = effect.written;
        Ok(text)
    }

    /// Does what a line without an answer says.
    fn set_up(&mut self, line: &str) -> Result<(), Fail> {
        match line.split_once(' ') {
            Some(("rights", rest)) => Ok(self.set_rights(rest)?),
            Some(("store", rest)) => Ok(self.store(rest)?),
            _ => Err(Fail::new("no such line")),
        }
    }

    /// Whether the answer of a line is this one.
    fn agrees(&mut self, alloc: Global, asked: &str, wanted: &str) -> Result<bool, NoMemory> {
        match asked {
            "output 1" => Ok(self.sys.output(1) == wanted.as_bytes()),
            "output 2" => Ok(self.sys.output(2) == wanted.as_bytes()),
            "made" => Ok(u64::from(self.sys.made()) == number(Some(wanted), 10)),
            "written" => Ok(ranges_text(alloc, self.written.as_slice())?.as_str() == wanted),
            _ => Ok(self.call(alloc, asked)?.as_str() == wanted),
        }
    }

    /// Does what the lines of a table say, and fails at the first with another answer.
    fn check(&mut self, alloc: Global, table: &str) -> Result<(), Fail> {
        for line in table.lines() {
            match line.split_once(" = ") {
                Some((asked, wanted)) => {
                    if !self.agrees(alloc, asked, wanted)? {
                        return Err(Fail::new(String::from_str(alloc, line)?));
                    }
                }
                None => self.set_up(line)?,
            }
        }
        Ok(())
    }
}

/// Does what the lines of a table say, with a new guest.
fn check(alloc: Global, table: &str) -> Result<(), Fail> {
    Guest::new(alloc)?.check(alloc, table)
}

/// The number that a word writes.
fn number(word: Option<&str>, base: u32) -> u64
    requires least { 2 ≤ base }
    requires most { base ≤ 36 }
{
    u64::from_str_radix(word.unwrap_or(""), base).unwrap_or(0)
}

/// The value that a word writes, which is a link behind an `@`.
fn value(word: Option<&str>, base: u32) -> Value
    requires least { 2 ≤ base }
    requires most { base ≤ 36 }
{
    let word = word.unwrap_or("");
    match word.strip_prefix('@') {
        Some(link) => Value::link(number(Some(link), base)),
        None => Value::plain(number(Some(word), base)),
    }
}

fn ranges_text(alloc: Global, ranges: &[Range]) -> Result<String, NoMemory> {
    let mut text = String::new(alloc);
    for range in ranges {
        let (from, to) = (range.from, range.to);
        let comma = if text.is_empty() { "" } else { ", " };
        text = format!(in alloc; "{text}{comma}{from:x}..{to:x}")?;
    }
    Ok(text)
}

/// A reply in one word, with the harts that are woken.
fn shown(alloc: Global, effect: &Effect) -> Result<String, NoMemory> {
    let mut text = shown_reply(alloc, effect.reply)?;
    for hart in effect.woken.as_slice() {
        text = format!(in alloc; "{text}+{hart}")?;
    }
    Ok(text)
}

fn shown_reply(alloc: Global, reply: Reply) -> Result<String, NoMemory> {
    let text = match reply {
        Reply::Answer(n) if n > 0xffff_ffff_ffff_f000 => {
            let error = n.wrapping_neg();
            format!(in alloc; "-{error}")?
        }
        Reply::Answer(n) => format!(in alloc; "{n:x}")?,
        Reply::Wait { addr } => format!(in alloc; "waits-{addr:x}")?,
        Reply::EndHart => format!(in alloc; "ends")?,
        Reply::EndAll(code) => format!(in alloc; "exits-{code}")?,
        Reply::Clone {
            stack,
            tls: None,
            clear,
            tid,
        } => format!(in alloc; "tid-{tid},{stack:x},{clear:x}")?,
        Reply::Clone {
            stack,
            tls: Some(at),
            clear,
            tid,
        } => format!(in alloc; "tid-{tid},{stack:x},{clear:x},{at:x}")?,
        Reply::SetClear { clear } => format!(in alloc; "clears-{clear:x}")?,
        Reply::LinkUse { reg } => format!(in alloc; "link-{reg}")?,
        Reply::OutputFull => format!(in alloc; "full")?,
        Reply::HartsFull => format!(in alloc; "harts-full")?,
    };
    Ok(text)
}

const CALLS_THAT_READ_REGISTERS_ALONE: &str = "\
3 29 0 0 0 0 0 = -25
3 94 10007 0 0 0 0 = exits-7
3 96 10007 0 0 0 0 = clears-10007
3 99 0 0 0 0 0 = 0
3 124 0 0 0 0 0 = 0
3 134 0 0 0 0 0 = 0
3 135 0 0 0 0 0 = 0
3 172 0 0 0 0 0 = 1
3 178 0 0 0 0 0 = 4
3 0 0 0 0 0 0 = -38
3 65 0 0 0 0 0 = -38
";

#[test]
fn calls_that_read_registers_alone(rt: HostRuntime) -> Result<(), Fail> {
    check(rt.alloc(), CALLS_THAT_READ_REGISTERS_ALONE)
}

const BYTES_ARE_READ_AND_WRITTEN: &str = "\
3 63 1 100000 3 0 0 = -9
3 63 0 101000 3 0 0 = -14
3 63 0 100ffe 3 0 0 = -14
3 63 0 100007 3 0 0 = 3
3 63 0 10000a 64 0 0 = 2
3 63 0 0 64 0 0 = 0
3 64 0 100000 2 0 0 = -9
3 64 3 0 0 0 0 = -9
3 64 1 101000 1001 0 0 = -14
3 64 1 100006 7 0 0 = 7
3 64 1 100008 1 0 0 = 1
3 64 2 10000b 1 0 0 = 1
3 64 2 0 0 0 0 = 0
output 1 = \0hello\0e
output 2 = o
";

#[test]
fn bytes_are_read_and_written(rt: HostRuntime) -> Result<(), Fail> {
    check(rt.alloc(), BYTES_ARE_READ_AND_WRITTEN)
}

// Two bytes from 0x100002, one from 0x100000, and more than the page that may only be read.
const PARTS_ARE_WRITTEN_ALL_OR_NONE: &str = "\
store 100040 100002 2 100000 1 101000 1001
3 63 0 100000 5 0 0 = 5
3 66 5 100040 2 0 0 = -9
3 66 1 100040 401 0 0 = -22
3 66 1 101ff8 1 0 0 = -14
3 66 1 100040 3 0 0 = -14
3 66 1 100040 2 0 0 = 3
3 66 1 0 0 0 0 = 0
output 1 = llh
";

#[test]
fn parts_are_written_all_or_none(rt: HostRuntime) -> Result<(), Fail> {
    check(rt.alloc(), PARTS_ARE_WRITTEN_ALL_OR_NONE)
}

// One byte, and as many as an output takes.
const A_FULL_OUTPUT_TAKES_NOTHING: &str = "\
rights 1000000 2010000 r
store 100040 100000 1 1000000 1000000
3 64 1 1000000 1000001 0 0 = full
3 66 1 100040 2 0 0 = full
3 66 2 100040 2 0 0 = full
output 1 = 
output 2 = 
";

#[test]
fn a_full_output_takes_nothing(rt: HostRuntime) -> Result<(), Fail> {
    check(rt.alloc(), A_FULL_OUTPUT_TAKES_NOTHING)
}

const HARTS_WAIT_AND_ARE_WOKEN_IN_THEIR_ORDER: &str = "\
3 98 100001 2 7 1 0 = -38
3 98 100001 0 7 1 0 = -22
3 98 102000 0 0 1 0 = -38
3 98 102000 0 0 0 0 = -14
3 98 100000 0 8 0 0 = -11
1 98 100000 0 100000000 0 0 = waits-100000
2 98 100008 80 0 0 0 = waits-100008
4 98 100000 180 0 0 0 = waits-100000
5 98 100000 0 0 0 0 = waits-100000
6 98 100000 0 0 0 0 = waits-100000
3 98 100000 81 100000000 0 0 = 0
3 98 100000 3 1 2 100008 = 1+1
3 98 100008 1 9 0 0 = 3+2+4+5
3 93 0 0 0 0 0 = ends+6
3 93 0 0 0 0 0 = ends
1 98 100000 0 0 0 0 = waits-100000
2 98 100000 0 0 0 0 = waits-100000
4 98 100000 0 0 0 0 = waits-100000
3 98 100000 3 1 1 100000 = 1+1
3 98 100000 1 9 0 0 = 2+4+2
";

#[test]
fn harts_wait_and_are_woken_in_their_order(rt: HostRuntime) -> Result<(), Fail> {
    check(rt.alloc(), HARTS_WAIT_AND_ARE_WOKEN_IN_THEIR_ORDER)
}

const A_HART_THAT_ENDS_CLEARS_ITS_WORD: &str = "\
3 63 0 100000 5 0 0 = 5
3 93 7 0 0 0 0 = ends
3 64 1 100000 5 0 0 = 5
output 1 = \0\0\0\0o
";

#[test]
fn a_hart_that_ends_clears_its_word(rt: HostRuntime) -> Result<(), Fail> {
    check(rt.alloc(), A_HART_THAT_ENDS_CLEARS_ITS_WORD)
}

// Harts wait at 0, at an address that is no multiple of 4, and where nothing may be written.
const A_CLEAR_ADDRESS_THAT_IS_NO_WORD_IS_LEFT_ALONE: &str = "\
rights 0 1000 rw
3 63 0 0 2 0 0 = 2
3 63 0 100000 3 0 0 = 3
1 98 0 0 6568 0 0 = waits-0
2 98 100008 0 0 0 0 = waits-100008
3 98 100008 3 0 1 100001 = 0
4 98 101000 0 0 0 0 = waits-101000
3 96 0 0 0 0 0 = clears-0
3 93 0 0 0 0 0 = ends
3 96 100001 0 0 0 0 = clears-100001
3 93 0 0 0 0 0 = ends
3 96 101000 0 0 0 0 = clears-101000
3 93 0 0 0 0 0 = ends
3 64 1 0 2 0 0 = 2
3 64 1 100000 3 0 0 = 3
output 1 = hello
";

#[test]
fn a_clear_address_that_is_no_word_is_left_alone(rt: HostRuntime) -> Result<(), Fail> {
    check(rt.alloc(), A_CLEAR_ADDRESS_THAT_IS_NO_WORD_IS_LEFT_ALONE)
}

const BYTES_ARE_MAPPED_AND_GIVEN_UP: &str = "\
3 214 0 0 0 0 0 = 200000
3 214 200005 0 0 0 0 = 200005
3 214 f800001 0 0 0 0 = 200005
3 64 1 200000 1000 0 0 = 1000
3 64 1 200000 1001 0 0 = -14
3 214 200000 0 0 0 0 = 200000
3 64 1 200000 1 0 0 = -14
3 222 0 0 3 22 0 = -22
3 222 0 0 7 22 0 = -22
3 222 0 1 3 2 0 = -22
3 222 0 1 3 32 0 = -22
3 222 0 1 7 22 0 = -13
3 222 0 ffffffffffffffff 3 22 0 = -12
3 222 0 f600001 3 22 0 = -12
3 222 0 1001 3 22 0 = f7fe000
3 64 1 f7fe000 2000 0 0 = 2000
3 226 f7fe001 1 1 0 0 = -22
3 226 f7fe000 1 5 0 0 = -13
3 226 f7fe000 ffffffffffffffff 0 0 0 = 0
3 226 f7fd000 1 0 0 0 = 0
3 226 f7fe000 1 2 0 0 = 0
3 64 1 f7fe000 1 0 0 = -14
3 64 1 f7ff000 1 0 0 = 1
3 215 f7fe008 1 0 0 0 = -22
3 215 f7fe000 0 0 0 0 = -22
3 215 f7fe000 2001 0 0 0 = -22
3 215 f7fd000 1 0 0 0 = -22
3 215 f7fe000 ffffffffffffffff 0 0 0 = -22
3 215 f7ff000 1 0 0 0 = 0
3 64 1 f7ff000 1 0 0 = -14
3 215 f7fe000 1000 0 0 0 = 0
3 222 0 1 3 22 0 = f7fe000
";

#[test]
fn bytes_are_mapped_and_given_up(rt: HostRuntime) -> Result<(), Fail> {
    check(rt.alloc(), BYTES_ARE_MAPPED_AND_GIVEN_UP)
}

const A_CLONE_IS_REFUSED_IN_AN_ORDER: &str = "\
3 220 10000 100000 0 0 0 = -22
3 220 100 100000 0 0 0 = -22
3 220 11100 100000 0 0 0 = -22
3 220 100010100 100000 0 0 0 = -22
3 220 110100 0 0 0 0 = -22
3 220 110100 100000 100002 0 0 = -14
3 220 110100 100000 101000 0 0 = -14
3 220 1010100 100000 100000 0 100001 = -14
3 220 1110100 100000 100000 0 100008 = tid-2,100000,0
3 220 1010100 100000 101000 5 100004 = tid-3,100000,0
3 220 7d0f00 100040 100000 4d 100008 = tid-4,100040,100008,4d
3 64 1 100000 c 0 0 = c
output 1 = \x04\0\0\0\x03\0\0\0\x02\0\0\0
";

#[test]
fn a_clone_is_refused_in_an_order(rt: HostRuntime) -> Result<(), Fail> {
    check(rt.alloc(), A_CLONE_IS_REFUSED_IN_AN_ORDER)
}

#[test]
fn harts_are_full_at_their_limit(rt: HostRuntime) -> Result<(), Fail> {
    let mut guest = Guest::new(rt.alloc())?;
    for _ in 1..64 {
        guest.call(rt.alloc(), "3 220 10100 100000 0 0 0")?;
    }
    guest.check(
        rt.alloc(),
        "made = 64\n3 220 10100 100000 0 0 0 = harts-full",
    )
}

// The flags with which musl makes a thread.
const A_THREAD_GETS_WHAT_ITS_FLAGS_ASK_FOR: &str = "\
0 220 7d0f00 100040 100000 4d 100008 = tid-2,100040,100008,4d
written = 100000..100004
";

#[test]
fn a_thread_gets_what_its_flags_ask_for(rt: HostRuntime) -> Result<(), Fail> {
    check(rt.alloc(), A_THREAD_GETS_WHAT_ITS_FLAGS_ASK_FOR)
}

const LINKS_ARE_SEEN_BY_THEIR_ORIGINAL_NUMBERS_AND_REFUSED_IN_REGISTERS: &str = "\
store 100000 @12014
0 64 1 100000 3 1 @12014 = 3
output 1 = \x28\0\x01
0 64 1 @12014 @12014 1 1 = link-11
0 @64 @12014 @12014 @12014 1 1 = link-17
";

#[test]
fn links_are_seen_by_their_original_numbers_and_refused_in_registers(
    rt: HostRuntime,
) -> Result<(), Fail> {
    check(
        rt.alloc(),
        LINKS_ARE_SEEN_BY_THEIR_ORIGINAL_NUMBERS_AND_REFUSED_IN_REGISTERS,
    )
}
