//! Calls over files, an input and outputs in memory: what is answered and what is written.

use crate::call::play;
use oc_base::memory::{MemFiles, MemSink, MemSource};
use std::alloc::Global;
use std::process::Abort;
use std::test::Fail;

// The text of a guest that writes the three bytes at 0x11000 to output 1 and exits with 0, as RISC-V words.
const HI: [u32; 8] = [
    0x0010_0513, // addi x10, x0, 1
    0x0400_0893, // addi x17, x0, 64
    0x0001_15b7, // lui x11, 17
    0x0030_0613, // addi x12, x0, 3
    0x0000_0073, // ecall
    0x0000_0513, // addi x10, x0, 0
    0x05d0_0893, // addi x17, x0, 93
    0x0000_0073, // ecall
];

fn put(file: &mut Vec<u8>, bytes: &[u8]) -> Result<(), Fail> {
    Ok(file.extend_from_slice(bytes)?)
}

fn program_header(
    file: &mut Vec<u8>,
    flags: u32,
    offset: u64,
    at: u64,
    size: u64,
) -> Result<(), Fail> {
    put(file, &1u32.to_le_bytes())?;
    put(file, &flags.to_le_bytes())?;
    for field in [offset, at, at, size, size, 4096] {
        put(file, &field.to_le_bytes())?;
    }
    Ok(())
}

fn section_header(
    file: &mut Vec<u8>,
    kind: u32,
    flags: u64,
    at: u64,
    offset: u64,
    size: u64,
    link: u64,
) -> Result<(), Fail> {
    put(file, &0u32.to_le_bytes())?;
    put(file, &kind.to_le_bytes())?;
    for field in [flags, at, offset, size, link, 4, 0] {
        put(file, &field.to_le_bytes())?;
    }
    Ok(())
}

// An ELF file with these words of text at 0x10000 and these bytes of data at 0x11000, and an empty table of symbols.
fn program(alloc: Global, words: &[u32], data: &[u8]) -> Result<Vec<u8>, Fail> {
    let text = 4u64.wrapping_mul(words.len() as u64);
    let size = data.len() as u64;
    let data_at = text.wrapping_add(176);
    let mut file = Vec::new(alloc);
    put(
        &mut file,
        b"\x7fELF\x02\x01\x01\0\0\0\0\0\0\0\0\0\x02\0\xf3\0\x01\0\0\0",
    )?;
    put(&mut file, &0x10000u64.to_le_bytes())?;
    put(&mut file, &64u64.to_le_bytes())?;
    put(&mut file, &data_at.wrapping_add(size).to_le_bytes())?;
    put(&mut file, b"\0\0\0\0\x40\0\x38\0\x02\0\x40\0\x03\0\0\0")?;
    program_header(&mut file, 5, 176, 0x10000, text)?;
    program_header(&mut file, 6, data_at, 0x11000, size)?;
    for word in words {
        put(&mut file, &word.to_le_bytes())?;
    }
    put(&mut file, data)?;
    section_header(&mut file, 0, 0, 0, 0, 0, 0)?;
    section_header(&mut file, 1, 6, 0x10000, 0, text, 0)?;
    section_header(&mut file, 2, 0, 0, 0, 0, 0)?;
    Ok(file)
}

fn named(alloc: Global, name: &str, bytes: Vec<u8>) -> Result<(String, Vec<u8>), Fail> {
    Ok((String::from_str(alloc, name)?, bytes))
}

// The program `hi` with another last word.
fn ending(alloc: Global, word: u32) -> Result<Vec<u8>, Fail> {
    let mut words = HI;
    words[7] = word;
    program(alloc, &words, b"hi\n")
}

// The program `hi`, cut to its first bytes.
fn cut(alloc: Global, len: usize) -> Result<Vec<u8>, Fail> {
    let mut file = program(alloc, &HI, b"hi\n")?;
    file.truncate(len);
    Ok(file)
}

// The program `hi` with its flags for compressed instructions set.
fn compressed(alloc: Global) -> Result<Vec<u8>, Fail> {
    let mut file = program(alloc, &HI, b"hi\n")?;
    if file.len() > 48 {
        file[48] = 1;
    }
    Ok(file)
}

// The files of all rows. The whole file `hi.elf` has 403 bytes, its section headers from 211 on.
const SCRIPTS: [(&str, &str); 13] = [
    ("whole", "real 0 100\nend\n"),
    ("four", "real 0 4\nend\n"),
    ("till", "# all harts\n\ntill 100\nend"),
    ("steps", "steps 0 3\nsteps 0 5\nend\n"),
    ("another hart", "real 1 100\nend\n"),
    ("no end", "till 5\n"),
    ("nowhere", "replace 0:0\nend\n"),
    ("go", "go\n"),
    ("number", "till x\n"),
    ("two ends", "end\nend\n"),
    ("moved", "real 0 4\nsnap\nreplace\nretire\ntill 100\nend\n"),
    ("most", "real 0 2000000000\nend\n"),
    ("too many", "till 5\nreal 0 1999999996\nend\n"),
];

fn disk(alloc: Global) -> Result<Vec<(String, Vec<u8>)>, Fail> {
    let mut files = Vec::new(alloc);
    files.push(named(alloc, "hi.elf", program(alloc, &HI, b"hi\n")?)?)?;
    files.push(named(alloc, "trap.elf", ending(alloc, 0x0000_0013)?)?)?;
    files.push(named(alloc, "branch.elf", ending(alloc, 0x0000_0063)?)?)?;
    files.push(named(alloc, "empty.elf", Vec::new(alloc))?)?;
    files.push(named(alloc, "cut.elf", cut(alloc, 63)?)?)?;
    files.push(named(alloc, "last-byte-cut.elf", cut(alloc, 402)?)?)?;
    files.push(named(alloc, "compressed.elf", compressed(alloc)?)?)?;
    files.push(named(
        alloc,
        "into-the-region.elf",
        program(alloc, &[0x0000_206f], b"")?,
    )?)?;
    for (name, text) in SCRIPTS {
        files.push(named(alloc, name, text.as_bytes().to_vec(alloc)?)?)?;
    }
    Ok(files)
}

// Calls: the words, parted by commas; the numbers of the calls of files, input and both outputs that fail (0: none); the
// status; what is on the first output, and on the second after `ocolos: `. A newline is written `/`.
const RUNS: &str = "\
hi.elf,whole|0 0 0 0|0|hi/|exit 0/
hi.elf,till|0 0 0 0|0|hi/|exit 0/
hi.elf,steps|0 0 0 0|0|hi/|exit 0/
hi.elf,most|0 0 0 0|0|hi/|exit 0/
hi.elf,four|0 0 0 0|115||unfinished/
hi.elf,another hart|0 0 0 0|115||unfinished/
hi.elf,whole,--region,0x20000:4096|0 0 0 0|0|hi/|exit 0/
hi.elf,whole,--ring,4|0 0 0 0|0|hi/|exit 0/
hi.elf,moved|0 0 0 0|0|hi/|exit 0/
--generate,1|1 0 0 0|0|18000/|exit 0/
--region=131072:0x1000,hi.elf,--,whole|0 0 0 0|0|hi/|exit 0/
branch.elf,whole|0 0 0 0|115|hi/|unfinished/
trap.elf,whole|0 0 0 0|118|hi/|trap 1 at 0x10020 value 0x10020/";

const FAULTS: &str = "\
empty.elf,whole|0 0 0 0|123||program elf 1 0/
empty.elf,go|0 0 0 0|123||program elf 1 0/
cut.elf,whole|0 0 0 0|123||program elf 5 0/
compressed.elf,whole|0 0 0 0|123||program elf 3 0/
last-byte-cut.elf,whole|0 0 0 0|123||program elf 5 211/
into-the-region.elf,whole|0 0 0 0|123||program image 5 0x10000/
hi.elf,whole,--region,0x11000:4096|0 0 0 0|123||program image 4 0x11000/
--generate,1,--region,0x11000:4096|0 0 0 0|123||program image 4 0x11000/
hi.elf,no end|0 0 0 0|124||script line 2 fault 5/
hi.elf,go|0 0 0 0|124||script line 1 fault 1/
hi.elf,nowhere|0 0 0 0|124||script line 1 fault 3/
hi.elf,number|0 0 0 0|124||script line 1 fault 2/
hi.elf,two ends|0 0 0 0|124||script line 2 fault 6/
hi.elf,too many|0 0 0 0|124||script line 2 fault 7/";

const REFUSALS: &str = "\
hi.elf|0 0 0 0|120||usage/
hi.elf,whole,more|0 0 0 0|120||usage/
hi.elf,whole,--help|0 0 0 0|120||usage/
hi.elf,whole,--report=true|0 0 0 0|120||usage/
hi.elf,whole,--report,--report|0 0 0 0|120||usage/
hi.elf,whole,--region|0 0 0 0|120||usage/
hi.elf,whole,--region,0x20001:4096|0 0 0 0|120||usage/
hi.elf,whole,--region,0x20000|0 0 0 0|120||usage/
hi.elf,whole,--region,0x20000:8392704|0 0 0 0|120||usage/
hi.elf,whole,--ring,0|0 0 0 0|120||usage/
--generate,1001|0 0 0 0|120||usage/
--generate,1,hi.elf,whole|0 0 0 0|120||usage/
--generate,1|0 1 0 0|121||cannot read input/
none.elf,whole|0 0 0 0|121||cannot read none.elf/
hi.elf,none|0 0 0 0|121||cannot read none/
hi.elf,whole|1 0 0 0|121||cannot read hi.elf/
hi.elf,whole|2 0 0 0|121||cannot read whole/
hi.elf,whole|0 1 0 0|121||cannot read input/
empty.elf,go|0 1 0 0|121||cannot read input/
hi.elf,whole|0 0 1 0|122||
hi.elf,whole|0 0 0 1|122|hi/|";

fn with_newlines(alloc: Global, text: &str) -> Result<Vec<u8>, Fail> {
    let mut bytes = text.as_bytes().to_vec(alloc)?;
    for byte in &mut bytes {
        if *byte == b'/' {
            *byte = b'\n';
        }
    }
    Ok(bytes)
}

// The last line, or nothing.
fn last(alloc: Global, text: &str) -> Result<Vec<u8>, Fail> {
    if text.is_empty() {
        return Ok(Vec::new(alloc));
    }
    let line = format!(in alloc; "ocolos: {text}")?;
    with_newlines(alloc, line.as_str())
}

fn words_of(alloc: Global, text: &str) -> Result<Vec<String>, Fail> {
    let mut words = Vec::new(alloc);
    for word in text.split(',') {
        words.push(String::from_str(alloc, word)?)?;
    }
    Ok(words)
}

fn failing(alloc: Global, number: Option<&str>) -> Result<Vec<u64>, Fail> {
    let mut numbers = Vec::new(alloc);
    if let Ok(number) = number.unwrap_or("").parse() {
        numbers.push(number)?;
    }
    Ok(numbers)
}

fn check(rt: &(impl Abort + AllocGlobal), row: &str) -> Result<(), Fail> {
    let alloc = rt.alloc();
    let mut fields = row.split('|');
    let words = words_of(alloc, fields.next().unwrap_or(""))?;
    let mut fails = fields.next().unwrap_or("").split(' ');
    let mut files = MemFiles::new(disk(alloc)?, failing(alloc, fails.next())?);
    let mut input = MemSource::new(Vec::new(alloc), failing(alloc, fails.next())?);
    let mut out = MemSink::new(Vec::new(alloc), failing(alloc, fails.next())?);
    let mut err = MemSink::new(Vec::new(alloc), failing(alloc, fails.next())?);
    let status: u8 = fields.next().unwrap_or("").parse().unwrap_or(0);
    let written = with_newlines(alloc, fields.next().unwrap_or(""))?;
    let last = last(alloc, fields.next().unwrap_or(""))?;
    let answer = play(alloc, &words, &mut files, &mut input, &mut out, &mut err);
    assert_eq!(rt; answer.status, status, "{row}");
    assert_eq!(rt; out.held(), written.as_slice(), "{row}");
    assert_eq!(rt; err.held(), last.as_slice(), "{row}");
    Ok(())
}

#[test]
fn runs_deliver_what_the_guest_wrote(rt: HostRuntime) -> Result<(), Fail> {
    for row in RUNS.lines() {
        check(&rt, row)?;
    }
    Ok(())
}

// The report of the program `hi` that has run to its end: eight instructions.
const REPORT: &str = "\
real 8 layout 0
snaps 0 attempts 0 done 0 refused 0 retired 0
sites 0 slots 0
hart 0 ended
";

fn check_report(
    rt: &(impl Abort + AllocGlobal),
    words: &str,
    report: &str,
    written: &str,
) -> Result<(), Fail> {
    let alloc = rt.alloc();
    let mut files = MemFiles::new(disk(alloc)?, Vec::new(alloc));
    let mut input = MemSource::new(Vec::new(alloc), Vec::new(alloc));
    let mut out = MemSink::new(Vec::new(alloc), Vec::new(alloc));
    let mut err = MemSink::new(Vec::new(alloc), Vec::new(alloc));
    let words = words_of(alloc, words)?;
    let answer = play(alloc, &words, &mut files, &mut input, &mut out, &mut err);
    assert_eq!(rt; answer.report.as_slice(), report.as_bytes());
    assert_eq!(rt; err.held(), written.as_bytes());
    Ok(())
}

#[test]
fn a_run_has_a_report(rt: HostRuntime) -> Result<(), Fail> {
    let alloc = rt.alloc();
    let both = format!(in alloc; "{REPORT}ocolos: exit 0\n")?;
    check_report(&rt, "hi.elf,whole,--report", REPORT, both.as_str())?;
    check_report(&rt, "hi.elf,whole", REPORT, "ocolos: exit 0\n")?;
    check_report(&rt, "hi.elf,--report", "", "ocolos: usage\n")
}

#[test]
fn a_program_or_a_script_with_a_fault_is_refused_by_it(rt: HostRuntime) -> Result<(), Fail> {
    for row in FAULTS.lines() {
        check(&rt, row)?;
    }
    Ok(())
}

#[test]
fn refusals_name_their_cause(rt: HostRuntime) -> Result<(), Fail> {
    for row in REFUSALS.lines() {
        check(&rt, row)?;
    }
    Ok(())
}

// A call with a program and an input of these lengths: its status and its line.
fn check_long(
    rt: &(impl Abort + AllocGlobal),
    lengths: (usize, usize),
    status: u8,
    line: &str,
) -> Result<(), Fail> {
    let alloc = rt.alloc();
    let mut files = disk(alloc)?;
    let bytes = vec![in alloc; 0u8; lengths.0]?;
    files.push(named(alloc, "long.elf", bytes)?)?;
    let mut files = MemFiles::new(files, Vec::new(alloc));
    let bytes = vec![in alloc; 0u8; lengths.1]?;
    let mut input = MemSource::new(bytes, Vec::new(alloc));
    let mut out = MemSink::new(Vec::new(alloc), Vec::new(alloc));
    let mut err = MemSink::new(Vec::new(alloc), Vec::new(alloc));
    let words = words_of(alloc, "long.elf,whole")?;
    let answer = play(alloc, &words, &mut files, &mut input, &mut out, &mut err);
    assert_eq!(rt; answer.status, status);
    assert_eq!(rt; err.held(), line.as_bytes());
    Ok(())
}

#[test]
fn what_is_past_its_limit_is_too_long(rt: HostRuntime) -> Result<(), Fail> {
    check_long(&rt, (67108865, 0), 126, "ocolos: too long long.elf\n")?;
    check_long(&rt, (0, 16777217), 126, "ocolos: too long input\n")?;
    check_long(&rt, (0, 16777216), 123, "ocolos: program elf 1 0\n")
}
