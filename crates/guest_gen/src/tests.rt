//! Calls over files in memory: the answer, the line on `err`, and the file that is written.

use crate::call::make;
use oc_base::memory::{MemFiles, MemSink};
use std::alloc::Global;
use std::process::Abort;
use std::test::Fail;

// The texts of all calls by their names. A newline is written `/`.
const TEXTS: &str = "\
hi.s=.func main; addi x10,x0,1; addi x17,x0,64; lui x11,17; addi x12,x0,3; ecall/addi x10,x0,0; addi x17,x0,93; ecall; .end; .data; .ascii \"hi\\n\"/
countdown.s=.func main; jal x1,work; jal x1,work; addi x17,x0,93; ecall; .end/.func work; addi x5,x0,2; top: addi x5,x5,-1; bne x5,x0,top; auipc x6,0; andi x10,x6,63; ret; .end
vtable.s=.func main; lui x8,17; ld x5,0(x8); jalr x1,0(x5); ld x5,0(x8); jalr x1,0(x5); addi x17,x0,93; ecall; .end; .func f; addi x10,x10,5; ret; .end/.data; .object _ZTV1F; .slot f; .endobject
unknown.s=go x1/
past.s=.func a/addi x1,x0,4096/.end/
nowhere.s=.func a/jal x0,b/.end/
open.s=.func a/
empty.s=
twice.s=.func a/.end/.func a/.end/
misplaced.s=.func a/.end/.byte 1/
operands.s=.func a/ret x1/.end/
full.s=.func a/.end/.data/.space 16777217/
--generate=.func a/ret/.end/";

fn put_texts(alloc: Global, files: &mut Vec<(String, Vec<u8>)>) -> Result<(), Fail> {
    for row in TEXTS.lines() {
        if let Some((name, text)) = row.split_once('=') {
            let mut bytes = text.as_bytes().to_vec(alloc)?;
            for byte in &mut bytes {
                if *byte == b'/' {
                    *byte = b'\n';
                }
            }
            files.push((String::from_str(alloc, name)?, bytes))?;
        }
    }
    Ok(())
}

fn split(alloc: Global, text: &str) -> Result<Vec<String>, Fail> {
    let mut words = Vec::new(alloc);
    for word in text.split_whitespace() {
        words.push(String::from_str(alloc, word)?)?;
    }
    Ok(words)
}

// The words, the numbers of the calls of `files`, `out` and `err` that fail (0: none), the status, the line on `err`, and that
// on `out`.
const CALLS: &str = "\
hi.s hi.elf|0|0|0|0||
countdown.s countdown.elf|0|0|0|0||
vtable.s vtable.elf|0|1|0|0||
--generate 7|0|0|0|0||
--generate 7 seven.elf|0|0|0|0||generated 7 prints 126000
--generate 0x3e8 most.elf|0|0|0|0||generated 1000 prints 18000000
--generate 0x3E8 most.elf|0|0|0|0||generated 1000 prints 18000000
--generate 0000000001 least.elf|0|0|0|0||generated 1 prints 18000
unknown.s out|0|0|0|123|line 1 fault 1|
past.s out|0|0|0|123|line 2 fault 3|
nowhere.s out|0|0|0|123|line 2 fault 4|
open.s out|0|0|0|123|line 1 fault 6|
empty.s out|0|0|0|123|line 1 fault 4|
twice.s out|0|0|0|123|line 3 fault 5|
misplaced.s out|0|0|0|123|line 3 fault 7|
operands.s out|0|0|0|123|line 2 fault 2|
full.s out|0|0|0|123|line 4 fault 8|
|0|0|0|120|usage|
hi.s|0|0|0|120|usage|
hi.s hi.elf more|0|0|0|120|usage|
--generate 7 seven.elf more|0|0|0|120|usage|
--generate 0 none.elf|0|0|0|120|usage|
--generate 1001 more.elf|0|0|0|120|usage|
--generate 00000000001 least.elf|0|0|0|120|usage|
--generate 0x least.elf|0|0|0|120|usage|
--generate 0x000000001 least.elf|0|0|0|120|usage|
--generate -1 least.elf|0|0|0|120|usage|
none.s out|0|0|0|121|cannot read none.s|
hi.s hi.elf|1|0|0|121|cannot read hi.s|
hi.s hi.elf|2|0|0|122||
--generate 7 seven.elf|1|0|0|122||
--generate 7 seven.elf|0|1|0|122||
past.s out|0|0|1|122||";

fn number(word: Option<&str>) -> u64 {
    word.unwrap_or("").parse().unwrap_or(0)
}

fn failing(alloc: Global, number: u64) -> Result<Vec<u64>, Fail> {
    Ok(vec![in alloc; number]?)
}

fn check(rt: &(impl Abort + AllocGlobal), row: &str) -> Result<(), Fail> {
    let alloc = rt.alloc();
    let mut fields = row.split('|');
    let words = split(alloc, fields.next().unwrap_or(""))?;
    let mut texts = Vec::new(alloc);
    put_texts(alloc, &mut texts)?;
    let mut files = MemFiles::new(texts, failing(alloc, number(fields.next()))?);
    let mut out = MemSink::new(Vec::new(alloc), failing(alloc, number(fields.next()))?);
    let mut err = MemSink::new(Vec::new(alloc), failing(alloc, number(fields.next()))?);
    let made = make(alloc, &words, &mut files, &mut out, &mut err);
    assert_eq!(rt; u64::from(made.status), number(fields.next()), "{row}");
    let line = match fields.next() {
        Some("") | None => String::new(alloc),
        Some(line) => format!(in alloc; "ocolos_asm: {line}\n")?,
    };
    assert_eq!(rt; err.held(), line.as_bytes(), "{row}");
    let line = match fields.next() {
        Some("") | None => String::new(alloc),
        Some(line) => format!(in alloc; "{line}\n")?,
    };
    assert_eq!(rt; out.held(), line.as_bytes(), "{row}");
    Ok(())
}

#[test]
fn a_call_answers_with_its_status_and_its_line(rt: HostRuntime) -> Result<(), Fail> {
    for row in CALLS.lines() {
        check(&rt, row)?;
    }
    Ok(())
}

#[test]
fn a_text_past_its_limit_is_too_long(rt: HostRuntime) -> Result<(), Fail> {
    let alloc = rt.alloc();
    let mut texts = Vec::new(alloc);
    let text = vec![in alloc; b'\n'; 67108865]?;
    texts.push((String::from_str(alloc, "long.s")?, text))?;
    let mut files = MemFiles::new(texts, Vec::new(alloc));
    let mut out = MemSink::new(Vec::new(alloc), Vec::new(alloc));
    let mut err = MemSink::new(Vec::new(alloc), Vec::new(alloc));
    let words = split(alloc, "long.s out")?;
    let made = make(alloc, &words, &mut files, &mut out, &mut err);
    assert_eq!(rt; made.status, 126);
    assert_eq!(rt; err.held(), b"ocolos_asm: too long long.s\n".as_slice());
    Ok(())
}

// The sum FNV-1a, of 64 bits.
fn sum(bytes: &[u8]) -> u64 {
    let mut sum = 0xcbf2_9ce4_8422_2325u64;
    for byte in bytes {
        sum = (sum ^ u64::from(*byte)).wrapping_mul(0x0100_0000_01b3);
    }
    sum
}

// The words before the output's name, and the length and sum of the file that an independent assembler writes: for a
// generated guest, of a text that says the same.
const FILES: [(&str, usize, u64); 6] = [
    ("hi.s", 8832, 0x6546_38e0_bdd6_8c99),
    ("countdown.s", 4776, 0x3a54_0d1e_2d51_53e1),
    ("vtable.s", 8912, 0x82b5_12a4_eab7_4b78),
    ("--generate 1", 9480, 0xcc41_3bf0_4781_cb9b),
    ("--generate 7", 9480, 0xc939_00a6_3aa6_78fb),
    ("--generate 1000", 9480, 0x46fc_3a8b_271f_a941),
];

#[test]
fn the_file_holds_the_program(rt: HostRuntime) -> Result<(), Fail> {
    let alloc = rt.alloc();
    for (asked, len, wanted) in FILES {
        let mut texts = Vec::new(alloc);
        put_texts(alloc, &mut texts)?;
        let mut files = MemFiles::new(texts, Vec::new(alloc));
        let mut out = MemSink::new(Vec::new(alloc), Vec::new(alloc));
        let mut err = MemSink::new(Vec::new(alloc), Vec::new(alloc));
        let words = split(alloc, format!(in alloc; "{asked} out")?.as_str())?;
        let made = make(alloc, &words, &mut files, &mut out, &mut err);
        assert_eq!(rt; made.status, 0);
        let bytes = files.file("out").unwrap_or(b"");
        assert_eq!(rt; (bytes.len(), sum(bytes)), (len, wanted), "{asked}");
    }
    Ok(())
}
