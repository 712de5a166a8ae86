//! Guests that are assembled and looked at over files in memory. In a row a newline is written `/`.

use cases::guests::with_newlines;
use cases::images::file_of;
use cases::rows::{expect, split};
use look::call::look;
use oc_base::memory::{MemFiles, MemSink, MemSource};
use std::alloc::Global;
use std::test::Fail;

/// The words of a text.
fn words_of(alloc: Global, text: &str) -> Result<Vec<String>, Fail> {
    let mut words = Vec::new(alloc);
    for word in text.split_whitespace() {
        words.push(String::from_str(alloc, word)?)?;
    }
    Ok(words)
}

/// The files with this guest as `guest.elf` and this script as `s`, of which the call of this number fails; none where it is 0.
fn files_of(alloc: Global, guest: &str, script: &str, failing: u64) -> Result<MemFiles, Fail> {
    let mut files = Vec::new(alloc);
    files.push((String::from_str(alloc, "s")?, with_newlines(alloc, script)?))?;
    files.push((
        String::from_str(alloc, "guest.elf")?,
        file_of(alloc, guest)?,
    ))?;
    Ok(MemFiles::new(files, vec![in alloc; failing]?))
}

fn sink(alloc: Global, failing: u64) -> Result<MemSink, Fail> {
    Ok(MemSink::new(Vec::new(alloc), vec![in alloc; failing]?))
}

fn number(word: Option<&str>) -> u64 {
    word.unwrap_or("").parse().unwrap_or(0)
}

/// What a look comes to: its status, and what both outputs hold.
fn looked(
    alloc: Global,
    words: &[String],
    files: &mut MemFiles,
    out: &mut MemSink,
    err: &mut MemSink,
) -> Result<String, Fail> {
    let mut input = MemSource::new(Vec::new(alloc), Vec::new(alloc));
    let answer = look(alloc, words, files, &mut input, out, err);
    let status = answer.status;
    let shown = String::from_utf8_lossy(alloc, out.held())?;
    let told = String::from_utf8_lossy(alloc, err.held())?;
    Ok(format!(in alloc; "{status}|{shown}|{told}")?)
}

/// Looks at a guest: the words, and the numbers of the calls of files and outputs that fail.
fn look_at(alloc: Global, guest: &str, case: &str) -> Result<String, Fail> {
    let mut fields = case.split('|');
    let words = words_of(alloc, fields.next().unwrap_or(""))?;
    let mut files = files_of(alloc, guest, "", number(fields.next()))?;
    let mut out = sink(alloc, number(fields.next()))?;
    let mut err = sink(alloc, number(fields.next()))?;
    looked(alloc, &words, &mut files, &mut out, &mut err)
}

// What a row shows, its guest, the words, which calls of the files and outputs fail, and what the look comes to: its status and what
// both outputs hold.
const LOOKS: &str = "\
a whole program: countdown | guest.elf = 0|entry 0x10000/text 0x10000..0x10028/region 0x12000..0x92000: in reach of all text/functions 2/function 0 0x10000..0x10010 main: blocks 1 sites 0 pairs 0 slots 0/function 1 0x10010..0x10028 work: blocks 3 sites 2 pairs 0 slots 0/|
a region that calls don't reach: countdown | guest.elf --region 0x7000000:4096 = 0|entry 0x10000/text 0x10000..0x10028/region 0x7000000..0x7001000: out of reach of some text/free and in reach: --region 0x11000:1044480/functions 2/function 0 0x10000..0x10010 main: blocks 1 sites 0 pairs 0 slots 0/function 1 0x10010..0x10028 work: blocks 3 sites 2 pairs 0 slots 0/|
text that is too long: apart | guest.elf = 0|entry 0x10000/text 0x10000..0x196a0c/region 0x198000..0x218000: out of reach of some text/nothing is free and in reach: a JAL reaches 1 MiB, and text and a region are longer; link less text/functions 3/function 0 0x10000..0xd3504 a: blocks 1 sites 0 pairs 0 slots 0/function 1 0xd3504..0xd3508 f: blocks 1 sites 2 pairs 0 slots 0/function 2 0xd3508..0x196a0c b: blocks 1 sites 0 pairs 0 slots 0/|
a function by its name: countdown | guest.elf --function work = 0|function 1 0x10010..0x10028 work: blocks 3 sites 2 pairs 0 slots 0/block 1:0 0x10010..0x10014: goes on at block 1/    0x10010  addi x5, x0, 2/block 1:1 0x10014..0x1001c: branches to block 1, goes on at block 2/    0x10014  addi x5, x5, -1/    0x10018  bne x5, x0, 0x10014/block 1:2 0x1001c..0x10028: jumps to x1/    0x1001c  auipc x6, 0x0/    0x10020  andi x10, x6, 63/    0x10024  jalr x0, 0(x1)/|
a function by its number: last call | guest.elf --function 2 = 0|function 2 0x10008..0x1000c main: blocks 1 sites 1 pairs 0 slots 0/block 2:0 0x10008..0x1000c: calls 0x10000, goes on at 0x1000c/    0x10008  jal x1, 0x10000/|
a function of a pair: far call | guest.elf --function leaf = 0|function 1 0x10010..0x10014 leaf: blocks 1 sites 0 pairs 1 slots 0/block 1:0 0x10010..0x10014: jumps to x1/    0x10010  jalr x0, 0(x1)/|
a word that isn't read: zero word | guest.elf --function bad = 0|function 1 0x10008..0x1000c bad: not moved: the word at 0x10008 reads as no instruction/|
a branch out: faults | guest.elf --function a = 0|function 0 0x10000..0x1000c a: not moved: branch at 0x10008 leaves the function/|
a branch between words: faults | guest.elf --function d = 0|function 3 0x10014..0x1001c d: not moved: jump at 0x10018 goes to no multiple of 4/|
functions that overlap: neighbours with 1010:8:1000200000000 1018:8:10004 1020:8:8 | guest.elf --function 0 = 0|function 0 0x10000..0x10008 a: not moved: function 1 has an address of this one/|
no function of a name: countdown | guest.elf --function nobody = 120||ocolos_look: no function nobody/
no function of a number: countdown | guest.elf --function 2 = 120||ocolos_look: no function 2/
two programs: countdown | guest.elf guest.elf = 120||ocolos_look: usage: ocolos_look PROGRAM [--region BASE:SIZE] [--function NAME | --script SCRIPT [--ring N] [--svg FILE]]/
no program: countdown |  = 120||ocolos_look: usage: ocolos_look PROGRAM [--region BASE:SIZE] [--function NAME | --script SCRIPT [--ring N] [--svg FILE]]/
a region between pages: countdown | guest.elf --region 0x12001:4096 = 120||ocolos_look: usage: ocolos_look PROGRAM [--region BASE:SIZE] [--function NAME | --script SCRIPT [--ring N] [--svg FILE]]/
compressed instructions: countdown with 30:4:1 | guest.elf = 123||ocolos: program elf 3 0/ocolos_look: compressed instructions: build with -march=rv64ima, the C library too/
a region over text: countdown | guest.elf --region 0x10000:4096 = 123||ocolos: program image 4 0x10000/ocolos_look: the region for moved code isn't free at 0x10000: name another by --region BASE:SIZE/
the files fail: countdown | guest.elf|1 = 121||ocolos_look: cannot read guest.elf/
the output fails: countdown | guest.elf --function 0|0|1 = 122||
the second output fails: countdown | guest.elf --function 2|0|0|1 = 122||";

#[test]
fn a_look_shows_what_a_program_has(rt: HostRuntime) -> Result<(), Fail> {
    let alloc = rt.alloc();
    for row in LOOKS.lines() {
        let (guest, case, wanted) = split(row);
        let wanted = String::from_utf8_lossy(alloc, &with_newlines(alloc, wanted)?)?;
        let answer = look_at(alloc, guest, case)?;
        expect(alloc, row, &answer, &wanted)?;
    }
    Ok(())
}

/// Looks at a run of a guest under a script.
fn look_at_run(alloc: Global, guest: &str, script: &str) -> Result<String, Fail> {
    let words = words_of(alloc, "guest.elf --script s")?;
    let mut files = files_of(alloc, guest, script, 0)?;
    let mut out = sink(alloc, 0)?;
    let mut err = sink(alloc, 0)?;
    looked(alloc, &words, &mut files, &mut out, &mut err)
}

// What is wrong, a guest of two functions, of which the second has three blocks, a script, and what is told of it.
const SCRIPTS: &str = "\
no end: countdown | till 5/ = 124||ocolos: script line 2 fault 5/ocolos_look: line 2: there is no end, after the last line/
nothing: countdown |  = 124||ocolos: script line 1 fault 5/ocolos_look: line 1: there is no end, after the last line/
no command: countdown | go/ = 124||ocolos: script line 1 fault 1/ocolos_look: line 1: no command has this form: go/
two spaces: countdown | # all/till  5/end/ = 124||ocolos: script line 2 fault 1/ocolos_look: line 2: no command has this form: till  5/
a hart too many: countdown | real 64 1/end/ = 124||ocolos: script line 1 fault 2/ocolos_look: line 1: a number is missing or too large, or a hart is over 63: real 64 1/
no function: countdown | till 1/replace 17:0/end/ = 124||ocolos: script line 2 fault 3/ocolos_look: line 2: function 17 isn't there: the program has 2, from 0/
too few blocks: countdown | replace 1:0 1/end/ = 124||ocolos: script line 1 fault 4/ocolos_look: line 1: function 1 (work) has 3 blocks, the plan names 2/
a block too many: countdown | replace 0:0 0/end/ = 124||ocolos: script line 1 fault 4/ocolos_look: line 1: function 0 (main) has 1 block, the plan names 2/
a function twice: countdown | replace 0:0; 0:0/end/ = 124||ocolos: script line 1 fault 4/ocolos_look: line 1: function 0 (main) is given twice/
a block twice: countdown | replace 0:0; 1:0 1 1/end/ = 124||ocolos: script line 1 fault 4/ocolos_look: line 1: function 1 (work): block 1 is named twice/
no block: countdown | replace 1:0 1 3/end/ = 124||ocolos: script line 1 fault 4/ocolos_look: line 1: function 1 (work): block 3 isn't there: it has 3, from 0/
after the end: countdown | end/snap/ = 124||ocolos: script line 2 fault 6/ocolos_look: line 2: a command stands after end: snap/
too many steps: countdown | till 2000000000/real 0 1/end/ = 124||ocolos: script line 2 fault 7/ocolos_look: line 2: the counts up to here sum to more than 2000000000: real 0 1/";

#[test]
fn a_fault_of_a_script_is_told_in_words(rt: HostRuntime) -> Result<(), Fail> {
    let alloc = rt.alloc();
    for row in SCRIPTS.lines() {
        let (guest, script, wanted) = split(row);
        let wanted = String::from_utf8_lossy(alloc, &with_newlines(alloc, wanted)?)?;
        let answer = look_at_run(alloc, guest, script)?;
        expect(alloc, row, &answer, &wanted)?;
    }
    Ok(())
}
