//! Blocks of functions. A row is a guest, a function's number, and its blocks, with a `>` behind those whose last word the next one
//! may follow; or its fault. Addresses are hexadecimal. What is wanted was told by an independent implementation.

use blocks::fault::Unreadable;
use blocks::index::FuncIndex;
use blocks::recover::recover;
use blocks::run::{Block, Run};
use cases::orders::number;
use cases::rows::{check, separate};
use image::picture::Image;
use std::alloc::{AllocError, Global};
use std::test::Fail;

fn push_block(text: &mut String, block: &Block) -> Result<(), AllocError> {
    let (from, to) = (block.range.from, block.range.to);
    let mark = if block.falls { ">" } else { "" };
    separate(text, " ")?;
    write!(text, "{from:x}..{to:x}{mark}")
}

fn list_text(alloc: Global, blocks: &[Block]) -> Result<String, AllocError> {
    let mut text = String::new(alloc);
    for block in blocks {
        push_block(&mut text, block)?;
    }
    Ok(text)
}

fn fault_text(alloc: Global, fault: Unreadable) -> Result<String, AllocError> {
    match fault {
        Unreadable::Undecodable(a) => format!(in alloc; "undecodable {a:x}"),
        Unreadable::BranchOut(a) => format!(in alloc; "branch out {a:x}"),
        Unreadable::Misaimed(a) => format!(in alloc; "misaimed {a:x}"),
        Unreadable::Overlap(g) => format!(in alloc; "overlap {g}"),
        Unreadable::NoMemory => String::from_str(alloc, "out of memory"),
    }
}

/// The blocks of a function.
fn blocks_text(alloc: Global, image: &Image, case: &str) -> Result<String, Fail> {
    let f = number(case);
    if f as usize >= image.funcs().len() {
        return Ok(String::from_str(alloc, "none")?);
    }
    match recover(alloc, image, f) {
        Ok(blocks) => Ok(list_text(alloc, blocks.list())?),
        Err(fault) => Ok(fault_text(alloc, fault)?),
    }
}

const BLOCKS: &str = "\
countdown | 0 = 10000..10010>
countdown | 1 = 10010..10014> 10014..1001c 1001c..10028
countdown | 2 = none
recursion | 0 = 10000..10010>
recursion | 1 = 10010..10014 10014..10030> 10030..10034
over 1021 | 0 = 10000..10008 10008..10ffc> 10ffc..11000>
loops | 0 = 10000..10004> 10004..1000c 1000c..10010 10010..10014 10014..10018 10018..1001c>
jumps | 0 = 10000..10004 10004..10008> 10008..1000c 1000c..1001c 1001c..10020
jumps | 1 = 10020..10024
neighbours | 0 = 10000..10008>
neighbours | 1 = 10008..10010>
zero word | 0 = 10000..10008>";

#[test]
fn blocks_end_at_branches_jumps_and_their_targets(rt: HostRuntime) -> Result<(), Fail> {
    check(rt.alloc(), BLOCKS, blocks_text)
}

const FAULTS: &str = "\
zero word | 1 = undecodable 10008
faults | 0 = branch out 10008
faults | 1 = branch out 1000c
faults | 2 = branch out 10010
faults | 3 = misaimed 10018
faults | 4 = misaimed 1001c
faults | 5 = undecodable 10024
faults | 6 = misaimed 10030";

#[test]
fn the_first_fault_is_told(rt: HostRuntime) -> Result<(), Fail> {
    check(rt.alloc(), FAULTS, blocks_text)
}

/// The null symbol names one more function, which has the second word of the first and the first word of the second.
const OVERLAPPING: &str = "\
neighbours with 1010:8:1000200000000 1018:8:10004 1020:8:8 | 0 = overlap 1
neighbours with 1010:8:1000200000000 1018:8:10004 1020:8:8 | 1 = overlap 0
neighbours with 1010:8:1000200000000 1018:8:10004 1020:8:8 | 2 = overlap 1";

#[test]
fn functions_that_overlap_have_no_blocks(rt: HostRuntime) -> Result<(), Fail> {
    check(rt.alloc(), OVERLAPPING, blocks_text)
}

fn list_of_runs(alloc: Global, runs: &[Run]) -> Result<String, AllocError> {
    let mut text = String::new(alloc);
    for run in runs {
        let (from, count) = (run.from, run.words.len());
        separate(&mut text, " ")?;
        write!(text, "{from:x}: {count}")?;
    }
    Ok(text)
}

/// Where the runs of a function begin, and how many words each has.
fn runs_text(alloc: Global, image: &Image, case: &str) -> Result<String, Fail> {
    let f = number(case);
    if f as usize >= image.funcs().len() {
        return Err(Fail::new("no such function"));
    }
    let index = FuncIndex::new(alloc, image)?;
    match index.runs(alloc, f) {
        Ok(runs) => Ok(list_of_runs(alloc, runs.as_slice())?),
        Err(_) => Err(Fail::new("no blocks")),
    }
}

const RUNS: &str = "countdown | 1 = 10010: 1 10014: 2 1001c: 3";

#[test]
fn runs_have_their_words(rt: HostRuntime) -> Result<(), Fail> {
    check(rt.alloc(), RUNS, runs_text)
}
