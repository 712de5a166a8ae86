//! Words and what they say, as `clap` documents its reading and as the ranges stand.

use crate::words::{Words, read_words};
use command_words::fault::WordsFault;
use oc_base::range::Range;
use oc_base::text::Text;
use std::alloc::{AllocError, Global};
use std::test::Fail;

// Words with one blank between each two, and behind the bar what they say: the program, the numbers of workers, `every` and
// `limit`, the region's ends or `none`, the ring, the file of the log or `none`, and `report` or `quiet`. An empty word is
// written `''`.
const READ: &str = "\
p|p 2 100000 20000000 none 4096 none quiet
-- p|p 2 100000 20000000 none 4096 none quiet
p --|p 2 100000 20000000 none 4096 none quiet
-- --report|--report 2 100000 20000000 none 4096 none quiet
-- --|-- 2 100000 20000000 none 4096 none quiet
-|- 2 100000 20000000 none 4096 none quiet
''|'' 2 100000 20000000 none 4096 none quiet
help|help 2 100000 20000000 none 4096 none quiet
äöü中文|äöü中文 2 100000 20000000 none 4096 none quiet
p --report|p 2 100000 20000000 none 4096 none report
--report p|p 2 100000 20000000 none 4096 none report
--report -- p|p 2 100000 20000000 none 4096 none report
p --workers 1|p 1 100000 20000000 none 4096 none quiet
p --workers 16|p 16 100000 20000000 none 4096 none quiet
p --workers=0x10|p 16 100000 20000000 none 4096 none quiet
--workers 3 p|p 3 100000 20000000 none 4096 none quiet
--workers 0000000003 -- p|p 3 100000 20000000 none 4096 none quiet
p --every 1|p 2 1 20000000 none 4096 none quiet
p --every 100000000|p 2 100000000 20000000 none 4096 none quiet
p --every=0x5F5E100|p 2 100000000 20000000 none 4096 none quiet
--every 5000 p|p 2 5000 20000000 none 4096 none quiet
p --limit 1|p 2 100000 1 none 4096 none quiet
p --limit 100000000|p 2 100000 100000000 none 4096 none quiet
p --limit=0x05f5e100|p 2 100000 100000000 none 4096 none quiet
--limit 1000 p|p 2 100000 1000 none 4096 none quiet
p --region 0x20000:0x1000|p 2 100000 20000000 131072..135168 4096 none quiet
p --region=131072:8388608|p 2 100000 20000000 131072..8519680 4096 none quiet
--region 0:4096 p|p 2 100000 20000000 0..4096 4096 none quiet
p --ring 1|p 2 100000 20000000 none 1 none quiet
p --ring 65536|p 2 100000 20000000 none 65536 none quiet
p --ring=0x10|p 2 100000 20000000 none 16 none quiet
--ring 7 p|p 2 100000 20000000 none 7 none quiet
p --record r|p 2 100000 20000000 none 4096 r quiet
p --record=r|p 2 100000 20000000 none 4096 r quiet
--record r p|p 2 100000 20000000 none 4096 r quiet
--record=p p|p 2 100000 20000000 none 4096 p quiet
p --record -|p 2 100000 20000000 none 4096 - quiet
p --record ''|p 2 100000 20000000 none 4096 '' quiet
p --record=|p 2 100000 20000000 none 4096 '' quiet
p --record=-x|p 2 100000 20000000 none 4096 -x quiet
p --workers 4 --every 5000 --limit 1000 --region 0x20000:4096 --ring 16 --record r --report|p 4 5000 1000 131072..135168 16 r report
--report --record=r --ring=16 --region=0x20000:4096 --limit=1000 --every=5000 --workers=4 -- p|p 4 5000 1000 131072..135168 16 r report";

// Words that are refused, of which one row has none.
const REFUSED: &str = "\
--report

p q
-- p q
p -- q
p --report q
-h
--help
p -h
p --help
-V
p --version
-p
p -x
p --script s
p --generate 1
p --Report
p --work 2
p --report --report
p --report=true
p --report=
--workers p
p --workers
p --workers=
p --workers ''
p --workers --report
p --workers 2 2
p --workers 2 --workers 2
p --workers 0
p --workers 17
p --workers 0x11
p --workers 4294967298
p --workers 00000000002
p --workers 0x000000002
p --workers 0X2
p --workers 0x
p --workers -2
p --workers=-2
p --workers=+2
p --workers 2.
p --every
p --every 0
p --every 100000001
p --every 0x5F5E101
p --every 4294967297
p --every=1 --every=1
p --limit
p --limit 0
p --limit 100000001
p --limit 0x5f5e101
p --limit 9999999999
p --limit 1 --limit 1
p --region
p --region=
p --region 0x20000
p --region 0x20001:4096
p --region 0x20000:4095
p --region 0x20000:8392704
p --region 0x20000:4096 --region 0x20000:4096
p --ring
p --ring 0
p --ring 65537
p --ring 4 --ring 4
--record p
p --record
p --record -x
p --record --report
--record -- p
p --record r --record r
p --record=r --record=r";

fn split(alloc: Global, row: &str) -> Result<Vec<String>, Fail> {
    let mut words = Vec::new(alloc);
    for word in row.split_whitespace() {
        let word = if word == "''" { "" } else { word };
        words.push(String::from_str(alloc, word)?)?;
    }
    Ok(words)
}

// A name, or `''` for the empty one.
fn name(text: &Text) -> &str {
    let text = text.as_str();
    if text.is_empty() { "''" } else { text }
}

fn add_region(text: &mut String, region: Option<Range>) -> Result<(), AllocError> {
    match region {
        Some(Range { from, to }) => write!(text, "{from}..{to}"),
        None => text.push_str("none"),
    }
}

fn log_text(words: &Words) -> &str {
    match &words.log_name {
        Some(text) => name(text),
        None => "none",
    }
}

fn add_numbers(text: &mut String, words: &Words) -> Result<(), AllocError> {
    let program = name(&words.program);
    let (workers, every, limit) = (words.workers, words.every, words.limit);
    write!(text, "{program} {workers} {every} {limit} ")
}

fn add_words(text: &mut String, words: &Words) -> Result<(), AllocError> {
    add_numbers(text, words)?;
    add_region(text, words.region)?;
    let (ring, log) = (words.ring, log_text(words));
    let report = if words.report { "report" } else { "quiet" };
    write!(text, " {ring} {log} {report}")
}

fn said(alloc: Global, words: &Words) -> Result<String, AllocError> {
    let mut text = String::new(alloc);
    add_words(&mut text, words)?;
    Ok(text)
}

fn answer(alloc: Global, words: &[String]) -> Result<String, AllocError> {
    match read_words(alloc, words) {
        Ok(words) => said(alloc, &words),
        Err(WordsFault::Usage) => String::from_str(alloc, "usage"),
        Err(WordsFault::NoMemory) => String::from_str(alloc, "out of memory"),
    }
}

// Fails where the words of a row say something else than is wanted.
fn check(alloc: Global, row: &str, wanted: &str) -> Result<(), Fail> {
    let words = split(alloc, row)?;
    let said = answer(alloc, &words)?;
    if said.as_str() == wanted {
        return Ok(());
    }
    Err(Fail::new(format!(in alloc; "{said} is said by: {row}")?))
}

#[test]
fn words_name_a_program_and_what_else_is_asked(rt: HostRuntime) -> Result<(), Fail> {
    for row in READ.lines() {
        let (words, wanted) = row.split_once('|').unwrap_or((row, ""));
        check(rt.alloc(), words, wanted)?;
    }
    Ok(())
}

#[test]
fn other_words_are_refused(rt: HostRuntime) -> Result<(), Fail> {
    for row in REFUSED.lines() {
        check(rt.alloc(), row, "usage")?;
    }
    Ok(())
}
