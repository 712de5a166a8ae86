//! Words and what they say, as `clap` documents its reading and as the ranges stand.

use crate::words::{Guest, Words, WordsFault, read_words};
use oc_base::range::Range;
use std::alloc::{AllocError, Global};
use std::test::Fail;

// Words with one blank between each two, and behind the bar what they say: the program and the script, or `generated` and the
// number, the region's ends or `none`, the ring, and `report` or `quiet`. An empty word is written `''`.
const READ: &str = "\
p s|p s none 4096 quiet
p s --report|p s none 4096 report
--report p s|p s none 4096 report
p --report s|p s none 4096 report
p s --region 0x20000:0x1000|p s 131072..135168 4096 quiet
p s --region 131072:4096|p s 131072..135168 4096 quiet
p s --region=0x20000:4096|p s 131072..135168 4096 quiet
--region 0x20000:4096 p s|p s 131072..135168 4096 quiet
--region=0x20000:4096 --report p s|p s 131072..135168 4096 report
p --region 0x20000:4096 s --report|p s 131072..135168 4096 report
p s --region 0x20000:8388608|p s 131072..8519680 4096 quiet
p s --region 0:4096|p s 0..4096 4096 quiet
p s --region 0xABCDE000:0x00800000|p s 2882396160..2890784768 4096 quiet
p s --region 0xabcde000:0x800000|p s 2882396160..2890784768 4096 quiet
p s --region 0xfffff000:4096|p s 4294963200..4294967296 4096 quiet
p s --region 9999998976:8388608|p s 9999998976..10008387584 4096 quiet
p s --region 0000131072:4096|p s 131072..135168 4096 quiet
-- p s|p s none 4096 quiet
p -- s|p s none 4096 quiet
p s --|p s none 4096 quiet
--report -- p s|p s none 4096 report
-- --report --region|--report --region none 4096 quiet
p -- --report|p --report none 4096 quiet
-- -- -x|-- -x none 4096 quiet
- s|- s none 4096 quiet
help version|help version none 4096 quiet
--report help s|help s none 4096 report
'' s|'' s none 4096 quiet
p ''|p '' none 4096 quiet
p p|p p none 4096 quiet
äöü 中文|äöü 中文 none 4096 quiet
p s --ring 1|p s none 1 quiet
p s --ring 65536|p s none 65536 quiet
p s --ring 0x10|p s none 16 quiet
p s --ring 0x00010000|p s none 65536 quiet
p s --ring 0000000004|p s none 4 quiet
p --ring=4 s --report|p s none 4 report
--ring 4 -- p s|p s none 4 quiet
p s --region 0x20000:4096 --ring 2|p s 131072..135168 2 quiet
--generate 1|generated 1 none 4096 quiet
--generate=1000|generated 1000 none 4096 quiet
--generate 0x3e8|generated 1000 none 4096 quiet
--report --generate 0000000007|generated 7 none 4096 report
--generate 7 --ring 16 --region 0x20000:4096|generated 7 131072..135168 16 quiet
--generate 7 --|generated 7 none 4096 quiet";

// Words that are refused, of which one row has none.
const REFUSED: &str = "\
p

p s t
-- p s t
--report
p --report
''
-h
--help
p s -h
p s --help
p s -V
p s --version
-p s
p s -x
p s -report
p s --Report
p s --repor
p s --no-report
p s --report --report
p s --report=true
p s --report=
p s --ring 0
p s --ring 65537
p s --ring 0X10
p s --ring 00000000004
p s --ring 0x000000004
p s --ring 4 --ring 4
p s --ring -4
p s --ring=-4
p s --ring=+4
p s --ring=
p s --ring ''
p s --ring
p s --ring 4:4
--ring 4
p --ring 4
p s --generate 1
p --generate 1
-- p --generate 1
--generate 1 -- p
--generate 0
--generate 1001
--generate 4294967297
--generate -1
--generate 1.
--generate 1 1
--generate 1 --generate 1
--generate
--generate=
--generate ''
p s --region
--region p s
p s --region=
p s --region ''
p s --region -
p s --region --report
--region -- p s
p s --region 0x20000:4096 --region 0x20000:4096
p s --region=0x20000:4096 --region=0x20000:4096
p s --regio 0x20000:4096
p s --region 0x20000
p s --region 0x20000:
p s --region :4096
p s --region :
p s --region 0x20000:4096:
p s --region 0x20000:4096:1
p s --region==0x20000:4096
p s --region 0x20000:0
p s --region 0x20000:1
p s --region 0x20000:4095
p s --region 0x20000:4097
p s --region 0x20000:8388609
p s --region 0x20000:8392704
p s --region 0x20000:0xfffff000
p s --region 0x20001:4096
p s --region 0x20800:4096
p s --region 9999999999:4096
p s --region ff000:4096
p s --region 0X20000:4096
p s --region 0x:4096
p s --region x20000:4096
p s --region 0x000020000:4096
p s --region 00000131072:4096
p s --region 10000003072:4096
p s --region -0:4096
p s --region +131072:4096
p s --region 0x2000g:4096";

fn split(alloc: Global, row: &str) -> Result<Vec<String>, Fail> {
    let mut words = Vec::new(alloc);
    for word in row.split_whitespace() {
        let word = if word == "''" { "" } else { word };
        words.push(String::from_str(alloc, word)?)?;
    }
    Ok(words)
}

// A name, or `''` for the empty one.
fn name(text: &str) -> &str {
    if text.is_empty() { "''" } else { text }
}

fn add_guest(text: &mut String, guest: &Guest) -> Result<(), AllocError> {
    match guest {
        Guest::Files { program, script } => {
            let (program, script) = (name(program.as_str()), name(script.as_str()));
            write!(text, "{program} {script}")
        }
        Guest::Generated { count } => write!(text, "generated {count}"),
    }
}

fn add_region(text: &mut String, region: Option<Range>) -> Result<(), AllocError> {
    match region {
        Some(Range { from, to }) => write!(text, "{from}..{to}"),
        None => text.push_str("none"),
    }
}

fn add_words(text: &mut String, words: &Words) -> Result<(), AllocError> {
    add_guest(text, &words.guest)?;
    text.push(' ')?;
    add_region(text, words.region)?;
    let ring = words.ring;
    let report = if words.report { "report" } else { "quiet" };
    write!(text, " {ring} {report}")
}

fn said(alloc: Global, words: &Words) -> Result<String, AllocError> {
    let mut text = String::new(alloc);
    add_words(&mut text, words)?;
    Ok(text)
}

fn answer(alloc: Global, words: &[String]) -> Result<String, AllocError> {
    match read_words(alloc, words) {
        Ok(words) => said(alloc, &words),
        Err(WordsFault::Usage) => String::from_str(alloc, "usage"),
        Err(WordsFault::NoMemory) => String::from_str(alloc, "out of memory"),
    }
}

// Fails where the words of a row say something else than is wanted.
fn check(alloc: Global, row: &str, wanted: &str) -> Result<(), Fail> {
    let words = split(alloc, row)?;
    let said = answer(alloc, &words)?;
    if said.as_str() == wanted {
        return Ok(());
    }
    Err(Fail::new(format!(in alloc; "{said} is said by: {row}")?))
}

#[test]
fn words_name_two_files_or_a_guest_and_what_else_is_asked(rt: HostRuntime) -> Result<(), Fail> {
    for row in READ.lines() {
        let (words, wanted) = row.split_once('|').unwrap_or((row, ""));
        check(rt.alloc(), words, wanted)?;
    }
    Ok(())
}

#[test]
fn other_words_are_refused(rt: HostRuntime) -> Result<(), Fail> {
    for row in REFUSED.lines() {
        check(rt.alloc(), row, "usage")?;
    }
    Ok(())
}
