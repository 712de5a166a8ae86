//! Guests assembled by `guest_gen` and run by `play` over files in memory. In a row a newline is written `/`.

ghost use Rattle.std.specs.Prelude.{None};

use cases::guests::{guest, with_newlines};
use cases::images::put_all;
use cases::rows::split;
use guest_gen::call::make;
use oc_base::fault::{Failed, TakeFault};
use oc_base::files::Files;
use oc_base::memory::{MemFiles, MemSink, MemSource};
use play::call::play;
use std::alloc::{AllocError, Global};
use std::test::Fail;

/// What a run comes to.
#[derive(Drop)]
struct End {
    status: u8,
    report: Vec<u8>,
    out: Vec<u8>,
    err: Vec<u8>,
}

/// The words of a text.
pub fn words_of(alloc: Global, text: &str) -> Result<Vec<String>, Fail> {
    let mut words = Vec::new(alloc);
    for word in text.split_whitespace() {
        words.push(String::from_str(alloc, word)?)?;
    }
    Ok(words)
}

/// Plays over these files.
fn played<F: Files>(alloc: Global, words: &str, files: &mut F, input: &str) -> Result<End, Fail> {
    let words = words_of(alloc, words)?;
    let mut input = MemSource::new(input.as_bytes().to_vec(alloc)?, Vec::new(alloc));
    let mut out = MemSink::new(Vec::new(alloc), Vec::new(alloc));
    let mut err = MemSink::new(Vec::new(alloc), Vec::new(alloc));
    let answer = play(alloc, &words, files, &mut input, &mut out, &mut err);
    Ok(End {
        status: answer.status,
        report: answer.report.into_vec(),
        out: out.held().to_vec(alloc)?,
        err: err.held().to_vec(alloc)?,
    })
}

/// The file `guest.elf` that is made of the words, with the text of a guest in the file `guest.s`, and what is printed.
fn made(alloc: Global, words: &str, name: &str) -> Result<(Vec<u8>, Vec<u8>), Fail> {
    let mut files = Vec::new(alloc);
    files.push((
        String::from_str(alloc, "guest.s")?,
        with_newlines(alloc, guest(name))?,
    ))?;
    let mut files = MemFiles::new(files, Vec::new(alloc));
    let mut out = MemSink::new(Vec::new(alloc), Vec::new(alloc));
    let mut err = MemSink::new(Vec::new(alloc), Vec::new(alloc));
    let words = words_of(alloc, words)?;
    let answer = make(alloc, &words, &mut files, &mut out, &mut err);
    if answer.status != 0 || !err.held().is_empty() {
        return Err(Fail::new("nothing is made"));
    }
    let file = files.file("guest.elf").unwrap_or(&[]);
    Ok((file.to_vec(alloc)?, out.held().to_vec(alloc)?))
}

/// The files `guest.elf`, as these bytes, and `script`, with an `end` behind its lines.
fn files_of(alloc: Global, elf: Vec<u8>, script: &str) -> Result<MemFiles, AllocError> {
    let script = format!(in alloc; "{script}/end/")?;
    let mut files = Vec::new(alloc);
    files.push((String::from_str(alloc, "guest.elf")?, elf))?;
    files.push((
        String::from_str(alloc, "script")?,
        with_newlines(alloc, &script)?,
    ))?;
    Ok(MemFiles::new(files, Vec::new(alloc)))
}

/// The files of a guest such as `line`, or `line with 7c:4:2`, whose executable has other numbers in some places.
fn assembled(alloc: Global, what: &str, script: &str) -> Result<MemFiles, Fail> {
    let (name, numbers) = what.split_once(" with ").unwrap_or((what, ""));
    let (mut elf, _) = made(alloc, "guest.s guest.elf", name)?;
    put_all(&mut elf, numbers);
    Ok(files_of(alloc, elf, script)?)
}

/// Runs a guest under a script, with more words.
fn run(alloc: Global, guest: &str, script: &str, more: &str, input: &str) -> Result<End, Fail> {
    let mut files = assembled(alloc, guest, script)?;
    let words = format!(in alloc; "guest.elf script {more}")?;
    played(alloc, &words, &mut files, input)
}

/// The status of a run, these bytes of it, and its last lines.
fn told(alloc: Global, end: &End, first: &[u8]) -> Result<Vec<u8>, AllocError> {
    let status = end.status;
    let mut text = format!(in alloc; "{status}|")?.into_bytes();
    text.extend_from_slice(first)?;
    text.push(b'|')?;
    text.extend_from_slice(&end.err)?;
    Ok(text)
}

/// What a guest writes under a script, with the input that stands behind a `|`.
fn written(alloc: Global, guest: &str, case: &str) -> Result<Vec<u8>, Fail> {
    let (script, input) = case.split_once(" | ").unwrap_or((case, ""));
    let end = run(alloc, guest, script, "", input)?;
    Ok(told(alloc, &end, &end.out)?)
}

/// The first row whose run writes something else than is wanted.
fn first_wrong(alloc: Global, rows: &str) -> Result<String, Fail> {
    for row in rows.lines() {
        let (guest, case, wanted) = split(row);
        if written(alloc, guest, case)? != with_newlines(alloc, wanted)? {
            return Ok(String::from_str(alloc, row)?);
        }
    }
    Ok(String::new(alloc))
}

// What a row shows, its guest, its script before the `end`, its input, and what its run comes to: status, output, last line.
const RUNS: &str = "\
writes a line: line | till 100 = 0|hi/|ocolos: exit 0/
echoes its input: echo | till 100 | abc = 3|abc|ocolos: exit 3/
counts down twice: countdown | real 0 100 = 28||ocolos: exit 28/
recurs: recursion | steps 0 100 = 6||ocolos: exit 6/
calls through a table: table | till 100 = 10||ocolos: exit 10/
reads a byte of a link: stored link | till 100 = 8||ocolos: exit 8/
reads its name: name | till 100 = 103||ocolos: exit 103/
adds a link: added link | till 100 = 119||ocolos: link use 1 at 0x10004/
exits with a link: link exit | till 100 = 119||ocolos: link use 5 at 0x1000c/
jumps past a link: past link | till 100 = 119||ocolos: link use 6 at 0x10004/
jumps to an address of its own: to region | till 100 = 118||ocolos: trap 1 at 0x10004 value 0x12000/
jumps into a far call: to second | till 100 = 114||ocolos: landing at 0x10010/
returns from the last word: last call | till 100 = 118||ocolos: trap 1 at 0x1000c value 0x1000c/
goes on and on: endless | till 100 = 115||ocolos: unfinished/
makes all of its steps: seven | till 10/real 0 7 = 0||ocolos: exit 0/
makes one step too few: seven | till 10/real 0 6 = 115||ocolos: unfinished/
waits for nobody: waits | till 100 = 116||ocolos: stalled/
clones for ever: clones | till 1000 = 113||ocolos: harts full/
exits before a function of no instruction: zero word | till 100 = 0||ocolos: exit 0/
reads where its program headers stand: headers with 48:8:0 50:8:f000 60:8:1014 68:8:1014 | till 100 = 65||ocolos: exit 65/
reads that they stand nowhere: headers | till 100 = 0||ocolos: exit 0/";

#[test]
fn a_guest_that_is_assembled_runs_to_its_end(rt: HostRuntime) -> Result<(), Fail> {
    assert_eq!(rt; first_wrong(rt.alloc(), RUNS)?.as_str(), "");
    Ok(())
}

/// Whether a run is another one that also writes its report, before its last line.
fn is_shown(shown: &End, end: &End) -> bool {
    let rest = shown.err.strip_prefix(end.report.as_slice());
    shown.report == end.report && rest == Some(end.err.as_slice())
}

/// The report of a run under a script, which stands behind more words for the call, and its last line. The report is answered
/// whether it is written or not.
fn reported(alloc: Global, guest: &str, case: &str) -> Result<Vec<u8>, Fail> {
    let (more, script) = case.split_once(" | ").unwrap_or(("", case));
    let end = run(alloc, guest, script, more, "")?;
    let more = format!(in alloc; "{more} --report")?;
    let shown = run(alloc, guest, script, &more, "")?;
    if !is_shown(&shown, &end) {
        return Err(Fail::new("another report is written"));
    }
    Ok(told(alloc, &end, &end.report)?)
}

/// The first row with another report than is wanted.
fn first_misreported(alloc: Global, rows: &str) -> Result<String, Fail> {
    for row in rows.lines() {
        let (guest, case, wanted) = split(row);
        if reported(alloc, guest, case)? != with_newlines(alloc, wanted)? {
            return Ok(String::from_str(alloc, row)?);
        }
    }
    Ok(String::new(alloc))
}

// What a row shows, its guest, more words for the call, its script before the `end`, and what its run comes to: status, report, last
// line.
const MOVED: &str = "\
two layouts: exit | replace 0:0/replace 0:0/till 100 = 0|real 2 layout 0/snaps 0 attempts 2 done 2 refused 0 retired 0/sites 0 slots 0/layout 1 0x12000 3/layout 2 0x1200c 3/hart 0 ended/|ocolos: exit 0/
two layouts, both given up: exit | replace 0:0/replace 0:0/retire/till 100 = 0|real 2 layout 0/snaps 0 attempts 2 done 2 refused 0 retired 2/sites 0 slots 0/hart 0 ended/|ocolos: exit 0/
three blocks turned round: countdown | real 0 4/replace 1:2 1 0/till 100 = 28|real 20 layout 3/snaps 0 attempts 1 done 1 refused 0 retired 0/sites 2 slots 0/layout 1 0x12000 9/hart 0 ended/|ocolos: exit 28/
stands between two words of one: countdown | real 0 4/replace 1:2 1 0/real 0 11/steps 0 2 = 115|real 15 layout 3/snaps 0 attempts 1 done 1 refused 0 retired 0/sites 2 slots 0/layout 1 0x12000 9/hart 0 live 0x1001c 0x12004/|ocolos: unfinished/
calls in the last word: last call | replace 2:0; 0:0/till 10 = 118|real 4 layout 1/snaps 0 attempts 1 done 1 refused 0 retired 0/sites 2 slots 0/layout 1 0x12000 3/hart 0 live 0x1000c 0x1000c/|ocolos: trap 1 at 0x1000c value 0x1000c/
calls in the last word, unmoved: last call | till 10 = 118|real 4 layout 0/snaps 0 attempts 0 done 0 refused 0 retired 0/sites 0 slots 0/hart 0 live 0x1000c 0x1000c/|ocolos: trap 1 at 0x1000c value 0x1000c/
reads a byte of a link: stored link | replace 1:0/till 100 = 8|real 8 layout 0/snaps 0 attempts 1 done 1 refused 0 retired 0/sites 1 slots 0/layout 1 0x12000 2/hart 0 ended/|ocolos: exit 8/
adds a link: added link | replace 1:0/till 10 = 119|real 2 layout 0/snaps 0 attempts 1 done 1 refused 0 retired 0/sites 1 slots 0/layout 1 0x12000 2/hart 0 live 0x10004 0x12000/|ocolos: link use 1 at 0x10004/
adds a link, unmoved: added link | till 100 = 119|real 2 layout 0/snaps 0 attempts 0 done 0 refused 0 retired 0/sites 0 slots 0/hart 0 live 0x10004 0x10004/|ocolos: link use 1 at 0x10004/
jumps past a link: past link | till 100 = 119|real 2 layout 0/snaps 0 attempts 0 done 0 refused 0 retired 0/sites 0 slots 0/hart 0 live 0x10004 0x10004/|ocolos: link use 6 at 0x10004/
jumps into the region: to region | till 100 = 118|real 2 layout 0/snaps 0 attempts 0 done 0 refused 0 retired 0/sites 0 slots 0/hart 0 live 0x10004 0x10004/|ocolos: trap 1 at 0x10004 value 0x12000/
jumps into a far call: to second | till 100 = 114|real 2 layout 0/snaps 0 attempts 0 done 0 refused 0 retired 0/sites 0 slots 0/hart 0 live 0x10004 0x10004/|ocolos: landing at 0x10010/
a branch that is short: over 1021 | replace 0:0 1 2/till 10 = 0|real 3 layout 0/snaps 0 attempts 1 done 1 refused 0 retired 0/sites 0 slots 0/layout 1 0x12000 1025/hart 0 ended/|ocolos: exit 0/
a branch that is long: over 1022 | replace 0:0 1 2/till 10 = 0|real 3 layout 0/snaps 0 attempts 1 done 1 refused 0 retired 0/sites 0 slots 0/layout 1 0x13000 1027/hart 0 ended/|ocolos: exit 0/
a region that is too small: over 1021 | --region 0x20000:4096 | replace 0:0 1 2/till 10 = 0|real 3 layout 0/snaps 0 attempts 1 done 0 refused 1 retired 0/refusal 1 region 4100 4096/sites 0 slots 0/hart 0 ended/|ocolos: exit 0/
a region that is full: over 1020 | --region 0x20000:4096 | replace 0:0 1 2/till 10 = 0|real 3 layout 0/snaps 0 attempts 1 done 1 refused 0 retired 0/sites 0 slots 0/layout 1 0x20000 1024/hart 0 ended/|ocolos: exit 0/
a region out of reach: countdown | --region 0x200000:4096 | replace 1:0 1 2/till 100 = 28|real 20 layout 0/snaps 0 attempts 1 done 0 refused 1 retired 0/refusal 1 reach 0x10000 0x200000/sites 0 slots 0/hart 0 ended/|ocolos: exit 28/
a function of no instruction: zero word | replace 1:0/till 100 = 0|real 2 layout 0/snaps 0 attempts 1 done 0 refused 1 retired 0/refusal 1 unreadable 1 1 0x10008/sites 0 slots 0/hart 0 ended/|ocolos: exit 0/
a call in reach before one that isn't: apart | --region 0x1000:4096 | replace 1:0 = 115|real 0 layout 0/snaps 0 attempts 1 done 0 refused 1 retired 0/refusal 1 reach 0x196a08 0x1000/sites 0 slots 0/hart 0 live 0x10000 0x10000/|ocolos: unfinished/";

#[test]
fn a_guest_whose_code_moves_ends_as_before(rt: HostRuntime) -> Result<(), Fail> {
    assert_eq!(rt; first_misreported(rt.alloc(), MOVED)?.as_str(), "");
    Ok(())
}

// The same for snapshots and the plans that come of them.
const SNAPPED: &str = "\
what ran: countdown | real 0 9/snap/replace/till 100 = 28|real 20 layout 1/snaps 1 attempts 1 done 1 refused 0 retired 0/sites 2 slots 0/layout 1 0x12000 12/hart 0 ended/|ocolos: exit 28/
the last two transfers: countdown | --ring 2 | real 0 9/snap/replace/till 100 = 28|real 20 layout 1/snaps 1 attempts 1 done 1 refused 0 retired 0/sites 2 slots 0/layout 1 0x12000 7/hart 0 ended/|ocolos: exit 28/
the same in moved code: countdown | --ring 4 | replace 1:2 1 0/real 0 9/snap/replace/till 100 = 28|real 20 layout 4/snaps 1 attempts 2 done 2 refused 0 retired 0/sites 2 slots 0/layout 1 0x12000 9/layout 2 0x12024 12/hart 0 ended/|ocolos: exit 28/
nothing ran: line | snap/replace/till 100 = 0|real 8 layout 0/snaps 1 attempts 1 done 1 refused 0 retired 0/sites 0 slots 0/hart 0 ended/|ocolos: exit 0/
no snapshot: countdown | real 0 9/replace/till 100 = 28|real 20 layout 0/snaps 0 attempts 1 done 1 refused 0 retired 0/sites 0 slots 0/hart 0 ended/|ocolos: exit 28/
the last of two: countdown | snap/real 0 9/snap/replace/till 100 = 28|real 20 layout 1/snaps 2 attempts 1 done 1 refused 0 retired 0/sites 2 slots 0/layout 1 0x12000 12/hart 0 ended/|ocolos: exit 28/
one that is older than what ran: countdown | snap/real 0 9/replace/till 100 = 28|real 20 layout 0/snaps 1 attempts 1 done 1 refused 0 retired 0/sites 0 slots 0/hart 0 ended/|ocolos: exit 28/
after the end: countdown | till 100/snap/replace/retire = 28|real 20 layout 0/snaps 0 attempts 0 done 0 refused 0 retired 0/sites 0 slots 0/hart 0 ended/|ocolos: exit 28/";

#[test]
fn code_moves_by_the_last_snapshot(rt: HostRuntime) -> Result<(), Fail> {
    assert_eq!(rt; first_misreported(rt.alloc(), SNAPPED)?.as_str(), "");
    Ok(())
}

// The same, with layouts that are given up and tables of functions.
const GIVEN_UP: &str = "\
recurs in two layouts, the first given up: recursion | real 0 7/replace 1:0 1 2/real 0 5/replace 1:2 1 0/real 0 7/retire/real 0 4/retire/till 100 = 6|real 33 layout 0/snaps 0 attempts 2 done 2 refused 0 retired 1/sites 2 slots 0/layout 2 0x12024 11/hart 0 ended/|ocolos: exit 6/
a dead word of the stack links to the first: dead link | real 0 7/replace 1:0 1 2/real 0 5/replace 1:2 1 0/real 0 20/retire/till 100 = 8|real 43 layout 2/snaps 0 attempts 2 done 2 refused 0 retired 0/sites 2 slots 0/layout 1 0x12000 9/layout 2 0x12024 11/hart 0 ended/|ocolos: exit 8/
the dead word is overwritten: dead link | real 0 7/replace 1:0 1 2/real 0 5/replace 1:2 1 0/real 0 20/retire/real 0 9/retire/till 100 = 8|real 43 layout 2/snaps 0 attempts 2 done 2 refused 0 retired 1/sites 2 slots 0/layout 2 0x12024 11/hart 0 ended/|ocolos: exit 8/
a slot leads to the layout: table | real 0 5/replace 1:0/real 0 3 = 115|real 8 layout 0/snaps 0 attempts 1 done 1 refused 0 retired 0/sites 0 slots 1/layout 1 0x13000 2/hart 0 live 0x10020 0x13004/|ocolos: unfinished/
a slot that holds a plain number is left alone: own table | real 0 4/replace 1:0/real 0 3 = 115|real 7 layout 0/snaps 0 attempts 1 done 1 refused 0 retired 0/sites 0 slots 0/layout 1 0x13000 2/hart 0 live 0x1002c 0x1002c/|ocolos: unfinished/";

#[test]
fn what_refers_to_a_layout_keeps_it(rt: HostRuntime) -> Result<(), Fail> {
    assert_eq!(rt; first_misreported(rt.alloc(), GIVEN_UP)?.as_str(), "");
    Ok(())
}

/// What a run comes to whose region of one page is full after 113 replacements: the next one is refused, and all but the last
/// layout are given up.
fn crowded(alloc: Global) -> Result<Vec<u8>, Fail> {
    let mut script = String::new(alloc);
    for _ in 0..114 {
        script.push_str("replace 1:2 1 0/")?;
    }
    script.push_str("retire/replace 1:2 1 0")?;
    let case = format!(in alloc; "--region 0x20000:4096 | {script}")?;
    reported(alloc, "countdown", &case)
}

#[test]
fn a_page_of_layouts_has_room_again_after_a_retirement(rt: HostRuntime) -> Result<(), Fail> {
    let wanted =
        "115|real 0 layout 0/snaps 0 attempts 115 done 114 refused 1 retired 112/refusal 114 region 36 28/sites 2 slots 0/layout 113 0x20fc0 9/layout 114 0x20000 9/hart 0 live 0x10000 0x10000/|ocolos: unfinished/";
    assert_eq!(rt; crowded(rt.alloc())?, with_newlines(rt.alloc(), wanted)?);
    Ok(())
}

const SCRIPT_FAULTS: &str = "\
a function past the last: exit | replace 9:0 = 124||ocolos: script line 1 fault 3/
another order: exit | replace 0:1 = 124||ocolos: script line 1 fault 4/
no space behind the semicolon: exit | replace 0:0;1:0 = 124||ocolos: script line 1 fault 1/";

#[test]
fn a_plan_is_one_of_the_guest(rt: HostRuntime) -> Result<(), Fail> {
    assert_eq!(rt; first_misreported(rt.alloc(), SCRIPT_FAULTS)?.as_str(), "");
    Ok(())
}

/// What a call with these words ends with, where the files are those of a guest that exits.
fn answered(alloc: Global, words: &str) -> Result<Vec<u8>, Fail> {
    let mut files = assembled(alloc, "exit", "till 100")?;
    let end = played(alloc, words, &mut files, "")?;
    Ok(told(alloc, &end, &end.out)?)
}

#[test]
fn a_call_without_words_is_misused(rt: HostRuntime) -> Result<(), Fail> {
    assert_eq!(rt;
        answered(rt.alloc(), "")?.as_slice(),
        b"120||ocolos: usage\n".as_slice()
    );
    Ok(())
}

/// What making a guest prints, and what its run comes to.
fn generated(alloc: Global) -> Result<Vec<u8>, Fail> {
    let (elf, mut printed) = made(alloc, "--generate 1 guest.elf", "")?;
    let mut files = files_of(alloc, elf, "till 100000")?;
    let end = played(alloc, "guest.elf script", &mut files, "")?;
    printed.extend_from_slice(&told(alloc, &end, &end.out)?)?;
    Ok(printed)
}

#[test]
fn a_generated_guest_of_five_harts_prints_its_sum(rt: HostRuntime) -> Result<(), Fail> {
    assert_eq!(rt;
        generated(rt.alloc())?.as_slice(),
        b"generated 1 prints 18000\n0|18000\n|ocolos: exit 0\n".as_slice()
    );
    Ok(())
}

#[test]
fn a_generated_guest_runs_with_no_files(rt: HostRuntime) -> Result<(), Fail> {
    assert_eq!(rt;
        answered(rt.alloc(), "--generate 1")?.as_slice(),
        b"0|18000\n|ocolos: exit 0\n".as_slice()
    );
    Ok(())
}

// Its code moves twenty times: the status, what is printed, the report and the last line.
const GENERATED: &str = "\
0|18000
|real 60531 layout 0
snaps 20 attempts 20 done 20 refused 0 retired 18
sites 1 slots 8
layout 19 0x13000 128
layout 20 0x13200 128
hart 0 live 0x10100 0x10100
hart 1 ended
hart 2 ended
hart 3 ended
hart 4 ended
ocolos: exit 0
";

#[test]
fn a_generated_guest_moves_by_its_own_snapshots(rt: HostRuntime) -> Result<(), Fail> {
    assert_eq!(rt;
        answered(rt.alloc(), "--generate 1 --report")?.as_slice(),
        GENERATED.as_bytes()
    );
    Ok(())
}

/// How much a guest that writes zeros for ever writes, and what its run comes to.
fn filled(alloc: Global) -> Result<Vec<u8>, Fail> {
    let end = run(alloc, "writes", "till 30000", "", "")?;
    let count = end.out.len();
    let zeros = end.out.iter().filter(|byte| **byte == 0).count();
    let text = format!(in alloc; "{zeros} zeros of {count}")?;
    Ok(told(alloc, &end, text.as_bytes())?)
}

#[test]
fn an_output_takes_no_more_than_its_limit(rt: HostRuntime) -> Result<(), Fail> {
    assert_eq!(rt;
        filled(rt.alloc())?.as_slice(),
        b"112|16777216 zeros of 16777216|ocolos: output full\n".as_slice()
    );
    Ok(())
}

/// Files in memory that say that they are longer than they are. They tell nothing.
#[derive(Drop)]
struct LongFiles {
    files: MemFiles,
    program: usize,
    script: usize,
}

impl Files for LongFiles {
    ghost disk = { λ _. None };

    ghost asked = { λ _. None };

    ghost take_faults = { λ _. None };

    ghost put_faults = { λ _. None };

    fn take(&mut self, alloc: Global, name: &str, limit: usize) -> Result<Vec<u8>, TakeFault> {
        let length = if name == "script" {
            self.script
        } else {
            self.program
        };
        if length > limit {
            return Err(TakeFault::TooLong);
        }
        let Ok(bytes) = self.files.take(alloc, name, limit) else {
            return Err(TakeFault::NoMemory);
        };
        Ok(bytes)
    }

    fn put(&mut self, _name: &str, _bytes: &[u8]) -> Result<(), Failed> {
        Ok(())
    }
}

/// What a run comes to with a program and a script of these lengths.
fn lengthened(alloc: Global, program: usize, script: usize) -> Result<Vec<u8>, Fail> {
    let files = assembled(alloc, "exit", "till 100")?;
    let mut files = LongFiles {
        files,
        program,
        script,
    };
    let end = played(alloc, "guest.elf script", &mut files, "")?;
    Ok(told(alloc, &end, &end.out)?)
}

#[test]
fn what_is_past_its_limit_is_too_long(rt: HostRuntime) -> Result<(), Fail> {
    let alloc = rt.alloc();
    assert_eq!(rt;
        lengthened(alloc, 67_108_864, 536_870_912)?.as_slice(),
        b"0||ocolos: exit 0\n".as_slice()
    );
    assert_eq!(rt;
        lengthened(alloc, 67_108_865, 536_870_913)?.as_slice(),
        b"126||ocolos: too long guest.elf\n".as_slice()
    );
    assert_eq!(rt;
        lengthened(alloc, 67_108_864, 536_870_913)?.as_slice(),
        b"126||ocolos: too long script\n".as_slice()
    );
    Ok(())
}
