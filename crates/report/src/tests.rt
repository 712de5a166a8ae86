//! The last line and the exit status of each end, and reports.

use crate::answer::{Answer, Ended, ProgramFault, status};
use crate::line::last_line;
use crate::text::report;
use crate::writing::{Delivery, finish};
use blocks::fault::Unreadable;
use elf_read::fault::ElfFault;
use machine::outcome::Outcome;
use oc_base::items::Items;
use oc_base::memory::MemSink;
use oc_base::text::Text;
use relocs::fault::ImageFault;
use sched_log::facts::{Facts, HartFact, LayoutFact, Refusal, Refused};
use sched_log::fault::ScriptFault;
use std::alloc::Global;
use std::process::Abort;
use std::test::Fail;

fn check(
    rt: &(impl Abort + AllocGlobal),
    ended: Ended,
    number: u8,
    wanted: &str,
) -> Result<(), Fail> {
    let alloc = rt.alloc();
    let line = last_line(alloc, &ended)?;
    let wanted = format!(in alloc; "ocolos: {wanted}\n")?;
    assert_eq!(rt; status(&ended), number, "{wanted}");
    assert_eq!(rt; line.as_slice(), wanted.as_bytes(), "{wanted}");
    Ok(())
}

fn name(alloc: Global) -> Result<Text, Fail> {
    Ok(Text::copy_of(alloc, "a.elf")?)
}

#[test]
fn a_run_tells_how_it_ended(rt: HostRuntime) -> Result<(), Fail> {
    check(&rt, Ended::Ran(Outcome::Exit(255)), 255, "exit 255")?;
    check(&rt, Ended::Ran(Outcome::OutputFull), 112, "output full")?;
    check(&rt, Ended::Ran(Outcome::HartsFull), 113, "harts full")?;
    let landing = Outcome::Landing { pc: 0x10010 };
    check(&rt, Ended::Ran(landing), 114, "landing at 0x10010")?;
    check(&rt, Ended::Ran(Outcome::Unfinished), 115, "unfinished")?;
    check(&rt, Ended::Ran(Outcome::Stalled), 116, "stalled")?;
    let limit = Outcome::Limit { most: 1000 };
    check(&rt, Ended::Ran(limit), 117, "limit 1000")?;
    let trap = Outcome::Trap {
        cause: 5,
        pc: 0x1_0004,
        value: 0xffff_ffff_ffff_fffc,
    };
    let line = "trap 5 at 0x10004 value 0xfffffffffffffffc";
    check(&rt, Ended::Ran(trap), 118, line)?;
    let link = Outcome::LinkUse { rule: 6, pc: 0 };
    check(&rt, Ended::Ran(link), 119, "link use 6 at 0x0")
}

#[test]
fn a_refusal_tells_its_cause(rt: HostRuntime) -> Result<(), Fail> {
    let alloc = rt.alloc();
    check(&rt, Ended::Usage, 120, "usage")?;
    check(
        &rt,
        Ended::ReadFault(name(alloc)?),
        121,
        "cannot read a.elf",
    )?;
    let elf = Ended::Program(ProgramFault::Elf(ElfFault::Truncated(403)));
    check(&rt, elf, 123, "program elf 5 403")?;
    let elf = Ended::Program(ProgramFault::Elf(ElfFault::BadSegment(7)));
    check(&rt, elf, 123, "program elf 6 7")?;
    let image = Ended::Program(ProgramFault::Image(ImageFault::RegionAimed(0x1abc)));
    check(&rt, image, 123, "program image 5 0x1abc")?;
    let script = Ended::Script(ScriptFault::Line { line: 12, kind: 7 });
    check(&rt, script, 124, "script line 12 fault 7")?;
    check(&rt, Ended::NoMemory, 125, "out of memory")?;
    check(&rt, Ended::TooLong(name(alloc)?), 126, "too long a.elf")?;
    let none = last_line(alloc, &Ended::WriteFault)?;
    assert_eq!(&rt; status(&Ended::WriteFault), 122);
    assert!(&rt; none.as_slice().is_empty());
    Ok(())
}

/// The text with a newline for each `|`.
fn lines(alloc: Global, text: &str) -> Result<Vec<u8>, Fail> {
    let mut bytes = Vec::new(alloc);
    for byte in text.as_bytes() {
        bytes.push(if *byte == b'|' { b'\n' } else { *byte })?;
    }
    Ok(bytes)
}

/// The facts of a run of 20 real steps with a replacement that was done.
fn moved_once(alloc: Global) -> Result<Facts, Fail> {
    let layout = LayoutFact {
        number: 1,
        base: 0x12000,
        words: 9,
    };
    Ok(Facts {
        real: 20,
        layout: 3,
        snaps: 0,
        attempts: 1,
        done: 1,
        retired: 0,
        refusals: Items::new(alloc),
        sites: 2,
        slots: 0,
        layouts: Items::from_slice(alloc, &[layout])?,
        harts: Items::from_slice(alloc, &[HartFact::Ended])?,
    })
}

#[test]
fn a_report_has_a_line_for_each_fact(rt: HostRuntime) -> Result<(), Fail> {
    let alloc = rt.alloc();
    let facts = moved_once(alloc)?;
    let wanted =
        "real 20 layout 3|snaps 0 attempts 1 done 1 refused 0 retired 0|sites 2 slots 0|layout 1 0x12000 9|hart 0 ended|";
    let text = report(alloc, &facts)?;
    assert_eq!(rt; text.as_slice(), lines(alloc, wanted)?.as_slice());
    Ok(())
}

/// One of each refusal, with its attempt's number.
const REFUSALS: [(u64, Refusal); 6] = [
    (
        1,
        Refusal::RegionFull {
            need: 4100,
            largest: 4096,
        },
    ),
    (
        2,
        Refusal::BranchReach {
            at: 0x10000,
            target: 0x200000,
        },
    ),
    (
        4,
        Refusal::Unreadable {
            func: 1,
            why: Unreadable::Undecodable(0x10008),
        },
    ),
    (
        5,
        Refusal::Unreadable {
            func: 12,
            why: Unreadable::BranchOut(0x1abcc),
        },
    ),
    (
        6,
        Refusal::Unreadable {
            func: 3,
            why: Unreadable::Misaimed(0x10018),
        },
    ),
    (
        114,
        Refusal::Unreadable {
            func: 0,
            why: Unreadable::Overlap(10),
        },
    ),
];

#[test]
fn each_refusal_and_each_hart_has_its_line(rt: HostRuntime) -> Result<(), Fail> {
    let alloc = rt.alloc();
    let mut facts = moved_once(alloc)?;
    for (attempt, refusal) in REFUSALS {
        facts.refusals.push(Refused { attempt, refusal })?;
    }
    facts.harts.push(HartFact::Live {
        original: 0x1001c,
        pc: 0x12004,
    })?;
    facts.harts.push(HartFact::Waiting {
        original: 0,
        pc: 0xffff_ffff_ffff_fffc,
    })?;
    let wanted =
        "real 20 layout 3|snaps 0 attempts 1 done 1 refused 6 retired 0|refusal 1 region 4100 4096|\
refusal 2 reach 0x10000 0x200000|refusal 4 unreadable 1 1 0x10008|refusal 5 unreadable 12 2 0x1abcc|\
refusal 6 unreadable 3 3 0x10018|refusal 114 unreadable 0 4 10|sites 2 slots 0|layout 1 0x12000 9|\
hart 0 ended|hart 1 live 0x1001c 0x12004|hart 2 waiting 0x0 0xfffffffffffffffc|";
    let text = report(alloc, &facts)?;
    assert_eq!(rt; text.as_slice(), lines(alloc, wanted)?.as_slice());
    Ok(())
}

/// What is written to both outputs for a run with a report.
fn written(alloc: Global, shown: bool) -> Result<Answer, Fail> {
    let delivery = Delivery {
        outcome: Outcome::Exit(28),
        out: Items::from_slice(alloc, b"a")?,
        err: Items::from_slice(alloc, b"b\n")?,
        report: Items::from_slice(alloc, b"c\n")?,
        shown,
    };
    let mut out = MemSink::new(Vec::new(alloc), Vec::new(alloc));
    let mut err = MemSink::new(Vec::new(alloc), Vec::new(alloc));
    let answer = finish(alloc, Ok(delivery), &mut out, &mut err);
    let wanted: &[u8] = if shown {
        b"b\nc\nocolos: exit 28\n"
    } else {
        b"b\nocolos: exit 28\n"
    };
    if out.held() != b"a".as_slice() || err.held() != wanted {
        return Err(Fail::new("other bytes"));
    }
    Ok(answer)
}

#[test]
fn a_report_is_shown_before_the_last_line_where_it_is_asked_for(
    rt: HostRuntime,
) -> Result<(), Fail> {
    for shown in [false, true] {
        let answer = written(rt.alloc(), shown)?;
        assert_eq!(rt; answer.status, 28);
        assert_eq!(rt; answer.report.as_slice(), b"c\n".as_slice());
    }
    Ok(())
}
