//! Guests whose code is moved while they run, under scripts of one hart. A row says what it shows, and has a guest, with its region
//! if it isn't the default one, the names of its functions, a script, and lines that are told. What is wanted was worked out by hand
//! from the statements of the guests and the form of moved code.

use crate::telling::{after, first_missing};
use std::test::Fail;

// A moved AUIPC takes two words, and a block that falls into one that isn't next takes a Hop.
const MOVED: &str = "\
real 20 layout 3
snaps 0 attempts 1 done 1 refused 0 retired 0
sites 2 slots 0
layout 1 0x12000 9
hart 0 ended
moved 1:2 work 0x1001c..0x10028 to 0x12000..0x12010 in layout 1 second words 1
moved 1:1 work 0x10014..0x1001c to 0x12010..0x1201c in layout 1 hops 1
moved 1:0 work 0x10010..0x10014 to 0x1201c..0x12024 in layout 1 hops 1
site 0x10000: 1 work at 0x1201c
site 0x10004: 1 work at 0x1201c
profile 0 transfers
";

#[test]
fn a_whole_run_is_told(rt: HostRuntime) -> Result<(), Fail> {
    let text = after(
        rt.alloc(),
        "main work",
        "countdown",
        "real 4, replace 1:2 1 0, real 100",
    )?;
    assert!(rt; text.as_slice() == MOVED.as_bytes());
    Ok(())
}

const REFUSALS: &str = "\
a call is out of reach: countdown in 200000..201000 | main work: replace 1:0 1 2 = refused 1: the word at 0x10000 can't reach 0x200000
a function is unreadable: zero word | main bad: real 1, replace 1:0 = refused 1: function 1 bad: the word at 0x10008 reads as no instruction
no page holds the layout: over 1021 in 20000..21000 | main: replace 0:0 1 2 = refused 1: no room: 4100 bytes are needed, the largest free range has 4096";

#[test]
fn refused_plans_are_told_in_words(rt: HostRuntime) -> Result<(), Fail> {
    assert_eq!(rt; first_missing(rt.alloc(), REFUSALS)?.as_str(), "");
    Ok(())
}

const OTHERS: &str = "\
transfers enter blocks: countdown | main work: real 9, snap = profile 4 transfers; ran 1:0 work 1; ran 1:1 work 1; ran 1:2 work 1; edge 0:0 1:0 1; edge 0x10018 1:1 1; edge 0x10018 1:2 1; edge 0x10024 0x10004 1
a pair is sent by its second word: far call | main leaf: replace 1:0 = moved 1:0 leaf 0x10010..0x10014 to 0x12000..0x12004 in layout 1; pair 0x10000: 1 leaf at 0x12000
calls follow the last layout: countdown | main work: replace 1:2 1 0, replace 1:0 1 2 = moved 1:0 work 0x10010..0x10014 to 0x1201c..0x12024 in layout 1 hops 1; moved 1:0 work 0x10010..0x10014 to 0x12024..0x12028 in layout 2; moved 1:2 work 0x1001c..0x10028 to 0x12030..0x12040 in layout 2 second words 1; site 0x10000: 1 work at 0x12024
a function has no name: countdown | main: replace 1:0 1 2 = site 0x10000: 1  at 0x12000";

#[test]
fn profiles_pairs_and_later_layouts_are_told(rt: HostRuntime) -> Result<(), Fail> {
    assert_eq!(rt; first_missing(rt.alloc(), OTHERS)?.as_str(), "");
    Ok(())
}
