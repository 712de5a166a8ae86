//! Guests whose code is moved while they run, under scripts of one hart. A row says what it shows, and has a guest, with its region
//! if it isn't the default one, a script, and the lines that are to be told. What is wanted was told by an independent
//! implementation.

use crate::telling::first_missing;
use std::test::Fail;

const RUNS: &str = "\
a function moves while it runs: countdown | real 4, replace 1:2 1 0, real 100 = real 20 layout 3; attempts 1 done 1; sites 2 slots 0; layout 1 12000 9; hart ended; exit 28
a hart stands at a half-made address: countdown | real 4, replace 1:2 1 0, real 11, step 2 = real 15 layout 3; hart live 1001c 12004; unfinished
a call returns past the text: last call | replace 2:0; 0:0, real 10 = real 4 layout 1; layout 1 12000 3; trap 1 at 1000c value 1000c
the same without a layout: last call | real 10 = real 4 layout 0; trap 1 at 1000c value 1000c
a stored link is read in bytes: stored link | replace 1:0, real 100 = layout 1 12000 2; exit 8";

#[test]
fn a_run_goes_on_where_its_code_moves(rt: HostRuntime) -> Result<(), Fail> {
    assert_eq!(rt; first_missing(rt.alloc(), RUNS)?.as_str(), "");
    Ok(())
}

const REPORTS: &str = "\
a link is added: added link | real 10 = link use 1 at 10004
a link is jumped past: past link | real 10 = link use 6 at 10004
a link is added in a layout: added link | replace 1:0, real 10 = real 2 layout 0; layout 1 12000 2; hart live 10004 12000; link use 1 at 10004
a jump lands at a second word: to second | real 10 = landing at 10010";

#[test]
fn uses_of_links_are_reported(rt: HostRuntime) -> Result<(), Fail> {
    assert_eq!(rt; first_missing(rt.alloc(), REPORTS)?.as_str(), "");
    Ok(())
}

const REFUSALS: &str = "\
a call is out of reach: countdown in 200000..201000 | replace 1:0 1 2, real 100 = attempts 1 done 0; refusal 1 reach 10000 200000; sites 0 slots 0; exit 28
a function is unreadable: zero word | replace 1:0, real 100 = refusal 1 undecodable 1 10008; exit 0
a call in reach stands where another is not: apart in 1000..2000 | replace 1:0 = refusal 1 reach 196a08 1000; sites 0 slots 0; unfinished
no page holds the layout: over 1021 in 20000..21000 | replace 0:0 1 2, real 10 = attempts 1 done 0; refusal 1 region 4100 4096; exit 0";

#[test]
fn what_has_no_place_is_refused(rt: HostRuntime) -> Result<(), Fail> {
    assert_eq!(rt; first_missing(rt.alloc(), REFUSALS)?.as_str(), "");
    Ok(())
}

const BRANCHES: &str = "\
a branch is short: over 1021 | replace 0:0 1 2, real 10 = layout 1 12000 1025; exit 0
a branch is long: over 1022 | replace 0:0 1 2, real 10 = layout 1 13000 1027; exit 0
a page is full: over 1020 in 20000..21000 | replace 0:0 1 2, real 10 = layout 1 20000 1024; exit 0";

#[test]
fn a_branch_past_its_reach_is_long(rt: HostRuntime) -> Result<(), Fail> {
    assert_eq!(rt; first_missing(rt.alloc(), BRANCHES)?.as_str(), "");
    Ok(())
}

const SEVERAL: &str = "\
calls of an older layout move on: recursion | real 7, replace 1:0 1 2, real 5, replace 1:2 1 0, real 100 = real 33 layout 0; attempts 2 done 2; sites 2 slots 0; layout 1 12000 9; layout 2 12024 11; exit 6
a slot is sent: table | real 5, replace 1:0, real 3 = real 8 layout 0; sites 0 slots 1; layout 1 13000 2; hart live 10020 13004; unfinished
a slot is sent on: table | real 5, replace 1:0, replace 1:0, real 3 = sites 0 slots 1; layout 2 13008 2; hart live 10020 1300c
a slot is sent home: table | real 5, replace 1:0, replace , real 3 = attempts 2 done 2; sites 0 slots 0; layout 1 13000 2; hart live 10020 10020
a slot that is overwritten is left: own table | real 4, replace 1:0, real 3 = sites 0 slots 0; layout 1 13000 2; hart live 1002c 1002c";

#[test]
fn older_layouts_and_slots_are_sent_on(rt: HostRuntime) -> Result<(), Fail> {
    assert_eq!(rt; first_missing(rt.alloc(), SEVERAL)?.as_str(), "");
    Ok(())
}

const RETIREMENTS: &str = "\
nothing refers to an older layout: recursion | real 7, replace 1:0 1 2, real 5, replace 1:2 1 0, real 7, retire, real 4, retire, real 100 = real 33 layout 0; attempts 2 done 2; retired 1; sites 2 slots 0; layout 2 12024 11; exit 6
a dead word of the stack refers to it: dead link | real 7, replace 1:0 1 2, real 5, replace 1:2 1 0, real 20, retire, real 100 = real 43 layout 2; retired 0; layout 1 12000 9; layout 2 12024 11; exit 8
and does no more: dead link | real 7, replace 1:0 1 2, real 5, replace 1:2 1 0, real 20, retire, real 9, retire, real 100 = real 43 layout 2; retired 1; layout 2 12024 11; exit 8
a range is free again: countdown | replace 1:2 1 0, replace 1:2 1 0, retire, replace 1:2 1 0 = attempts 3 done 3; retired 1; layout 2 12024 9; layout 3 12000 9
a slot refers to a layout: table | real 5, replace 1:0, retire, real 3 = retired 0; layout 1 13000 2; hart live 10020 13004; unfinished
all calls are sent home: countdown | replace 1:2 1 0, replace , retire, real 100 = real 20 layout 0; attempts 2 done 2; retired 1; sites 0 slots 0; exit 28";

#[test]
fn what_nothing_refers_to_is_given_up(rt: HostRuntime) -> Result<(), Fail> {
    assert_eq!(rt; first_missing(rt.alloc(), RETIREMENTS)?.as_str(), "");
    Ok(())
}

const SNAPSHOTS: &str = "\
each transfer is counted: countdown | real 9, snap = real 9 layout 0; snaps 1 of 4; transfer 10000 10010 1; transfer 10018 10014 1; transfer 10018 1001c 1; transfer 10024 10004 1
the last two are kept: countdown | ring 2, real 9, snap = snaps 1 of 2; transfer 10018 1001c 1; transfer 10024 10004 1
moved code is recorded by original addresses: countdown | ring 4, replace 1:2 1 0, real 9, snap = snaps 1 of 4; transfer 10000 10010 1; transfer 10018 10014 1; transfer 10018 1001c 1; transfer 10024 10004 1
a snapshot takes the place of the one before: countdown | ring 1, real 1, snap, real 4, snap = snaps 2 of 1; transfer 10018 10014 1
nothing is kept: countdown | ring 0, real 9, snap = snaps 1 of 0
after the end none is taken: countdown | real 100, snap = snaps 0 of 0; exit 28";

#[test]
fn snapshots_count_the_last_transfers(rt: HostRuntime) -> Result<(), Fail> {
    assert_eq!(rt; first_missing(rt.alloc(), SNAPSHOTS)?.as_str(), "");
    Ok(())
}
