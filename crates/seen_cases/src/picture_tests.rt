//! Drawings of runs, worked out by hand from the statements of the guests.

use crate::listing::{listed, pictured};
use std::test::Fail;

// Ten steps are a call of `work`, which goes round its loop once again, and a second call.
const MOVED: &str = "\
function 0 main
block 10000..10010 0
function 1 work
block 10010..10014 2
block 10014..1001c 1
block 1001c..10028 1
layout 1 12000..12024
place 1:2 12000..12010
place 1:1 12010..1201c
place 1:0 1201c..12024
";

const SCRIPT: &str = "real 10, snap, replace 1:2 1 0, real 100";

#[test]
fn a_moved_function_is_drawn(rt: HostRuntime) -> Result<(), Fail> {
    let text = listed(rt.alloc(), "main work", "countdown", SCRIPT)?;
    assert_eq!(rt; text.as_str(), MOVED);
    Ok(())
}

const UNCUT: &str = "\
function 0 main
block 10000..10008 0
function 1 \nblock 10008..1000c 0
";

#[test]
fn an_unreadable_function_is_one_block(rt: HostRuntime) -> Result<(), Fail> {
    let text = listed(rt.alloc(), "main", "zero word", "real 1, snap")?;
    assert_eq!(rt; text.as_str(), UNCUT);
    Ok(())
}

// 40 bytes of text and 36 of the layout, each on a width of 1200.
const LINES: &str = "\
<line x1='1040' y1='145' x2='286' y2='230' stroke='#fde725' stroke-opacity='0.5'/>
<rect x='20' y='230' width='533' height='40' fill='#fde725'><title>1:2 0x12000..0x12010</title></rect>
<text x='20' y='284'>layout 1 0x12000..0x12024</text>";

#[test]
fn a_picture_has_its_lines(rt: HostRuntime) -> Result<(), Fail> {
    let bytes = pictured(rt.alloc(), "main work", "countdown", SCRIPT)?;
    let text = str::from_utf8(&bytes).unwrap_or("");
    for line in LINES.lines() {
        assert!(rt; text.lines().any(|l| l == line), "{line} in\n{text}");
    }
    Ok(())
}
