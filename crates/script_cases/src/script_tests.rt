//! Scripts with what they are read as. What is wanted was told by an independent implementation, but for what this project alone has:
//! two spaces and `/` in a plan.

use cases::images::image_of;
use cases::orders::plan_text;
use image::picture::Image;
use sched_log::event::Event;
use sched_log::read::read_script;
use sched_log::write::write_log;
use std::alloc::{AllocError, Global};
use std::test::Fail;

/// A script, in which `|` stands for a newline, and what it asks for in the words of the shortest such script, or its
/// first fault.
const SCRIPTS: &str = "steps 1 2|real 3 4|till 5|end| => steps 1 2|real 3 4|till 5|end|
end => end|
end| => end|
#x||end => end|
|||till 1|| #|end => line 6 fault 1
# a comment  with two spaces|till 05|#|end|#|| => till 5|end|
real 0000000063 0000000001|end => real 63 1|end|
till 5| => line 2 fault 5
till 5 => line 2 fault 5
till 5|#end| => line 3 fault 5
 => line 1 fault 5
| => line 2 fault 5
|| => line 3 fault 5
go| => line 1 fault 1
End| => line 1 fault 1
snap|end| => snap|end|
snap|till 1|snap|end => snap|till 1|snap|end|
snap 0|end => line 1 fault 1
snap |end => line 1 fault 1
Snap|end => line 1 fault 1
snapshot|end => line 1 fault 1
end|snap => line 2 fault 6
retire|end| => retire|end|
retire|till 1|retire|end => retire|till 1|retire|end|
retire 0|end => line 1 fault 1
retire |end => line 1 fault 1
Retire|end => line 1 fault 1
end|retire => line 2 fault 6
till|end => line 1 fault 1
till 5 6|end => line 1 fault 1
till  5|end => line 1 fault 1
till 5 |end => line 1 fault 1
 till 5|end => line 1 fault 1
end |end => line 1 fault 1
end 0|end => line 1 fault 1
steps 0|end => line 1 fault 1
steps 0 1 2|end => line 1 fault 1
steps x |end => line 1 fault 1
real 64  1|end => line 1 fault 1
steps 64 1|end => line 1 fault 2
real 64 1|end => line 1 fault 2
real 4294967296 1|end => line 1 fault 2
real x 1|end => line 1 fault 2
real 1 x|end => line 1 fault 2
till -5|end => line 1 fault 2
till +5|end => line 1 fault 2
till 0x5|end => line 1 fault 2
till 5.|end => line 1 fault 2
till 4294967296|end => line 1 fault 2
till 00000000005|end => line 1 fault 2
till 2000000000|end => till 2000000000|end|
till 2000000001|end => line 1 fault 7
till 4294967295|end => line 1 fault 7
till 2000000000|real 0 0|end => till 2000000000|real 0 0|end|
till 2000000000|real 0 1|end => line 2 fault 7
steps 0 1000000000|real 0 1000000000|till 1|end => line 3 fault 7
till 2000000000|real 64 1|end => line 2 fault 2
end|end| => line 2 fault 6
end|till 5| => line 2 fault 6
end|#x||steps 0 0| => line 4 fault 6
end|till 2000000001| => line 2 fault 6
end|go| => line 2 fault 1
end|real 64 1| => line 2 fault 2
end|#x||  => line 4 fault 1
go|till x| => line 1 fault 1
till x|go| => line 1 fault 2";

/// Scripts with a plan.
const PLANS: &str = "replace 1:2 1 0|end => replace 1:2 1 0|end|
replace 1:0 1 2|end| => replace 1:0 1 2|end|
replace 1:0 1 2; 0:0|end => replace 1:0 1 2; 0:0|end|
replace 0:0; 1:2 1 0|end => replace 0:0; 1:2 1 0|end|
replace 01:002 1 0000000000|end => replace 1:2 1 0|end|
real 0 4|replace 1:2 1 0|till 100|end| => real 0 4|replace 1:2 1 0|till 100|end|
#replace|replace 0:0||end|#replace => replace 0:0|end|
till 2000000000|replace 0:0|end => till 2000000000|replace 0:0|end|
replace 0:0 => line 2 fault 5
replace|end => replace|end|
snap|replace|replace 0:0|replace|end => snap|replace|replace 0:0|replace|end|
replace |end => line 1 fault 1
 replace 0:0|end => line 1 fault 1
Replace 0:0|end => line 1 fault 1
replacex 0:0|end => line 1 fault 1
replace:0:0|end => line 1 fault 1
replace 0|end => line 1 fault 1
replace x|end => line 1 fault 1
replace :|end => line 1 fault 1
replace :0|end => line 1 fault 1
replace 0:|end => line 1 fault 1
replace 0::0|end => line 1 fault 2
replace ;|end => line 1 fault 1
replace 0:0;|end => line 1 fault 1
replace 0:0; |end => line 1 fault 1
replace ; 0:0|end => line 1 fault 1
replace 0:0;1:0 1 2|end => line 1 fault 1
replace 0:0 ;1:0 1 2|end => line 1 fault 1
replace 0:0 ; 1:0 1 2|end => line 1 fault 1
replace 0:0;  1:0 1 2|end => line 1 fault 1
replace  0:0|end => line 1 fault 1
replace 0:0 |end => line 1 fault 1
replace 0 :0|end => line 1 fault 1
replace 1: 0 1 2|end => line 1 fault 1
replace 1:0  1 2|end => line 1 fault 1
replace 1:0 1 2; 0|end => line 1 fault 1
replace 0:0; ; 1:0 1 2|end => line 1 fault 1
replace 0/0:0|end => line 1 fault 1
replace 0:/0|end => line 1 fault 1
replace 0:0/|end => line 1 fault 1
replace 1:0 1/2|end => line 1 fault 1
replace 0:x/0|end => line 1 fault 1
replace 9:0/0|end => line 1 fault 1
replace x:0; 1|end => line 1 fault 1
replace 9:x; 1:|end => line 1 fault 1
replace x:0|end => line 1 fault 2
replace 0:x|end => line 1 fault 2
replace 0 0:0|end => line 1 fault 2
replace 0:0:0|end => line 1 fault 2
replace 0:0, 1:0|end => line 1 fault 2
replace -0:0|end => line 1 fault 2
replace 0:+0|end => line 1 fault 2
replace 00000000000:0|end => line 1 fault 2
replace 0:00000000000|end => line 1 fault 2
replace 4294967296:0|end => line 1 fault 2
replace 0:4294967296|end => line 1 fault 2
replace 2:x|end => line 1 fault 2
replace 2:0; 0:x|end => line 1 fault 2
replace 0:0; 0:x|end => line 1 fault 2
replace 2:0|end => line 1 fault 3
replace 4294967295:0|end => line 1 fault 3
replace 1:5; 2:0|end => line 1 fault 3
replace 0:0; 0:0; 2:0|end => line 1 fault 3
replace 2:0; 2:0|end => line 1 fault 3
replace 0:0; 0:0|end => line 1 fault 4
replace 0:0; 1:0 1 2; 0:0|end => line 1 fault 4
replace 0:1|end => line 1 fault 4
replace 0:0 0|end => line 1 fault 4
replace 1:0 1|end => line 1 fault 4
replace 1:0 1 1|end => line 1 fault 4
replace 1:0 1 3|end => line 1 fault 4
replace 1:1 2 3|end => line 1 fault 4
replace 1:0 1 2 3|end => line 1 fault 4
replace 1:0 1 4294967295|end => line 1 fault 4
end|replace 0:0|  => line 2 fault 6
end|replace 0:0| => line 2 fault 6
end|replace 0:1| => line 2 fault 4
end|replace 2:0| => line 2 fault 3
end|replace 0:x| => line 2 fault 2
end|replace| => line 2 fault 6
end|replace | => line 2 fault 1
till 2000000000|replace 0:0|till 1|end => line 3 fault 7
till 2000000001|replace 0:|end => line 1 fault 7
replace 0:0|replace 0:0|end => replace 0:0|replace 0:0|end|
replace 0:0|till 1|replace 1:2 1 0|retire|end => replace 0:0|till 1|replace 1:2 1 0|retire|end|
replace 0:0|end|replace 0:0| => line 3 fault 6
replace 0:0|replace 0:x|end => line 2 fault 2
replace 0:0|replace 2:0|end => line 2 fault 3
replace 0:0|go|replace 0:0|end => line 2 fault 1
till 5;|end => line 1 fault 2
steps 0:1|end => line 1 fault 1
steps 0; 1|end => line 1 fault 2";

/// Scripts for an image with a function that can't be cut into blocks.
const ANY_ORDERS: &str = "replace 1:0|end => replace 1:0|end|
replace 1:2 0 1|end => replace 1:2 0 1|end|
replace 0:0; 1:1 0|end => replace 0:0; 1:1 0|end|
replace 1:|end => line 1 fault 1
replace 2:0|end => line 1 fault 3
replace 1:1 2|end => line 1 fault 4
replace 1:0 1 3|end => line 1 fault 4
replace 1:0 0|end => line 1 fault 4
replace 1:0; 1:0|end => line 1 fault 4";

/// The text with a newline for each `|`.
fn lines(alloc: Global, text: &str) -> Result<Vec<u8>, AllocError> {
    let mut bytes = Vec::new(alloc);
    for byte in text.bytes() {
        bytes.push(if byte == b'|' { b'\n' } else { byte })?;
    }
    Ok(bytes)
}

/// What a script asks for, written again, or its first fault.
fn told(alloc: Global, image: &Image, script: &[u8]) -> Result<Vec<u8>, Fail> {
    match read_script(alloc, image, script) {
        Ok(events) => Ok(write_log(alloc, events.as_slice())?.into_vec()),
        Err(fault) => Ok(fault.to_string(alloc)?.into_bytes()),
    }
}

/// The first case of a guest that is read as something else than is wanted.
fn first_wrong(alloc: Global, guest: &str, cases: &str) -> Result<String, Fail> {
    let image = image_of(alloc, guest)?;
    for case in cases.lines() {
        let (script, wanted) = case.split_once(" => ").unwrap_or(("", ""));
        let found = told(alloc, &image, &lines(alloc, script)?)?;
        if found != lines(alloc, wanted)? {
            return Ok(String::from_str(alloc, case)?);
        }
    }
    Ok(String::new(alloc))
}

#[test]
fn scripts_are_read_as_their_events_or_their_first_fault(rt: HostRuntime) -> Result<(), Fail> {
    assert_eq!(rt; first_wrong(rt.alloc(), "countdown", SCRIPTS)?.as_str(), "");
    Ok(())
}

#[test]
fn plans_are_read_as_they_are_or_as_their_first_fault(rt: HostRuntime) -> Result<(), Fail> {
    assert_eq!(rt; first_wrong(rt.alloc(), "countdown", PLANS)?.as_str(), "");
    Ok(())
}

#[test]
fn a_function_without_blocks_takes_any_order(rt: HostRuntime) -> Result<(), Fail> {
    assert_eq!(rt;
        first_wrong(rt.alloc(), "zero word", ANY_ORDERS)?.as_str(),
        ""
    );
    Ok(())
}

fn event_text(alloc: Global, event: &Event) -> Result<String, AllocError> {
    match event {
        Event::Steps { h, n } => format!(in alloc; "{n} steps of {h}"),
        Event::Real { h, n } => format!(in alloc; "{n} real steps of {h}"),
        Event::Till { n } => format!(in alloc; "{n} turns"),
        Event::Snap => String::from_str(alloc, "snapshot"),
        Event::Replace => String::from_str(alloc, "its plan"),
        Event::Given(plan) => plan_text(alloc, plan),
        Event::Retire => String::from_str(alloc, "retirement"),
    }
}

/// What the events of a script are.
fn events_text(alloc: Global, script: &str) -> Result<String, Fail> {
    let image = image_of(alloc, "countdown")?;
    let Ok(events) = read_script(alloc, &image, &lines(alloc, script)?) else {
        return Err(Fail::new("no events"));
    };
    let mut text = String::new(alloc);
    for event in events.as_slice() {
        text.push_str(&event_text(alloc, event)?)?;
        text.push_str(", ")?;
    }
    Ok(text)
}

#[test]
fn each_command_is_its_event(rt: HostRuntime) -> Result<(), Fail> {
    assert_eq!(rt;
        events_text(
            rt.alloc(),
            "steps 1 2|real 3 4|till 5|snap|replace|replace 0:0; 1:2 0 1|retire|end|"
        )?
        .as_str(),
        "2 steps of 1, 4 real steps of 3, 5 turns, snapshot, its plan, 0:0; 1:2 0 1, retirement, "
    );
    Ok(())
}
