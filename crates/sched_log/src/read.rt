//! Reading a script.

ghost use Rattle.std.specs.Prelude.{◌≡◌, ◌≢◌, ◌+◌, ◌≤◌, ◌++◌, None, Some, IfErr, IfOk, OnOk};
ghost use Rattle.std.specs.Option.{IfNone};
ghost use Rattle.sched_log.specs.Limits.{count_limit};
ghost use Rattle.sched_log.specs.Script.{is_end, is_command, count_of, event_of, kind_of, fault_of, events_of};
ghost use Rattle.sched_log.specs.Ranges.{AreInRange};
ghost use Rattle.sched_log.specs.declared.fault.ScriptFault.TheVariants.{NoMemory as Full};

use crate::event::Event;
use crate::fault::{AFTER_END, NO_END, PAST_LIMIT, ScriptFault};
use crate::line::{Line, line_of};
use crate::parts::first_line;
use image::picture::Image;
use oc_base::fault::NoMemory;
use oc_base::items::Items;
use std::alloc::Global;

/// What the counts of a script may sum to.
pub const COUNT_LIMIT: u64 = 2_000_000_000;

fn is_end(line: &Line) -> bool
    ensures { result ≡ is_end line.now }
{
    matches!(line, Line::End)
}

fn is_command(line: &Line) -> bool
    ensures { result ≡ is_command line.now }
{
    matches!(line, Line::End | Line::Does(_))
}

/// The count of a line's event, and 0 where it has none.
fn count_of(line: &Line) -> u64
    ensures { result ≡ count_of line.now }
{
    match line {
        Line::Does(Event::Steps { n, .. } | Event::Real { n, .. } | Event::Till { n }) => *n,
        _ => 0,
    }
}

/// The kind of a line's fault: `ended` says whether an end comes before it, and `sum` is that of the counts before it.
#[tactic(auto, unfolding(crate::specs::Script::kind_of))]
fn kind_of(ended: bool, sum: u64, line: &Line) -> Option<u8>
    requires { sum ≤ count_limit }
    ensures kind { result ≡ kind_of ended (sum + count_of line.now) line.now }
    ensures small { IfNone result (sum + count_of line.now ≤ count_limit) }
{
    if let Line::Wrong(kind) = line {
        return Some(*kind);
    }
    if ended && is_command(line) {
        return Some(AFTER_END);
    }
    if count_of(line) > COUNT_LIMIT - sum {
        return Some(PAST_LIMIT);
    }
    None
}

/// Adds a line's event, where it has one.
fn push_event(events: &mut Items<Event>, line: Line) -> Result<(), NoMemory>
    ensures { OnOk result (events.new ≡ events.old ++ event_of line) }
{
    if let Line::Does(event) = line {
        events.push(event)?;
    }
    Ok(())
}

/// The events of a script for an image, or the first line with a fault and the fault's kind. A script without an `end` has the
/// fault 5 at the number of its lines plus 1.
#[tactic(auto, using(crate::proofs::Steps::fault_start, crate::proofs::Steps::fault_found, crate::proofs::Steps::fault_done, crate::proofs::Steps::event_done, crate::proofs::Ranges::in_range))]
pub fn read_script(alloc: Global, image: &Image, bytes: &[u8]) -> Result<Items<Event>, ScriptFault>
    ensures none { OnOk result (fault_of image.now bytes.now ≡ None) }
    ensures events { IfOk result (λ events. events ≡ events_of image.now bytes.now) }
    ensures range { IfOk result (AreInRange image.now) }
    ensures fault { IfErr result (λ e. e ≢ Full → fault_of image.now bytes.now ≡ Some e) }
{
    let mut events = Items::new(alloc);
    let mut number = 1;
    let mut ended = false;
    let mut sum = 0;
    let mut rest = bytes;
    'lines: while !rest.is_empty() {
        let (text, behind) = first_line(rest);
        let line = line_of(alloc, image, text)?;
        if let Some(kind) = kind_of(ended, sum, &line) {
            return Err(ScriptFault::Line { line: number, kind });
        }
        ended |= is_end(&line);
        sum += count_of(&line);
        push_event(&mut events, line)?;
        number += 1;
        rest = behind;
    }
    if !ended {
        return Err(ScriptFault::Line {
            line: number,
            kind: NO_END,
        });
    }
    Ok(events)
}
