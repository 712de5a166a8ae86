//! Writing a script.

ghost use Rattle.std.specs.Prelude.{◌≡◌, ◌<◌, ◌^◌, ◌++◌, map, string_bytes, IfOk, OnOk};
ghost use Rattle.std.specs.List.{AllByRecursion};
ghost use Rattle.image.specs.Picture.{Picture, IsKept};
ghost use Rattle.sched_log.specs.Printed.{row, part_text, plan_text, line_text, terminated, printed, as_read, ReadsAs};
ghost use Rattle.sched_log.specs.Ranges.{AreInRange, HasShortBlocks, IsShort};
ghost use Rattle.std.specs.Fmt.{decimal};

use crate::event::Event;
use oc_base::fault::NoMemory;
use oc_base::items::Items;
use plans::plan::Moved;
use std::alloc::Global;
use std::fmt::Write;

/// Adds numbers with a space between each two.
fn push_numbers(text: &mut String, numbers: &[u32]) -> Result<(), NoMemory>
    ensures text { OnOk result (string_bytes text.new ≡ string_bytes text.old ++ row 32 decimal numbers.now) }
    ensures short { AllByRecursion (λ n. n < 2 ^ 32) numbers.now }
{
    let [first, others @ ..] = numbers else {
        return Ok(());
    };
    write!(text, "{first}")?;
    for number in others {
        write!(text, " {number}")?;
    }
    Ok(())
}

/// Adds a part of a plan.
fn push_part(text: &mut String, part: &Moved) -> Result<(), NoMemory>
    ensures text { OnOk result (string_bytes text.new ≡ string_bytes text.old ++ part_text part.now) }
    ensures short { OnOk result (HasShortBlocks part.now) }
{
    let func = part.func;
    write!(text, "{func}:")?;
    push_numbers(text, part.order.as_slice())
}

/// Adds what stands behind the word `replace`.
fn push_plan(text: &mut String, parts: &[Moved]) -> Result<(), NoMemory>
    ensures text { OnOk result (string_bytes text.new ≡ string_bytes text.old ++ plan_text parts.now) }
    ensures short { OnOk result (AllByRecursion HasShortBlocks parts.now) }
{
    let [first, others @ ..] = parts else {
        return Ok(());
    };
    text.push(' ')?;
    push_part(text, first)?;
    for part in others {
        text.push_str("; ")?;
        push_part(text, part)?;
    }
    Ok(())
}

/// Adds the line of an event.
fn push_line(text: &mut String, event: &Event) -> Result<(), NoMemory>
    ensures text { OnOk result (string_bytes text.new ≡ string_bytes text.old ++ terminated (line_text event.now)) }
    ensures short { OnOk result (IsShort event.now) }
{
    match event {
        Event::Steps { h, n } => writeln!(text, "steps {h} {n}")?,
        Event::Real { h, n } => writeln!(text, "real {h} {n}")?,
        Event::Till { n } => writeln!(text, "till {n}")?,
        Event::Snap => text.push_str("snap\n")?,
        Event::Replace => text.push_str("replace\n")?,
        Event::Given(plan) => {
            text.push_str("replace")?;
            push_plan(text, plan.parts())?;
            text.push('\n')?;
        }
        Event::Retire => text.push_str("retire\n")?,
    }
    Ok(())
}

/// The lines of the events in their order, and the end.
#[tactic(auto, unfolding(crate::specs::Printed::printed))]
fn text_of(alloc: Global, events: &[Event]) -> Result<String, NoMemory>
    ensures text { IfOk result (λ text. string_bytes text ≡ printed events.now) }
    ensures short { OnOk result (AllByRecursion IsShort events.now) }
{
    let mut text = String::new(alloc);
    for event in events {
        push_line(&mut text, event)?;
    }
    text.push_str("end\n")?;
    Ok(text)
}

/// The script that asks for these events; a plan that moves nothing reads as `Replace`. Events that no script can ask for are
/// written all the same.
pub fn write_log(alloc: Global, events: &[Event]) -> Result<Items<u8>, NoMemory>
    ensures text { IfOk result (λ text. text ≡ printed events.now) }
    ensures back { (image : Picture) → IsKept image → AreInRange image events.now → IfOk result (ReadsAs image events.now) }
    ensures nothing_moved { (image : Picture) → IsKept image → AreInRange image (map as_read events.now) → IfOk result (ReadsAs image (map as_read events.now)) }
{
    let text = text_of(alloc, events)?;
    Ok(Items::from_vec(text.into_bytes()))
}
