//! Refused replacements.

ghost use Rattle.std.specs.Prelude.{◌≡◌, ◌++◌, codes, flat_map, string_bytes, OnOk};
ghost use Rattle.std.specs.Fmt.{decimal};
ghost use Rattle.sched_log.specs.declared.facts.Refusal.{Refusal};
ghost use Rattle.blocks.specs.declared.fault.Unreadable.{Unreadable as Why};
ghost use Rattle.seen.specs.Refusals.{named_text, room_text, reach_text, unreadable_text, refusal_text, refused_line};

use blocks::fault::Unreadable;
use looking::func::{name_of, push_why};
use looking::piece::{push_address, push_name};
use oc_base::fault::NoMemory;
use oc_base::items::Items;
use sched_log::facts::{Refusal, Refused};
use std::fmt::Write;

/// Adds a function's number and its name.
pub fn push_named(text: &mut String, names: &[Items<u8>], n: u32) -> Result<(), NoMemory>
    ensures { OnOk result (string_bytes text.new ≡ string_bytes text.old ++ named_text names.now n) }
{
    write!(text, "{n} ")?;
    push_name(text, name_of(names, n))
}

fn push_room(text: &mut String, need: u64, largest: u64) -> Result<(), NoMemory>
    ensures { OnOk result (string_bytes text.new ≡ string_bytes text.old ++ room_text need largest) }
{
    write!(text, "no room: {need} bytes are needed, ")?;
    writeln!(text, "the largest free range has {largest}")?;
    Ok(())
}

fn push_reach(text: &mut String, at: u64, target: u64) -> Result<(), NoMemory>
    ensures { OnOk result (string_bytes text.new ≡ string_bytes text.old ++ reach_text at target) }
{
    text.push_str("the word at ")?;
    push_address(text, at)?;
    text.push_str(" can't reach ")?;
    push_address(text, target)?;
    text.push('\n')?;
    Ok(())
}

fn push_unreadable(
    text: &mut String,
    names: &[Items<u8>],
    func: u32,
    why: Unreadable,
) -> Result<(), NoMemory>
    ensures { OnOk result (string_bytes text.new ≡ string_bytes text.old ++ unreadable_text names.now func why) }
{
    text.push_str("function ")?;
    push_named(text, names, func)?;
    text.push_str(": ")?;
    push_why(text, why)?;
    text.push('\n')?;
    Ok(())
}

fn push_head(text: &mut String, attempt: u64) -> Result<(), NoMemory>
    ensures { OnOk result (string_bytes text.new ≡ string_bytes text.old ++ (codes "refused " ++ decimal attempt ++ codes ": ")) }
{
    write!(text, "refused {attempt}: ")?;
    Ok(())
}

// Why an attempt was refused.
fn push_refusal(
    text: &mut String,
    names: &[Items<u8>],
    attempt: u64,
    refusal: Refusal,
) -> Result<(), NoMemory>
    ensures { OnOk result (string_bytes text.new ≡ string_bytes text.old ++ refusal_text names.now attempt refusal) }
{
    match refusal {
        Refusal::RegionFull { need, largest } => {
            push_head(text, attempt)?;
            push_room(text, need, largest)
        }
        Refusal::BranchReach { at, target } => {
            push_head(text, attempt)?;
            push_reach(text, at, target)
        }
        Refusal::Unreadable { func, why } => {
            push_head(text, attempt)?;
            push_unreadable(text, names, func, why)
        }
        Refusal::NoMemory => Ok(()),
    }
}

/// Adds a line for each refused attempt.
pub fn push_refusals(
    text: &mut String,
    names: &[Items<u8>],
    refusals: &[Refused],
) -> Result<(), NoMemory>
    ensures { OnOk result (string_bytes text.new ≡ string_bytes text.old ++ flat_map (refused_line names.now) refusals.now) }
{
    for refused in refusals {
        push_refusal(text, names, refused.attempt, refused.refusal)?;
    }
    Ok(())
}
