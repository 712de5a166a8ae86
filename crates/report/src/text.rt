//! The report of a run.

ghost use Rattle.std.specs.Prelude.{◌≡◌, ◌++◌, string_bytes, flat_map, length, IfOk, OnOk};
ghost use Rattle.report.specs.Text.{address, steps_line, counts_line, why_text, refusal_text, places_line, layout_line, hart_line, hart_lines, standing_line, refusal_line, report_of};

use blocks::fault::Unreadable;
use oc_base::fault::NoMemory;
use oc_base::items::Items;
use sched_log::facts::{Facts, HartFact, LayoutFact, Refusal, Refused};
use std::alloc::Global;
use std::fmt::Write;

fn push_address(text: &mut String, at: u64) -> Result<(), NoMemory>
    ensures { OnOk result (string_bytes text.new ≡ string_bytes text.old ++ address at) }
{
    text.push_str("0x")?;
    write!(text, "{at:x}")?;
    Ok(())
}

// Steps and counts.
fn push_counts(text: &mut String, facts: &Facts) -> Result<(), NoMemory>
    ensures { OnOk result (string_bytes text.new ≡ string_bytes text.old ++ (steps_line facts.now ++ counts_line facts.now)) }
{
    let (real, layout) = (facts.real, facts.layout);
    writeln!(text, "real {real} layout {layout}")?;
    let (snaps, attempts, done) = (facts.snaps, facts.attempts, facts.done);
    write!(text, "snaps {snaps} attempts {attempts} done {done}")?;
    let (refused, retired) = (facts.refusals.len(), facts.retired);
    writeln!(text, " refused {refused} retired {retired}")?;
    Ok(())
}

// Why a function can't be cut into blocks.
fn push_why(text: &mut String, why: Unreadable) -> Result<(), NoMemory>
    ensures { OnOk result (string_bytes text.new ≡ string_bytes text.old ++ why_text why) }
{
    match why {
        Unreadable::Undecodable(at) => {
            text.push_str("1 ")?;
            push_address(text, at)
        }
        Unreadable::BranchOut(at) => {
            text.push_str("2 ")?;
            push_address(text, at)
        }
        Unreadable::Misaimed(at) => {
            text.push_str("3 ")?;
            push_address(text, at)
        }
        Unreadable::Overlap(func) => {
            write!(text, "4 {func}")?;
            Ok(())
        }
        Unreadable::NoMemory => {
            text.push_str("0 0")?;
            Ok(())
        }
    }
}

// Why an attempt was refused.
fn push_refusal(text: &mut String, attempt: u64, refusal: Refusal) -> Result<(), NoMemory>
    ensures { OnOk result (string_bytes text.new ≡ string_bytes text.old ++ refusal_text attempt refusal) }
{
    match refusal {
        Refusal::RegionFull { need, largest } => {
            writeln!(text, "refusal {attempt} region {need} {largest}")?;
        }
        Refusal::BranchReach { at, target } => {
            write!(text, "refusal {attempt} reach ")?;
            push_address(text, at)?;
            text.push(' ')?;
            push_address(text, target)?;
            text.push('\n')?;
        }
        Refusal::Unreadable { func, why } => {
            write!(text, "refusal {attempt} unreadable {func} ")?;
            push_why(text, why)?;
            text.push('\n')?;
        }
        Refusal::NoMemory => {}
    }
    Ok(())
}

fn push_refusals(text: &mut String, refusals: &[Refused]) -> Result<(), NoMemory>
    ensures { OnOk result (string_bytes text.new ≡ string_bytes text.old ++ flat_map refusal_line refusals.now) }
{
    for refused in refusals {
        push_refusal(text, refused.attempt, refused.refusal)?;
    }
    Ok(())
}

fn push_places(text: &mut String, sites: u64, slots: u64) -> Result<(), NoMemory>
    ensures { OnOk result (string_bytes text.new ≡ string_bytes text.old ++ places_line sites slots) }
{
    writeln!(text, "sites {sites} slots {slots}")?;
    Ok(())
}

fn push_layout(text: &mut String, layout: LayoutFact) -> Result<(), NoMemory>
    ensures { OnOk result (string_bytes text.new ≡ string_bytes text.old ++ layout_line layout) }
{
    let LayoutFact {
        number,
        base,
        words,
    } = layout;
    write!(text, "layout {number} ")?;
    push_address(text, base)?;
    writeln!(text, " {words}")?;
    Ok(())
}

fn push_layouts(text: &mut String, layouts: &[LayoutFact]) -> Result<(), NoMemory>
    ensures { OnOk result (string_bytes text.new ≡ string_bytes text.old ++ flat_map layout_line layouts.now) }
{
    for layout in layouts {
        push_layout(text, *layout)?;
    }
    Ok(())
}

// Where a hart is that hasn't ended.
fn push_standing(
    text: &mut String,
    h: usize,
    how: &str,
    original: u64,
    pc: u64,
) -> Result<(), NoMemory>
    ensures { OnOk result (string_bytes text.new ≡ string_bytes text.old ++ standing_line h how.now original pc) }
{
    write!(text, "hart {h} {how} ")?;
    push_address(text, original)?;
    text.push(' ')?;
    push_address(text, pc)?;
    text.push('\n')?;
    Ok(())
}

fn push_hart(text: &mut String, h: usize, hart: HartFact) -> Result<(), NoMemory>
    ensures { OnOk result (string_bytes text.new ≡ string_bytes text.old ++ hart_line h hart) }
{
    match hart {
        HartFact::Live { original, pc } => push_standing(text, h, "live", original, pc),
        HartFact::Waiting { original, pc } => push_standing(text, h, "waiting", original, pc),
        HartFact::Ended => {
            writeln!(text, "hart {h} ended")?;
            Ok(())
        }
    }
}

#[tactic(auto, using(crate::proofs::Harts::harts_more, crate::proofs::Harts::harts_done))]
fn push_harts(text: &mut String, harts: &[HartFact]) -> Result<(), NoMemory>
    ensures { OnOk result (string_bytes text.new ≡ string_bytes text.old ++ hart_lines 0 harts.now) }
{
    for h in 0..harts.len() {
        push_hart(text, h, harts[h])?;
    }
    Ok(())
}

#[tactic(auto, unfolding(crate::specs::Text::report_of))]
fn text_of(alloc: Global, facts: &Facts) -> Result<String, NoMemory>
    ensures { IfOk result (λ text. string_bytes text ≡ report_of facts.now) }
{
    let mut text = String::new(alloc);
    push_counts(&mut text, facts)?;
    push_refusals(&mut text, facts.refusals.as_slice())?;
    push_places(&mut text, facts.sites, facts.slots)?;
    push_layouts(&mut text, facts.layouts.as_slice())?;
    push_harts(&mut text, facts.harts.as_slice())?;
    Ok(text)
}

/// The report of a run with these facts.
pub fn report(alloc: Global, facts: &Facts) -> Result<Items<u8>, NoMemory>
    ensures { IfOk result (λ text. text ≡ report_of facts.now) }
{
    let text = text_of(alloc, facts)?;
    Ok(Items::from_vec(text.into_bytes()))
}
