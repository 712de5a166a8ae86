//! The calls of text and of a layout, with what each becomes.

ghost use Rattle.std.specs.Prelude.{◌≡◌, ◌++◌, ◌+◌, ◌<◌, ◌^◌, [], All, IfOk, OnOk};
ghost use Rattle.std.specs.List.{filter_map, cons_option};
ghost use Rattle.std.specs.Option.{option_map, option_copied};
ghost use Rattle.layout.specs.Laid.{point_in};
ghost use Rattle.patcher.specs.Goals.{goal_of, goal_at, goal_in};
ghost use Rattle.patcher.specs.Calls.{call_at, call_of, text_calls, layout_calls};

use crate::aims::Aims;
use crate::goal::{Call, Goal};
use image::ranges::Aim;
use layout::layout::Layout;
use layout::point::Point;
use oc_base::fault::NoMemory;
use std::alloc::Global;

fn push_call(calls: &mut Vec<Call>, at: u64, goal: Option<Goal>) -> Result<(), NoMemory>
    ensures { OnOk result (calls.new.items ≡ calls.old.items ++ cons_option (option_map (call_at at) goal) []) }
{
    match goal {
        Some(goal) => {
            calls.push(Call { at, goal })?;
            Ok(())
        }
        None => Ok(()),
    }
}

/// Adds the calls of text that stand this far past the places of a list.
#[tactic(auto, using(crate::proofs::Listed::calls_more))]
fn push_of_text(calls: &mut Vec<Call>, aims: &Aims, list: &[Aim], past: u64) -> Result<(), NoMemory>
    requires { All (λ s. s.at + past < 2 ^ 64) list.now }
    ensures { OnOk result (calls.new.items ≡ calls.old.items ++ filter_map (call_of (goal_of aims.now.image.now (option_copied aims.now.new)) past) list.now) }
{
    for s in list {
        let at = s.at + past;
        push_call(calls, at, aims.goal(at))?;
    }
    Ok(())
}

/// What a word of a layout becomes, if it is a call.
fn goal_in(aims: &Aims, layout: &Layout, at: u64) -> Option<Goal>
    ensures { result ≡ goal_in aims.now.image.now (option_copied aims.now.new) layout.now at }
{
    match layout.point_at(at) {
        Some(Point::Start(x)) => aims.goal(x),
        _ => None,
    }
}

#[tactic(auto, using(crate::proofs::Listed::calls_more))]
fn push_of_layout(
    calls: &mut Vec<Call>,
    aims: &Aims,
    layout: &Layout,
    list: &[Aim],
) -> Result<(), NoMemory>
    ensures { OnOk result (calls.new.items ≡ calls.old.items ++ filter_map (call_of (goal_in aims.now.image.now (option_copied aims.now.new) layout.now) 0) list.now) }
{
    for s in list {
        push_call(calls, s.at, goal_in(aims, layout, s.at))?;
    }
    Ok(())
}

/// The calls of text.
pub fn text_calls(alloc: Global, aims: &Aims) -> Result<Vec<Call>, NoMemory>
    ensures { IfOk result (λ v. v.items ≡ text_calls aims.now.image.now (option_copied aims.now.new)) }
{
    aims.image.kept();
    let mut calls = Vec::new(alloc);
    push_of_text(&mut calls, aims, aims.image.sites(), 0)?;
    push_of_text(&mut calls, aims, aims.image.pairs(), 4)?;
    Ok(calls)
}

/// The calls of a live layout.
pub fn layout_calls(alloc: Global, aims: &Aims, layout: &Layout) -> Result<Vec<Call>, NoMemory>
    ensures { IfOk result (λ v. v.items ≡ layout_calls aims.now.image.now (option_copied aims.now.new) layout.now) }
{
    let mut calls = Vec::new(alloc);
    push_of_layout(&mut calls, aims, layout, layout.sites())?;
    push_of_layout(&mut calls, aims, layout, layout.pairs())?;
    Ok(calls)
}
