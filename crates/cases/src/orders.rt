//! Plans as text.

ghost use Rattle.std.specs.Prelude.{◌≡◌, IfOk, None};
ghost use Rattle.plans.specs.Given.{plan_fault};

use image::picture::Image;
use oc_base::items::Items;
use plans::plan::{Moved, Plan};
use std::alloc::{AllocError, Global};
use std::test::Fail;

/// The number that decimal digits say.
pub fn number(word: &str) -> u32 {
    word.parse().unwrap_or(u32::MAX)
}

/// A part such as `1:2 1 0`.
fn part_of(alloc: Global, text: &str) -> Result<Moved, AllocError> {
    let (func, blocks) = text.split_once(':').unwrap_or(("", ""));
    let mut order = Vec::new(alloc);
    for block in blocks.split_whitespace() {
        order.push(number(block))?;
    }
    Ok(Moved {
        func: number(func),
        order: Items::from_vec(order),
    })
}

/// Parts such as `1:2 1 0; 0:0`.
pub fn parts_of(alloc: Global, text: &str) -> Result<Vec<Moved>, AllocError> {
    let mut parts = Vec::new(alloc);
    for part in text.split("; ") {
        if !part.is_empty() {
            parts.push(part_of(alloc, part)?)?;
        }
    }
    Ok(parts)
}

/// The plan that a text says, if it is one.
pub fn plan_of(alloc: Global, image: &Image, text: &str) -> Result<Plan, Fail>
    ensures { IfOk result (λ plan. plan_fault image.now plan ≡ None) }
{
    let parts = parts_of(alloc, text)?;
    let Ok(plan) = Plan::given(alloc, image, &parts) else {
        return Err(Fail::new("no plan"));
    };
    Ok(plan)
}

fn push_part(text: &mut String, alloc: Global, part: &Moved) -> Result<(), AllocError> {
    let func = part.func;
    text.push_str(&format!(in alloc; "{func}:")?)?;
    for (i, block) in part.order.as_slice().iter().enumerate() {
        text.push_str(if i == 0 { "" } else { " " })?;
        text.push_str(&format!(in alloc; "{block}")?)?;
    }
    Ok(())
}

/// The text of a plan.
pub fn plan_text(alloc: Global, plan: &Plan) -> Result<String, AllocError> {
    let mut text = String::new(alloc);
    for part in plan.parts() {
        text.push_str(if text.is_empty() { "" } else { "; " })?;
        push_part(&mut text, alloc, part)?;
    }
    Ok(text)
}
