//! What a world delivers.

ghost use Rattle.std.specs.Prelude.{◌≡◌, IfOk};
ghost use Rattle.delivered.specs.Deliveries.{closed, outcome_of, delivery_of};

use machine::outcome::Outcome;
use oc_base::fault::NoMemory;
use oc_base::items::Items;
use report::text::report;
use report::writing::Delivery;
use std::alloc::Global;
use world::world::World;

fn outcome_of(unended: Outcome, ended: Option<Outcome>) -> Outcome
    ensures { result ≡ outcome_of unended ended }
{
    match ended {
        Some(outcome) => outcome,
        None => unended,
    }
}

// A text with a newline at its end, if it isn't empty.
fn closed(text: Items<u8>) -> Result<Items<u8>, NoMemory>
    ensures { IfOk result (λ all. all ≡ closed text) }
{
    let mut text = text;
    let bytes = text.as_slice();
    if bytes.is_empty() {
        return Ok(text);
    }
    if bytes[bytes.len() - 1] == 10 {
        return Ok(text);
    }
    let Ok(()) = text.extend_from_slice(b"\n") else {
        return Err(NoMemory);
    };
    Ok(text)
}

/// The outcome of a world, both outputs and its report. A world whose run hasn't ended has the outcome `unended`.
pub fn deliver(
    alloc: Global,
    world: &World,
    unended: Outcome,
    shown: bool,
) -> Result<Delivery, NoMemory>
    ensures { IfOk result (λ d. d ≡ delivery_of unended shown world.now) }
{
    let facts = world.facts(alloc)?;
    let out = Items::from_slice(alloc, world.output(1))?;
    let err = Items::from_slice(alloc, world.output(2))?;
    Ok(Delivery {
        outcome: outcome_of(unended, world.outcome()),
        out,
        err: closed(err)?,
        report: report(alloc, &facts)?,
        shown,
    })
}
