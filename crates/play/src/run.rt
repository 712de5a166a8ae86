//! What the bytes of a program, of a script and of an input deliver.

ghost use Rattle.std.specs.Prelude.{IfSome};
ghost use Rattle.report.specs.declared.answer.Ended.{Ended};
ghost use Rattle.image.specs.Picture.{IsPaged};
ghost use Rattle.top_call.specs.Call.{UnlessFull};
ghost use Rattle.play.specs.Decision.{given_with, RunsTo, Delivers};

use crate::schedule::perform;
use delivered::build::build;
use delivered::deliver::deliver;
use image::picture::Image;
use machine::outcome::Outcome;
use play_words::words::Words;
use report::answer::Ended;
use report::writing::Delivery;
use sched_log::fault::ScriptFault;
use sched_log::read::read_script;
use std::alloc::Global;

// The run of an image under a script.
fn run_image(
    alloc: Global,
    image: Image,
    script: &[u8],
    input: Vec<u8>,
    said: &Words,
) -> Result<Delivery, Ended>
    ensures { UnlessFull Ended.NoMemory (RunsTo image script.now input.items said.now.ring said.now.report) result }
{
    let events = match read_script(alloc, &image, script) {
        Ok(events) => events,
        Err(ScriptFault::NoMemory) => return Err(Ended::NoMemory),
        Err(fault) => return Err(Ended::Script(fault)),
    };
    let Ok(world) = perform(alloc, image, events.as_slice(), input, said.ring) else {
        return Err(Ended::NoMemory);
    };
    let Ok(delivery) = deliver(alloc, &world, Outcome::Unfinished, said.report) else {
        return Err(Ended::NoMemory);
    };
    Ok(delivery)
}

/// Runs the program under the script, with the input, as the words say.
pub fn run(
    alloc: Global,
    program: &[u8],
    script: &[u8],
    input: Vec<u8>,
    said: &Words,
) -> Result<Delivery, Ended>
    requires pages { IfSome said.now.region IsPaged }
    ensures { UnlessFull Ended.NoMemory (Delivers (given_with said.now program.now script.now input.items)) result }
{
    let image = match build(alloc, program, said.region) {
        Ok(image) => image,
        Err(ended) => return Err(ended),
    };
    run_image(alloc, image, script, input, said)
}
