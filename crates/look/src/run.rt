//! What is seen of a run.

ghost use Rattle.std.specs.Prelude.{◌≡◌, IfOk, IfSome};
ghost use Rattle.image.specs.Picture.{IsPaged};
ghost use Rattle.top_call.specs.Call.{UnlessFull};
ghost use Rattle.look.specs.Decision.{a_run, drawn, seen_of, ShowsRun, Delivers};
ghost use Rattle.look.specs.declared.decision.Refusal.{Refusal};
ghost use Rattle.script_words.specs.Words.{fault_words};
ghost use Rattle.sched_log.specs.declared.fault.ScriptFault.{ScriptFault};

use crate::decision::{Drawn, Refusal, Seen};
use crate::opened::{Opened, open_program};
use drawing::picture::draw;
use image::picture::Image;
use look_words::words::ScriptedRun;
use oc_base::fault::NoMemory;
use oc_base::items::Items;
use oc_base::range::Range;
use oc_base::text::Text;
use play::schedule::perform;
use sched_log::fault::ScriptFault;
use sched_log::read::read_script;
use script_words::fault_words;
use seen::picture::drawing_of;
use seen::story::story;
use std::alloc::Global;
use world::world::World;

// The picture of a world, if a file is to take it.
fn drawn(
    alloc: Global,
    world: &World,
    names: &[Items<u8>],
    picture: &Option<Text>,
) -> Result<Option<Drawn>, NoMemory>
    ensures { IfOk result (λ picture'. picture' ≡ drawn picture.now world.now names.now) }
{
    let Some(name) = picture else {
        return Ok(None);
    };
    let drawing = drawing_of(alloc, world, names)?;
    let bytes = draw(alloc, &drawing)?;
    let name = Text::copy_of(alloc, name.as_str())?;
    Ok(Some(Drawn { name, bytes }))
}

fn see(
    alloc: Global,
    world: &World,
    names: &[Items<u8>],
    picture: &Option<Text>,
) -> Result<Seen, NoMemory>
    ensures { IfOk result (λ seen. seen ≡ seen_of picture.now world.now names.now) }
{
    let text = story(alloc, world, names)?;
    let picture = drawn(alloc, world, names, picture)?;
    Ok(Seen { text, picture })
}

// The refusal of a script with this fault.
fn script_refusal(
    alloc: Global,
    image: &Image,
    names: &[Items<u8>],
    script: &[u8],
    line: u64,
    kind: u8,
) -> Result<Refusal, NoMemory>
    ensures { IfOk result (λ refusal. refusal ≡ Refusal.Script (ScriptFault.Line line kind) (fault_words image.now names.now script.now line kind)) }
{
    let words = fault_words(alloc, image, names, script, line, kind)?;
    let fault = ScriptFault::Line { line, kind };
    Ok(Refusal::Script { fault, words })
}

fn show_image(
    alloc: Global,
    image: Image,
    names: &[Items<u8>],
    script: &[u8],
    input: Vec<u8>,
    run: &ScriptedRun,
) -> Result<Seen, Refusal>
    ensures { UnlessFull Refusal.NoMemory (ShowsRun image names.now run.now script.now input.items) result }
{
    let events = match read_script(alloc, &image, script) {
        Ok(events) => events,
        Err(ScriptFault::NoMemory) => return Err(Refusal::NoMemory),
        Err(ScriptFault::Line { line, kind }) => {
            let Ok(refusal) = script_refusal(alloc, &image, names, script, line, kind) else {
                return Err(Refusal::NoMemory);
            };
            return Err(refusal);
        }
    };
    let Ok(world) = perform(alloc, image, events.as_slice(), input, run.ring) else {
        return Err(Refusal::NoMemory);
    };
    let Ok(seen) = see(alloc, &world, names, &run.picture) else {
        return Err(Refusal::NoMemory);
    };
    Ok(seen)
}

/// What the run of a program under a script shows.
pub(crate) fn show_run(
    alloc: Global,
    program: &[u8],
    region: Option<Range>,
    script: &[u8],
    input: Vec<u8>,
    run: &ScriptedRun,
) -> Result<Seen, Refusal>
    requires { IfSome region IsPaged }
    ensures { UnlessFull Refusal.NoMemory (Delivers (record { program = program.now; region = region; wanted = a_run run.now script.now input.items })) result }
{
    let Opened { image, names } = match open_program(alloc, program, region) {
        Ok(opened) => opened,
        Err(refusal) => return Err(refusal),
    };
    show_image(alloc, image, &names, script, input, run)
}
