//! What the bytes of a program and of an input deliver.

ghost use Rattle.std.specs.Prelude.{◌≡◌, [], IfOk, IfSome, option_map};
ghost use Rattle.image.specs.Picture.{IsPaged, IsKept};
ghost use Rattle.sched_log.specs.Printed.{printed};
ghost use Rattle.live_words.specs.Words.{AreInRange};
ghost use Rattle.live_threads.specs.Ran.{HasRun};
ghost use Rattle.board.specs.Boarded.{new_writer};
ghost use Rattle.run_book.specs.Told.{told};
ghost use Rattle.top_call.specs.Call.{UnlessFull};
ghost use Rattle.delivered.specs.Deliveries.{delivery_of};
ghost use Rattle.live.specs.Decision.{Lives, terms_of};
ghost use Rattle.live.specs.Lives.{HasLived};
ghost use Rattle.machine.specs.declared.outcome.Outcome.{Outcome};

use crate::life::{Life, RecordFile};
use crate::telling::tell_all;
use ahead::away::Away;
use delivered::build::build;
use delivered::deliver::deliver;
use delivered::laws::{headline_law, one_run_law};
use image::picture::Image;
use live_threads::run::{Ran, run_shown};
use live_words::words::Words;
use machine::outcome::Outcome;
use oc_base::fault::NoMemory;
use oc_base::items::Items;
use oc_base::pace::Pace;
use oc_base::text::Text;
use record_laws::laws::{plays_law, record_law};
use report::answer::Ended;
use sched_log::event::Event;
use sched_log::write::write_log;
use std::alloc::Global;
use std::sync::Wait;
use std::thread::Threads;
use watch::watch::{Pass, Watch};

// The record for the file of this name, if there is one.
fn file_of(
    alloc: Global,
    name: &Option<Text>,
    log: &[Event],
) -> Result<Option<RecordFile>, NoMemory>
    ensures { IfOk result (λ r. r ≡ option_map (λ n. record { name = n; text = printed log.now }) name.now) }
{
    let Some(name) = name else {
        return Ok(None);
    };
    let name = Text::copy_of(alloc, name.as_str())?;
    let text = write_log(alloc, log)?;
    Ok(Some(RecordFile { name, text }))
}

// What a run delivers.
fn life_of(alloc: Global, ran: Ran, said: &Words) -> Result<Life, NoMemory>
    ensures delivery { IfOk result (λ l. l.delivery ≡ delivery_of (Outcome.Limit said.now.limit) said.now.report ran.recorder.at) }
    ensures log { IfOk result (λ l. l.log ≡ told ran.recorder) }
    ensures shares { IfOk result (λ l. l.shares ≡ ran.shares) }
    ensures recorded { IfOk result (λ l. l.file ≡ option_map (λ n. record { name = n; text = printed l.log }) said.now.log_name) }
{
    let Ran {
        recorder,
        shares,
        ..
    } = ran;
    let limit = Outcome::Limit { most: said.limit };
    let delivery = deliver(alloc, recorder.world(), limit, said.report)?;
    let log = tell_all(recorder.into_log());
    let file = file_of(alloc, &said.log_name, log.as_slice())?;
    Ok(Life {
        delivery,
        log,
        shares,
        file,
    })
}

// The run of an image by threads, shown on a watch.
fn run_image<G: Pace<Away> + Sync, R: Threads + Wait + Sync>(
    rt: &R,
    alloc: Global,
    image: Image,
    input: Vec<u8>,
    said: &Words,
    pace: &G,
    watch: &Watch,
    writer: Pass,
) -> Result<Life, NoMemory>
    requires kept { IsKept image }
    requires ranges { AreInRange said.now }
    requires writer { writer ≡ new_writer watch.now }
    ensures { IfOk result (HasLived (terms_of image (record { program = []; input = input.items; said = said.now })) said.now) }
{
    plays_law();
    record_law();
    headline_law();
    one_run_law();
    let (ran, _writer) = run_shown(
        rt,
        alloc,
        image,
        input,
        said.ring,
        said.workers,
        said.every,
        said.limit,
        pace,
        watch,
        writer,
    )?;
    ran.recorder.world().kept();
    let _made = ran.recorder.world().made();
    life_of(alloc, ran, said)
}

/// Runs the program by threads, with the input, as the words say, and shows its counts on a watch.
pub fn run<G: Pace<Away> + Sync, R: Threads + Wait + Sync>(
    rt: &R,
    alloc: Global,
    program: &[u8],
    input: Vec<u8>,
    said: &Words,
    pace: &G,
    watch: &Watch,
    writer: Pass,
) -> Result<Life, Ended>
    requires pages { IfSome said.now.region IsPaged }
    requires ranges { AreInRange said.now }
    requires writer { writer ≡ new_writer watch.now }
    ensures { UnlessFull Ended.NoMemory (Lives (record { program = program.now; input = input.items; said = said.now })) result }
{
    let image = match build(alloc, program, said.region) {
        Ok(image) => image,
        Err(ended) => return Err(ended),
    };
    let Ok(life) = run_image(rt, alloc, image, input, said, pace, watch, writer) else {
        return Err(Ended::NoMemory);
    };
    Ok(life)
}
