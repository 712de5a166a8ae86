//! A run of threads.

ghost use Rattle.std.specs.Prelude.{◌≡◌, IfOk};
ghost use Rattle.run_book.specs.Terms.{AreFair};
ghost use Rattle.board.specs.Boarded.{IsShowing, new_writer};
ghost use Rattle.live_threads.specs.Ran.{HasRun, terms_of};

use crate::crew::run_crew;
use crate::desk::{Desk, Shared};
use crate::ending::close;
use crate::placing::Chart;
use ahead::away::Away;
use board::board::{Board, Watched};
use image::picture::Image;
use oc_base::fault::NoMemory;
use oc_base::pace::Pace;
use recorder::recorder::Recorder;
use run_book::book::{Book, Run};
use run_book::ended::Ended;
use run_book::hand::Hand;
use std::alloc::Global;
use std::marker::Brand;
use std::sync::ledger::Blank;
use std::sync::{Wait, ledger};
use std::thread::Threads;
use watch::watch::{Pass, Watch};
use world::world::World;

/// What a run of threads gives: its world with the log, why it has ended, how many real steps its threads counted, and how many harts came
/// home as strangers.
#[derive(Drop)]
pub struct Ran {
    pub recorder: Recorder,
    pub ended: Ended,
    pub shares: u64,
    pub strangers: u64,
}

/// The numbers of a run.
#[derive(Clone, Copy)]
struct Settings {
    ring: u32,
    workers: u32,
    every: u64,
    limit: u64,
}

/// The book of a run before its first step.
fn opened<J: Run>(
    alloc: Global,
    image: Image,
    input: Vec<u8>,
    settings: Settings,
    total: ledger::Book<J>,
) -> Result<Book<J>, NoMemory>
    requires fair { AreFair J.terms }
    requires terms { J.terms ≡ terms_of image input.items settings.ring settings.workers settings.every settings.limit }
    requires named { J.image ≡ image }
    requires total { total.total ≡ 0 }
{
    let world = World::start(alloc, image, input, settings.ring)?;
    let book = Book::<J>::open(
        alloc,
        world,
        settings.workers,
        settings.every,
        settings.limit,
        total,
    )?;
    Ok(book)
}

/// Runs the threads over a book, and ends the run.
fn run_board<J: Watched + Send + Sync, G: Pace<Away> + Sync, R: Threads + Wait + Sync>(
    rt: &R,
    alloc: Global,
    board: Board<'_, J>,
    chart: &Chart<J>,
    workers: u32,
    pace: &G,
    all: Hand<J>,
) -> Result<(Ran, Pass), NoMemory>
    requires fair { AreFair J.terms }
    requires workers { workers ≡ J.terms.workers }
    requires parts { (all.parts ≡ J.parts) × (J.parts ≡ workers) }
    ensures run { IfOk result (λ r. HasRun J.terms r.0) }
    ensures shown { IfOk result (λ r. IsShowing J.cell J.terms r.0.recorder r.1) }
{
    let shared = Shared::of(alloc, Desk::of(alloc, board, workers)?);
    let all = run_crew(rt, &shared, pace, chart, workers, all)?;
    let Shared { desk, .. } = shared;
    let Desk { board, .. } = desk.into_inner();
    close(rt, alloc, board, workers, all)
}

/// A run that `J` names.
fn run_named<J: Watched + Send + Sync, G: Pace<Away> + Sync, R: Threads + Wait + Sync>(
    rt: &R,
    alloc: Global,
    blank: Blank,
    image: Image,
    input: Vec<u8>,
    settings: Settings,
    pace: &G,
    watch: &Watch,
    writer: Pass,
) -> Result<(Ran, Pass), NoMemory>
    requires fair { AreFair J.terms }
    requires terms { J.terms ≡ terms_of image input.items settings.ring settings.workers settings.every settings.limit }
    requires named { J.image ≡ image }
    requires ledger { (blank.name ≡ J.name) × (blank.parts ≡ J.parts) × (blank.parts ≡ settings.workers) }
    requires watch { watch.now ≡ J.cell }
    requires writer { writer ≡ new_writer J.cell }
    ensures run { IfOk result (λ r. HasRun J.terms r.0) }
    ensures shown { IfOk result (λ r. IsShowing J.cell J.terms r.0.recorder r.1) }
{
    let chart = Chart::<J>::of(image.copy(alloc)?);
    let (total, share) = blank.open::<J>();
    let book = opened::<J>(alloc, image, input, settings, total)?;
    let board = Board::new(rt, book, watch, writer);
    run_board(
        rt,
        alloc,
        board,
        &chart,
        settings.workers,
        pace,
        Hand::of(share),
    )
}

/// Runs a program as `run_threads` does, and shows its counts on a watch meanwhile: each section under the lock shows those of the world at
/// its end. So whoever has a reader's pass may look while the run goes on. `writer` is the writer's pass of the watch, on which nothing
/// was shown yet; it comes back with the run.
pub fn run_shown<G: Pace<Away> + Sync, R: Threads + Wait + Sync>(
    rt: &R,
    alloc: Global,
    image: Image,
    input: Vec<u8>,
    ring: u32,
    workers: u32,
    every: u64,
    limit: u64,
    pace: &G,
    watch: &Watch,
    writer: Pass,
) -> Result<(Ran, Pass), NoMemory>
    requires fair { AreFair (terms_of image input.items ring workers every limit) }
    requires writer { writer ≡ new_writer watch.now }
    ensures run { IfOk result (λ r. HasRun (terms_of image input.items ring workers every limit) r.0) }
    ensures shown { IfOk result (λ r. IsShowing watch.now (terms_of image input.items ring workers every limit) r.0.recorder r.1) }
{
    let settings = Settings {
        ring,
        workers,
        every,
        limit,
    };
    run_named::<Brand, G, R>(
        rt,
        alloc,
        Blank::new(workers as u64),
        image,
        input,
        settings,
        pace,
        watch,
        writer,
    )
}

/// Runs a program on its input by `workers` worker threads, of which worker w serves the harts w, w + workers and so on, visit by visit,
/// and a placer thread that works the plans of snapshots out. A snapshot is due each `every` real steps, and the run ends with an outcome,
/// or at the limit of real steps or of entries of the log. Of each hart the last `ring` transfers are kept for the snapshots.
///
/// `pace.before` is called before each round of a worker, which makes at most one visit, `pace.away` where the steps of a visit out of the lock
/// were made and the hart has yet to come home, and `pace.placed` after a plan was put where the workers find it; no lock is held then. Where a thread can't be started, the calling thread makes its worker's rounds, or there is no
/// placer: then each attempt is made where it is overdue.
pub fn run_threads<G: Pace<Away> + Sync, R: Threads + Wait + Sync>(
    rt: &R,
    alloc: Global,
    image: Image,
    input: Vec<u8>,
    ring: u32,
    workers: u32,
    every: u64,
    limit: u64,
    pace: &G,
) -> Result<Ran, NoMemory>
    requires fair { AreFair (terms_of image input.items ring workers every limit) }
    ensures { IfOk result (HasRun (terms_of image input.items ring workers every limit)) }
{
    let (watch, writer) = Watch::new(alloc)?;
    let (ran, _writer) = run_shown(
        rt, alloc, image, input, ring, workers, every, limit, pace, &watch, writer,
    )?;
    Ok(ran)
}
