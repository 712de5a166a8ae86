//! The board: a book, and the watch that shows its counts.

ghost use Rattle.std.specs.Prelude.{◌≡◌, ◌≢◌, ◌<◌, ◌+◌, ◌++◌, ◌∷◌, [], true, false, None, Some, IfSome, All, is_some};
ghost use Rattle.watch.specs.Shown.{seen};
ghost use Rattle.run_book.specs.Booked.{IsDone};
ghost use Rattle.run_book.specs.Told.{told, BeginsWith};
ghost use Rattle.board.specs.Boarded.{new_writer, counts_of, AreOfBeginning, IsShowing};

use ahead::away::Away;
use placer::placed::{Job, Placed};
use run_book::book::{Book, Run};
use run_book::hand::Hand;
use run_book::running::Begun;
use std::alloc::Global;
use std::marker::{Brand, Model};
use std::sync::Wait;
use watch::watch::{Counts, Pass, Watch};
use world::world::World;

/// Which watch shows a run. Each program picks it where it makes its one run.
pub trait Watched: Run {
    ghost use Rattle.atomic_table.specs.Seated.{TableId};

    ghost cell: { TableId };
}

impl Watched for Brand {
    ghost use Rattle.std.specs.Prelude.{[]};

    ghost cell = { record { words = 0; slots = 0; views_name = 0; atom = 0; block = 0; offset = 0; slot_names = [] } };
}

/// A book whose counts are on a watch: each section shows them before it ends, so they stand there whenever the lock is free.
#[derive(Drop)]
pub struct Board<'a, J: Watched> {
    book: Book<J>,
    watch: &'a Watch,
    pass: Pass,
}

impl<'a, J: Watched> Model for Board<'a, J> {
    ghost use Rattle.std.specs.Prelude.{◌≡◌};
    ghost use Rattle.std.specs.Coded.{codes};
    ghost use Rattle.guest_mem.specs.Memory.{memory_code};
    ghost use Rattle.board.specs.Boarded.{Boarded, IsShowing};

    ghost Value = { Boarded };

    ghost coded = { Prim.hlevel (codes, memory_code) };

    ghost view = { λ b. record { book = b.book; pass = b.pass } };

    ghost invariant = { λ b. (b.watch.now ≡ J.cell) × IsShowing J.cell J.terms b.book.world b.pass };
}

/// The counts of a world.
fn counts(world: &World) -> Counts
    ensures { result.real ∷ result.done ∷ result.retired ∷ [] ≡ counts_of world.now }
{
    Counts {
        real: world.real(),
        done: world.done(),
        retired: world.retired(),
    }
}

/// Shows the counts of a book's world.
fn show<J: Watched, R: Wait>(rt: &R, watch: &Watch, pass: &mut Pass, book: &Book<J>)
    requires watch { watch.now ≡ J.cell }
    requires own { pass.old.cell ≡ J.cell }
    requires writes { pass.old.writes ≡ true }
    requires each { All (AreOfBeginning J.terms (told book.now.world)) pass.old.shown }
    ensures shown { pass.new ≡ seen pass.old.cell (pass.old.shown ++ counts_of book.now.world.at ∷ []) true }
    ensures showing { IsShowing J.cell J.terms book.now.world pass.new }
{
    book.kept();
    watch.show(rt, pass, counts(book.world()));
}

impl<'a, J: Watched> Board<'a, J> {
    /// A book before its first section, with the watch that is to show it.
    pub fn new<R: Wait>(rt: &R, book: Book<J>, watch: &'a Watch, writer: Pass) -> Board<'a, J>
        requires watch { watch.now ≡ J.cell }
        requires writer { writer ≡ new_writer J.cell }
        ensures { result.book ≡ book }
    {
        let mut pass = writer;
        show(rt, watch, &mut pass, &book);
        Board { book, watch, pass }
    }

    /// The book.
    pub fn book(&self) -> &Book<J>
        ensures { result.now ≡ self.now.book }
    {
        &self.book
    }

    /// The watch shows the run so far, for a caller's proof. It does nothing.
    pub fn kept(&self)
        ensures { IsShowing J.cell J.terms self.now.book.world self.now.pass }
    {
        let _ = &self.book;
    }

    /// The lock section that begins a visit, as the book's.
    pub fn begin<R: Wait>(&mut self, rt: &R, alloc: Global, worker: u32) -> Begun
        ensures real { self.new.book.world.at.counts.real ≡ self.old.book.world.at.counts.real }
        ensures done { IsDone J.terms.limit self.old.book → self.new.book ≡ self.old.book }
        ensures grows { BeginsWith (told self.new.book.world) (told self.old.book.world) }
        ensures shown { self.new.pass ≡ seen J.cell (self.old.pass.shown ++ counts_of self.new.book.world.at ∷ []) true }
    {
        let Board { book, watch, pass } = self;
        let begun = book.begin(alloc, worker);
        show(rt, watch, pass, book);
        begun
    }

    /// The lock section that ends a visit, as the book's.
    pub fn end<R: Wait>(&mut self, rt: &R, alloc: Global, away: Away, mine: &mut Hand<J>)
        requires { 0 < mine.old.parts }
        ensures parts { mine.new.parts ≡ mine.old.parts }
        ensures made { mine.new.made + self.old.book.world.at.counts.real ≡ mine.old.made + self.new.book.world.at.counts.real }
        ensures spent { self.old.book.spent ≡ true → self.new.book ≡ self.old.book }
        ensures over { is_some self.old.book.world.at.machine.outcome ≡ true → self.new.book ≡ self.old.book }
        ensures grows { BeginsWith (told self.new.book.world) (told self.old.book.world) }
        ensures shown { self.new.pass ≡ seen J.cell (self.old.pass.shown ++ counts_of self.new.book.world.at ∷ []) true }
    {
        let Board { book, watch, pass } = self;
        book.end(alloc, away, mine);
        show(rt, watch, pass, book);
    }

    /// One lock section of a worker with a whole visit, as the book's.
    pub fn section<R: Wait>(&mut self, rt: &R, alloc: Global, worker: u32, mine: &mut Hand<J>)
        requires { 0 < mine.old.parts }
        ensures parts { mine.new.parts ≡ mine.old.parts }
        ensures made { mine.new.made + self.old.book.world.at.counts.real ≡ mine.old.made + self.new.book.world.at.counts.real }
        ensures done { IsDone J.terms.limit self.old.book → self.new.book ≡ self.old.book }
        ensures grows { BeginsWith (told self.new.book.world) (told self.old.book.world) }
        ensures shown { self.new.pass ≡ seen J.cell (self.old.pass.shown ++ counts_of self.new.book.world.at ∷ []) true }
    {
        let Board { book, watch, pass } = self;
        book.section(alloc, worker, mine);
        show(rt, watch, pass, book);
    }

    /// The last snapshot, for a placer, as the book's.
    pub fn take_job(&mut self, alloc: Global) -> Option<Job>
        ensures job { IfSome result (λ j. (j.number ≡ self.old.book.number) × (j.profile ≡ self.old.book.world.at.snapshot)) }
        ensures none { self.old.book.has_job ≡ false → result ≡ None }
        ensures taken { self.new ≡ record self.old { book = record self.old.book { has_job = false } } }
    {
        self.book.take_job(alloc)
    }

    /// Puts a plan where the next lock section finds it, as the book's.
    pub fn put_plan(&mut self, plan: Placed<J>)
        ensures kept { plan.job.number ≡ self.old.book.number → self.new ≡ record self.old { book = record self.old.book { plan = Some plan } } }
        ensures dropped { plan.job.number ≢ self.old.book.number → self.new ≡ self.old }
        ensures world { self.new.book.world ≡ self.old.book.world }
    {
        self.book.put_plan(plan);
    }

    /// Takes another's hand in.
    pub fn merge(&mut self, mine: &mut Hand<J>, other: Hand<J>)
        ensures parts { mine.new.parts ≡ mine.old.parts + other.parts }
        ensures made { mine.new.made ≡ mine.old.made + other.made }
        ensures same { self.new ≡ self.old }
    {
        self.book.merge(mine, other);
    }

    /// The book, and the writer's pass.
    pub fn into_parts(self) -> (Book<J>, Pass)
        ensures book { result.0 ≡ self.entry.book }
        ensures pass { result.1 ≡ self.entry.pass }
    {
        let Board { book, pass, .. } = self;
        (book, pass)
    }
}
