//! The book behind the lock, whose world is the run of its own log.

ghost use Rattle.std.specs.Prelude.{◌≡◌, ◌≢◌, ◌<◌, ◌≤◌, ◌+◌, ◌*◌, [], true, false, None, Some, IfSome, IfOk, is_some, length};
ghost use Rattle.world.specs.Worlds.{started};
ghost use Rattle.pacing.specs.Clocks.{reals};
ghost use Rattle.pacing.specs.Limits.{visit_limit, entry_limit, visit_entries};
ghost use Rattle.pacing.specs.Pacing.{Paced};
ghost use Rattle.pacing.specs.Serving.{Served};
ghost use Rattle.run_book.specs.Booked.{IsBook, Ends, IsDone, HasLive};
ghost use Rattle.run_book.specs.Sections.{FitsNow, IsRunOf, GoesOn};
ghost use Rattle.run_book.specs.Terms.{AreFair, start_in};
ghost use Rattle.run_book.specs.Told.{told, BeginsWith};

use crate::ended::Ended;
use crate::hand::Hand;
use crate::running::{Begun, Running};
use ahead::away::Away;
use branch_ring::profile::Profile;
use oc_base::fault::NoMemory;
use placer::placed::{Job, Named, Placed};
use plans::plan::Plan;
use recorder::marks::Due;
use recorder::recorder::Recorder;
use std::alloc::Global;
use std::marker::{Brand, Model};
use std::sync::ledger;
use std::sync::ledger::Ledger;
use world::world::World;

/// Which run it is. Each program picks it where it makes its one run.
pub trait Run: Ledger + Named {
    ghost use Rattle.run_book.specs.Terms.{Terms};

    ghost terms: { Terms };
}

impl Run for Brand {
    ghost use Rattle.std.specs.Prelude.{[]};

    ghost terms = { record { image = record { texts = []; parts = []; entry = 0; region = record { from = 0; to = 0 }; funcs = []; sites = []; pairs = []; slots = []; headers = (0, 0) }; input = []; ring = 1; workers = 1; every = 1; limit = 1; begins = [] } };
}

/// The book behind the lock: the run so far, and the plan that has come from the placer. Its ledger counts the real steps.
#[derive(Drop)]
pub struct Book<J: Run> {
    run: Running,
    plan: Option<Placed<J>>,
    total: ledger::Book<J>,
}

impl<J: Run> Model for Book<J> {
    ghost use Rattle.std.specs.Prelude.{◌≡◌};
    ghost use Rattle.std.specs.Coded.{codes};
    ghost use Rattle.guest_mem.specs.Memory.{memory_code};
    ghost use Rattle.run_book.specs.Booked.{Booked, IsBook};

    ghost Value = { Booked };

    ghost coded = { Prim.hlevel (codes, memory_code) };

    ghost view = { λ b. record { world = b.run.recorder; spent = b.run.spent; number = b.run.number; has_job = b.run.has_job; plan = b.plan; strangers = b.run.strangers } };

    ghost invariant = { λ b. IsBook J.terms b.total.total b.run × (J.image ≡ J.terms.image) };
}

/// Whether two profiles have the same rows.
fn same_rows(one: &[(u64, u64, u64)], other: &[(u64, u64, u64)]) -> bool
    ensures { result ≡ true → one.now ≡ other.now }
{
    one == other
}

/// Whether two profiles are equal.
fn is_same(one: &Profile, other: &Profile) -> bool
    ensures { result ≡ true → one.now ≡ other.now }
{
    same_rows(one.counts(), other.counts())
}

/// Whether the last snapshot waits for its attempt.
fn is_pending(recorder: &Recorder, every: u64) -> bool
    ensures { result ≡ true → recorder.now.marks.pending ≡ true }
{
    matches!(recorder.due(every), Due::Pending | Due::Overdue)
}

/// The plan that has come, where it is the one of the pending snapshot.
fn plan_now<'a, J: Run>(
    recorder: &Recorder,
    every: u64,
    number: u64,
    plan: &'a Option<Placed<J>>,
) -> Option<&'a Plan>
    requires { recorder.now.at.image ≡ J.image }
    ensures { IfSome result (λ m. FitsNow m.now recorder.now) }
{
    let placed = plan.as_ref()?;
    if !is_pending(recorder, every) {
        return None;
    }
    if placed.job().number != number
        || !is_same(&placed.job().profile, recorder.world().snapshot())
    {
        return None;
    }
    Some(placed.plan())
}

impl<J: Run> Book<J> {
    /// The book of a run whose first step hasn't been made.
    pub fn open(
        alloc: Global,
        world: World,
        workers: u32,
        every: u64,
        limit: u64,
        total: ledger::Book<J>,
    ) -> Result<Book<J>, NoMemory>
        requires fair { AreFair J.terms }
        requires image { J.image ≡ J.terms.image }
        requires whole { J.terms.begins ≡ [] }
        requires world { world ≡ started J.terms.image J.terms.ring J.terms.input }
        requires workers { workers ≡ J.terms.workers }
        requires every { every ≡ J.terms.every }
        requires limit { limit ≡ J.terms.limit }
        requires total { total.total ≡ 0 }
        ensures { IfOk result (λ b. b.spent ≡ false) }
    {
        let run = Running::open(alloc, world, workers, every, limit)?;
        Ok(Book {
            run,
            plan: None,
            total,
        })
    }

    /// The world so far.
    pub fn world(&self) -> &World
        ensures { result.now ≡ self.now.world.at }
    {
        self.run.recorder.world()
    }

    /// The book's run is one by its terms, for a caller's proof. It does nothing.
    pub fn kept(&self)
        ensures { IsRunOf J.terms self.now.world }
    {
        let _ = &self.run;
    }

    /// Nothing is left to do.
    pub fn is_done(&self) -> bool
        ensures done { result ≡ true → IsDone J.terms.limit self.now }
        ensures spent { result ≡ false → self.now.spent ≡ false }
        ensures goes_on { result ≡ false → GoesOn J.terms.limit self.now.world }
    {
        self.run.is_done()
    }

    /// Whether being out of memory has ended the run.
    pub fn is_spent(&self) -> bool
        ensures { result ≡ self.now.spent }
    {
        self.run.spent
    }

    /// How the run has ended, unless it goes on. Out of memory isn't told here.
    pub fn ended(&self) -> Option<Ended>
        ensures some { IfSome result (Ends J.terms.limit self.now.world) }
        ensures none { result ≡ None → GoesOn J.terms.limit self.now.world }
    {
        self.run.ended()
    }

    /// Whether one of a worker's harts is live.
    pub fn has_next(&self, worker: u32) -> bool
        ensures { result ≡ true → HasLive J.terms.workers worker self.now.world.at.machine }
    {
        self.run.next(worker).is_some()
    }

    /// Whether a visit of a worker may begin now: one of its harts is live, none is away, no stop is wanted, and something is left to do. An
    /// attempt that is due is made before.
    pub fn can_begin(&self, worker: u32) -> bool
        ensures live { result ≡ true → HasLive J.terms.workers worker self.now.world.at.machine }
        ensures calm { result ≡ true → self.now.world.gate.wanted ≡ false }
    {
        !self.run.is_done() && self.run.may_begin(worker).is_some()
    }

    /// How many harts came home as strangers, at most 2^64 - 1. In a run without faults none does.
    pub fn strangers(&self) -> u64
        ensures { result ≡ self.now.strangers }
    {
        self.run.strangers
    }

    /// The lock section that begins a visit: the attempt of the pending snapshot, where its plan has come or it is overdue, and then the
    /// worker's next hart leaves. While another hart is away, no attempt is made: a stop is wanted until one is, and no hart leaves.
    pub fn begin(&mut self, alloc: Global, worker: u32) -> Begun
        ensures real { self.new.world.at.counts.real ≡ self.old.world.at.counts.real }
        ensures done { IsDone J.terms.limit self.old → self.new ≡ self.old }
        ensures grows { BeginsWith (told self.new.world) (told self.old.world) }
    {
        if self.run.is_done() {
            return Begun::Nothing;
        }
        let Book { run, plan, .. } = self;
        let plan = plan_now(&run.recorder, run.every, run.number, plan);
        run.begin(alloc, worker, plan)
    }

    /// The lock section that ends a visit: the hart comes home, the rest of its visit is made, and then what is due. A stranger brings
    /// nothing. Out of memory, and where the run has an outcome, the hart is given up.
    pub fn end(&mut self, alloc: Global, away: Away, mine: &mut Hand<J>)
        requires { 0 < mine.old.parts }
        ensures parts { mine.new.parts ≡ mine.old.parts }
        ensures made { mine.new.made + self.old.world.at.counts.real ≡ mine.old.made + self.new.world.at.counts.real }
        ensures spent { self.old.spent ≡ true → self.new ≡ self.old }
        ensures over { is_some self.old.world.at.machine.outcome ≡ true → self.new ≡ self.old }
        ensures grows { BeginsWith (told self.new.world) (told self.old.world) }
    {
        if self.run.spent || self.run.recorder.world().outcome().is_some() {
            return;
        }
        if !self.run.recorder.is_away(away.hart()) {
            self.run.count_stranger();
            return;
        }
        let Book {
            run,
            plan,
            total,
            ..
        } = self;
        let made = run.land(away);
        let plan = plan_now(&run.recorder, run.every, run.number, plan);
        run.settle(alloc, plan);
        let _real = run.recorder.world().real();
        mine.count(total, made);
    }

    /// One lock section of a worker with a whole visit: the attempt of the pending snapshot, where its plan has come or it is overdue, a
    /// visit, and what is due after it.
    pub fn section(&mut self, alloc: Global, worker: u32, mine: &mut Hand<J>)
        requires { 0 < mine.old.parts }
        ensures parts { mine.new.parts ≡ mine.old.parts }
        ensures made { mine.new.made + self.old.world.at.counts.real ≡ mine.old.made + self.new.world.at.counts.real }
        ensures done { IsDone J.terms.limit self.old → self.new ≡ self.old }
        ensures grows { BeginsWith (told self.new.world) (told self.old.world) }
    {
        if self.run.is_done() {
            return;
        }
        let Book {
            run,
            plan,
            total,
            ..
        } = self;
        let plan = plan_now(&run.recorder, run.every, run.number, plan);
        let made = run.section(alloc, worker, plan);
        let _real = run.recorder.world().real();
        mine.count(total, made);
    }

    /// Whether no placer has taken the last snapshot yet.
    pub fn has_job(&self) -> bool
        ensures { result ≡ self.now.has_job }
    {
        self.run.has_job
    }

    /// The last snapshot, for a placer, unless one has taken it. Out of memory none does: its attempt is made where it is overdue.
    pub fn take_job(&mut self, alloc: Global) -> Option<Job>
        ensures job { IfSome result (λ j. (j.number ≡ self.old.number) × (j.profile ≡ self.old.world.at.snapshot)) }
        ensures none { self.old.has_job ≡ false → result ≡ None }
        ensures taken { self.new ≡ record self.old { has_job = false } }
    {
        if !self.run.has_job {
            return None;
        }
        self.run.has_job = false;
        let number = self.run.number;
        let profile = self.run.recorder.world().snapshot().copy(alloc).ok()?;
        Some(Job { number, profile })
    }

    /// Puts a plan where the next lock section finds it, unless it is of an earlier snapshot.
    pub fn put_plan(&mut self, plan: Placed<J>)
        ensures kept { plan.job.number ≡ self.old.number → self.new ≡ record self.old { plan = Some plan } }
        ensures dropped { plan.job.number ≢ self.old.number → self.new ≡ self.old }
        ensures world { self.new.world ≡ self.old.world }
    {
        if plan.job().number == self.run.number {
            self.plan = Some(plan);
        }
    }

    /// Takes another's hand in.
    pub fn merge(&mut self, mine: &mut Hand<J>, other: Hand<J>)
        ensures parts { mine.new.parts ≡ mine.old.parts + other.parts }
        ensures made { mine.new.made ≡ mine.old.made + other.made }
        ensures same { self.new ≡ self.old }
    {
        let real = self.run.recorder.world().real();
        mine.add_up(&mut self.total, real, other);
    }

    /// The run, and its log. The hand that holds the whole ledger has counted each real step.
    pub fn close(self, all: &mut Hand<J>) -> Recorder
        requires { all.old.parts ≡ J.parts }
        ensures world { result ≡ self.world }
        ensures run { IsRunOf J.terms result }
        ensures sum { all.new.made ≡ result.at.counts.real }
        ensures same { all.new ≡ all.old }
        ensures paced { self.spent ≡ false → Paced J.terms.image (start_in J.terms) J.terms.every (told result) }
        ensures served { self.spent ≡ false → Served J.terms.image (start_in J.terms) J.terms.workers (told result) }
        ensures entries { self.spent ≡ false → length (told result) ≤ entry_limit + 1 + visit_entries * length result.at.machine.harts }
        ensures steps { reals (told result) < J.terms.limit + visit_limit * length result.at.machine.harts }
    {
        let Book { run, mut total, .. } = self;
        all.audit(&mut total);
        let Running { recorder, .. } = run;
        recorder
    }
}
