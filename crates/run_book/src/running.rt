//! The run that a book keeps, and its lock sections.

ghost use Rattle.std.specs.Prelude.{◌≡◌, ◌<◌, ◌≤◌, ◌+◌, ℕ, [], true, false, None, IfOk, IfSome, is_some, length, replicate};
ghost use Rattle.world.specs.Worlds.{started};
ghost use Rattle.recorder.specs.Recording.{HasNoEvents};
ghost use Rattle.stop_gate.specs.Gates.{is_away};
ghost use Rattle.run_book.specs.Booked.{IsBook, IsVisited, NoneOut, MayServe, Ends, HasEnded};
ghost use Rattle.run_book.specs.Sections.{FitsNow, GoesOn};
ghost use Rattle.run_book.specs.Terms.{Terms, AreFair};

use crate::ended::Ended;
use crate::next::{has_out, next};
use crate::settle::{Settled, catch_up, settle};
use crate::turn::turn;
use ahead::away::Away;
use oc_base::fault::NoMemory;
use plans::plan::Plan;
use recorder::fault::AwayFault;
use recorder::recorder::Recorder;
use std::alloc::Global;
use world::world::World;

/// What a lock section that begins a visit did.
#[derive(Drop)]
pub enum Begun {
    /// A hart has left.
    Left(Away),
    /// A stop is wanted: no visit begins until the attempt has been made.
    Held,
    /// None of the worker's harts is live, one of them is away, or nothing is left to do.
    Nothing,
}

/// With so many entries in the log no visit begins.
const ENTRY_LIMIT: usize = 16_000_000;

/// A run: its world and log, how many workers serve it, how often a snapshot is due, and where it ends; and the hart that each worker
/// served last, whether it is out of memory, how many snapshots were taken, and whether no placer has taken the last one yet.
#[derive(Drop)]
pub struct Running {
    pub recorder: Recorder,
    pub workers: u32,
    pub every: u64,
    pub limit: u64,
    pub last: Vec<Option<u32>>,
    pub spent: bool,
    pub number: u64,
    pub has_job: bool,
    pub strangers: u64,
}

/// No hart served, for each of so many workers.
fn none_served(alloc: Global, workers: u32) -> Result<Vec<Option<u32>>, NoMemory>
    ensures { IfOk result (λ v. v.items ≡ replicate workers None) }
{
    let mut last = Vec::with_capacity(alloc, workers as usize)?;
    for _worker in 0..workers {
        last.push(None)?;
    }
    Ok(last)
}

impl Running {
    /// A run whose first visit hasn't begun.
    pub fn open(
        alloc: Global,
        world: World,
        workers: u32,
        every: u64,
        limit: u64,
    ) -> Result<Running, NoMemory>
        requires { HasNoEvents world }
        ensures begins { IfOk result (λ r. r.spent ≡ false) }
        ensures book { IfOk result (λ r. (t : Terms) → AreFair t → t.begins ≡ [] → world ≡ started t.image t.ring t.input → workers ≡ t.workers → every ≡ t.every → limit ≡ t.limit → IsBook t 0 r) }
    {
        world.kept();
        let last = none_served(alloc, workers)?;
        let recorder = Recorder::keep_log(alloc, world)?;
        Ok(Running {
            recorder,
            workers,
            every,
            limit,
            last,
            spent: false,
            number: 0,
            has_job: false,
            strangers: 0,
        })
    }

    /// How the run has ended, unless it goes on. Out of memory isn't told here.
    pub fn ended(&self) -> Option<Ended>
        ensures some { IfSome result (Ends self.now.limit self.now.recorder) }
        ensures none { result ≡ None → GoesOn self.now.limit self.now.recorder }
    {
        let world = self.recorder.world();
        if let Some(outcome) = world.outcome() {
            return Some(Ended::Outcome(outcome));
        }
        if world.real() >= self.limit {
            return Some(Ended::Limit);
        }
        if self.recorder.log().len() >= ENTRY_LIMIT {
            return Some(Ended::Limit);
        }
        None
    }

    /// Nothing is left to do.
    pub fn is_done(&self) -> bool
        ensures spent { result ≡ false → self.now.spent ≡ false }
        ensures goes_on { result ≡ false → GoesOn self.now.limit self.now.recorder }
        ensures done { result ≡ true → HasEnded self.now }
    {
        if self.spent {
            return true;
        }
        match self.ended() {
            Some(_) => true,
            None => false,
        }
    }

    /// The hart that a worker serves next, if one of its harts is live.
    pub fn next(&self, worker: u32) -> Option<u32>
        ensures { IfSome result (λ h. MayServe worker h self.now) }
    {
        if worker >= self.workers {
            return None;
        }
        let Some(served) = self.last.get(worker as usize) else {
            return None;
        };
        next(self.recorder.world(), self.workers, worker, *served)
    }

    /// Makes the attempt that is due before a visit. Where a hart is away, a stop is wanted instead.
    fn catch_up(&mut self, alloc: Global, plan: Option<&Plan>)
        requires goes_on { is_some self.old.recorder.at.machine.outcome ≡ false }
        requires spent { self.old.spent ≡ false }
        requires fits { IfSome plan (λ m. FitsNow m.now self.old.recorder) }
        ensures { (t : Terms) (total : ℕ) → IsBook t total self.old → IsBook t total self.new }
    {
        match catch_up(&mut self.recorder, alloc, self.every, plan) {
            Ok(()) => {}
            Err(NoMemory) => self.spent = true,
        }
    }

    /// The visit of hart `h` by a worker, under the lock. It says how many real steps were made.
    fn visit(&mut self, worker: u32, h: u32) -> u64
        requires goes_on { GoesOn self.old.limit self.old.recorder }
        requires spent { self.old.spent ≡ false }
        requires calm { self.old.recorder.gate.wanted ≡ false }
        requires none { NoneOut self.old.workers worker self.old.recorder.gate }
        requires serves { MayServe worker h self.old }
        ensures { (t : Terms) (total : ℕ) → IsBook t total self.old → IsVisited t (total + result) self.new }
    {
        self.recorder.kept();
        let turned = turn(&mut self.recorder, h, 0);
        self.last[worker as usize] = Some(h);
        self.spent = !turned.whole;
        turned.made
    }

    /// The last snapshot is new to the placer.
    fn hand_out(&mut self)
        ensures { (t : Terms) (total : ℕ) → IsBook t total self.old → IsBook t total self.new }
    {
        self.number = self.number.saturating_add(1);
        self.has_job = true;
    }

    /// Does what is due after a visit.
    pub fn settle(&mut self, alloc: Global, plan: Option<&Plan>)
        requires { IfSome plan (λ m. FitsNow m.now self.old.recorder) }
        ensures { (t : Terms) (total : ℕ) → IsVisited t total self.old → IsBook t total self.new }
    {
        match settle(&mut self.recorder, alloc, self.every, plan) {
            Ok(Settled::Snapped) => self.hand_out(),
            Ok(_) => {}
            Err(NoMemory) => self.spent = true,
        }
    }

    /// The hart that a worker serves next, if a visit may begin: one of its harts is live, none is away, and no stop is wanted.
    pub fn may_begin(&self, worker: u32) -> Option<u32>
        ensures serves { IfSome result (λ h. MayServe worker h self.now) }
        ensures none { IfSome result (λ h. NoneOut self.now.workers worker self.now.recorder.gate) }
        ensures calm { IfSome result (λ h. self.now.recorder.gate.wanted ≡ false) }
    {
        if self.recorder.wanted() || worker >= self.workers {
            return None;
        }
        if has_out(&self.recorder, self.workers, worker) {
            return None;
        }
        self.next(worker)
    }

    /// The visit of a worker's next hart under the lock, if one may begin. It says how many real steps were made.
    fn serve(&mut self, alloc: Global, worker: u32) -> u64
        requires goes_on { GoesOn self.old.limit self.old.recorder }
        requires spent { self.old.spent ≡ false }
        ensures { (t : Terms) (total : ℕ) → IsBook t total self.old → IsBook t (total + result) self.new }
    {
        match self.may_begin(worker) {
            Some(h) => {
                let made = self.visit(worker, h);
                self.settle(alloc, None);
                made
            }
            None => 0,
        }
    }

    /// One lock section of a worker with a whole visit: the attempt that is due, the visit, and what is due after it. It says how many real
    /// steps were made.
    pub fn section(&mut self, alloc: Global, worker: u32, plan: Option<&Plan>) -> u64
        requires fits { IfSome plan (λ m. FitsNow m.now self.old.recorder) }
        ensures { (t : Terms) (total : ℕ) → IsBook t total self.old → IsBook t (total + result) self.new }
    {
        if self.is_done() {
            return 0;
        }
        self.catch_up(alloc, plan);
        if self.is_done() {
            return 0;
        }
        self.serve(alloc, worker)
    }

    /// Lets a hart go.
    fn leave(&mut self, worker: u32, h: u32) -> Begun
        requires goes_on { GoesOn self.old.limit self.old.recorder }
        requires spent { self.old.spent ≡ false }
        requires calm { self.old.recorder.gate.wanted ≡ false }
        requires none { NoneOut self.old.workers worker self.old.recorder.gate }
        requires serves { MayServe worker h self.old }
        ensures { (t : Terms) (total : ℕ) → IsBook t total self.old → IsBook t total self.new }
    {
        self.recorder.kept();
        match self.recorder.take_away(h) {
            Ok(away) => Begun::Left(away),
            Err(AwayFault::NoMemory) => {
                self.spent = true;
                Begun::Nothing
            }
            Err(_) => Begun::Nothing,
        }
    }

    /// The lock section that begins a visit: the attempt that is due, and then a hart leaves.
    pub fn begin(&mut self, alloc: Global, worker: u32, plan: Option<&Plan>) -> Begun
        requires fits { IfSome plan (λ m. FitsNow m.now self.old.recorder) }
        ensures { (t : Terms) (total : ℕ) → IsBook t total self.old → IsBook t total self.new }
    {
        if self.is_done() {
            return Begun::Nothing;
        }
        self.catch_up(alloc, plan);
        if self.is_done() {
            return Begun::Nothing;
        }
        if self.recorder.wanted() {
            return Begun::Held;
        }
        match self.may_begin(worker) {
            Some(h) => self.leave(worker, h),
            None => Begun::Nothing,
        }
    }

    /// A hart came home as a stranger.
    pub fn count_stranger(&mut self)
        ensures { (t : Terms) (total : ℕ) → IsBook t total self.old → IsBook t total self.new }
    {
        self.strangers = self.strangers.saturating_add(1);
    }

    /// Brings a hart home and makes the rest of its visit. It says how many real steps the visit has.
    pub fn land(&mut self, away: Away) -> u64
        requires spent { self.old.spent ≡ false }
        requires goes_on { is_some self.old.recorder.at.machine.outcome ≡ false }
        requires away { is_away self.old.recorder.gate away.hart ≡ true }
        requires some { 0 < self.old.workers }
        requires many { self.old.workers ≤ length self.old.last.items }
        ensures { (t : Terms) (total : ℕ) → IsBook t total self.old → IsVisited t (total + result) self.new }
    {
        let _harts = self.recorder.world().made();
        let h = away.hart();
        let made = away.made() as u64;
        match self.recorder.home(away) {
            Ok(()) => {
                let turned = turn(&mut self.recorder, h, made);
                self.last[(h % self.workers) as usize] = Some(h);
                self.spent = !turned.whole;
                turned.made
            }
            Err(_) => {
                self.strangers = self.strangers.saturating_add(1);
                0
            }
        }
    }
}
