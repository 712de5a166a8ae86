//! What the threads share.

use board::board::{Board, Watched};
use oc_base::fault::NoMemory;
use std::alloc::Global;
use std::sync::{Condvar, Mutex, MutexGuard, Wait};

/// What lies behind the lock: the book with its counts on a watch, and which workers wait to begin a visit.
#[derive(Drop)]
pub struct Desk<'a, J: Watched> {
    pub board: Board<'a, J>,
    waiting: Vec<bool>,
}

/// Whom a lock section has something new for.
#[derive(Clone, Copy)]
pub struct News {
    pub is_done: bool,
    pub has_job: bool,
    has_visit: bool,
}

/// The lock, and where threads wait: workers for a visit, the placer for a job.
#[derive(Drop)]
pub struct Shared<'a, J: Watched> {
    pub alloc: Global,
    pub desk: Mutex<Desk<'a, J>>,
    visits: Condvar,
    jobs: Condvar,
}

impl<'a, J: Watched> Desk<'a, J> {
    /// Nobody waits yet.
    pub fn of(alloc: Global, board: Board<'a, J>, workers: u32) -> Result<Desk<'a, J>, NoMemory> {
        let mut waiting = Vec::with_capacity(alloc, workers as usize)?;
        for _worker in 0..workers {
            waiting.push(false)?;
        }
        Ok(Desk { board, waiting })
    }

    /// Whether one of these workers can begin a visit, or nothing is left to do.
    fn can_serve(&self, workers: &[u32]) -> bool {
        for worker in workers {
            if self.board.book().can_begin(*worker) {
                return true;
            }
        }
        self.board.book().is_done()
    }

    /// These workers wait, or do no longer.
    fn note(&mut self, workers: &[u32], waits: bool) {
        for worker in workers {
            if let Some(it) = self.waiting.get_mut(*worker as usize) {
                *it = waits;
            }
        }
    }

    /// Whether a worker that waits can begin a visit now.
    fn has_visit(&self) -> bool {
        let mut worker = 0u32;
        for waits in &self.waiting {
            if *waits && self.board.book().can_begin(worker) {
                return true;
            }
            worker = worker.saturating_add(1);
        }
        false
    }

    /// Whom the last section has something new for.
    pub fn news(&self) -> News {
        News {
            is_done: self.board.book().is_done(),
            has_job: self.board.book().has_job(),
            has_visit: self.has_visit(),
        }
    }
}

impl<'a, J: Watched> Shared<'a, J> {
    pub fn of(alloc: Global, desk: Desk<'a, J>) -> Shared<'a, J> {
        Shared {
            alloc,
            desk: Mutex::new(desk),
            visits: Condvar::new(),
            jobs: Condvar::new(),
        }
    }

    /// The desk, once one of these workers can begin a visit, or nothing is left to do.
    pub fn await_visit<R: Wait>(&self, rt: &R, workers: &[u32]) -> MutexGuard<'_, Desk<'a, J>> {
        let mut desk = self.desk.lock(rt);
        if desk.can_serve(workers) {
            return desk;
        }
        desk.note(workers, true);
        let mut desk = self.visits.wait_while(rt, desk, |d| !d.can_serve(workers));
        desk.note(workers, false);
        desk
    }

    /// The desk, once there is a job, or nothing is left to do.
    pub fn await_job<R: Wait>(&self, rt: &R) -> MutexGuard<'_, Desk<'a, J>> {
        self.jobs.wait_while(rt, self.desk.lock(rt), |d| {
            !d.board.book().has_job() && !d.board.book().is_done()
        })
    }

    /// Wakes those who wait for what has come.
    pub fn tell(&self, news: News) {
        if news.is_done || news.has_visit {
            self.visits.notify_all();
        }
        if news.is_done || news.has_job {
            self.jobs.notify_all();
        }
    }
}
