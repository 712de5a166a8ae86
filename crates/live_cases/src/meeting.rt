//! Two threads that meet at places of their choice.

use ahead::away::Away;
use oc_base::pace::Pace;
use std::sync::atomic::{AtomicBool, Ordering};

/// A place where a thread can be held back.
#[derive(Clone, Copy, PartialEq, Eq)]
pub enum Place {
    /// Before a round of a worker.
    Before { worker: u32, round: u64 },
    /// The plan of a job has been put.
    Placed { job: u64 },
    /// A plan has been put, of whatever job.
    AnyPlaced,
    /// A worker has made steps of a hart out of the lock, and has yet to bring them home.
    Away { worker: u32, hart: u32 },
    /// The same, of whichever of its harts.
    AnyAway { worker: u32 },
}

/// Turns after which a meeting is given up.
const TURNS: u32 = 1_000_000_000;

/// Each thread that comes to one of two places says so, and waits until the other has come to its own.
#[derive(Drop)]
pub struct Meeting {
    first: Place,
    second: Place,
    first_came: AtomicBool,
    second_came: AtomicBool,
}

fn wait_for(flag: &AtomicBool) {
    for _turn in 0..TURNS {
        if flag.load(Ordering::SeqCst) {
            return;
        }
    }
}

impl Meeting {
    pub fn of(first: Place, second: Place) -> Meeting {
        Meeting {
            first,
            second,
            first_came: AtomicBool::new(false),
            second_came: AtomicBool::new(false),
        }
    }

    /// Both threads have come to their places.
    pub fn was(&self) -> bool {
        self.first_came.load(Ordering::SeqCst) && self.second_came.load(Ordering::SeqCst)
    }

    fn come(&self, place: Place) {
        if place == self.first {
            self.first_came.store(true, Ordering::SeqCst);
            wait_for(&self.second_came);
        }
        if place == self.second {
            self.second_came.store(true, Ordering::SeqCst);
            wait_for(&self.first_came);
        }
    }
}

impl Pace<Away> for Meeting {
    fn before(&self, worker: u32, round: u64) {
        self.come(Place::Before { worker, round });
    }

    fn away(&self, worker: u32, _round: u64, away: &Away) {
        if away.made() == 0 {
            return;
        }
        let hart = away.hart();
        self.come(Place::Away { worker, hart });
        self.come(Place::AnyAway { worker });
    }

    fn placed(&self, job: u64) {
        self.come(Place::Placed { job });
        self.come(Place::AnyPlaced);
    }
}
