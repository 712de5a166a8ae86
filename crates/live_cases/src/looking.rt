//! A pace that looks at the counts of a run while it goes on.

ghost use Rattle.std.specs.Prelude.{◌≡◌};

use ahead::away::Away;
use oc_base::pace::Pace;
use std::sync::{Mutex, Wait};
use watch::watch::{Counts, Pass, Watch};

/// A reader of a watch: what it has seen last, whether no look went back, and how many looks saw more real steps than the one before.
#[derive(Drop)]
pub struct Reader<'a> {
    watch: &'a Watch,
    pass: Pass,
    pub last: Counts,
    pub rises: bool,
    pub changes: u64,
    ghost own: { pass.cell ≡ watch.now },
}

impl<'a> Reader<'a> {
    pub fn of(watch: &'a Watch, pass: Pass) -> Reader<'a>
        requires { pass.cell ≡ watch.now }
    {
        let last = Counts {
            real: 0,
            done: 0,
            retired: 0,
        };
        Reader {
            watch,
            pass,
            last,
            rises: true,
            changes: 0,
        }
    }

    /// Looks once more.
    pub fn look<R: Wait>(&mut self, rt: &R) {
        let now = self.watch.look(rt, &mut self.pass);
        let last = self.last;
        if now.real < last.real || now.done < last.done || now.retired < last.retired {
            self.rises = false;
        }
        if now.real > last.real {
            self.changes = self.changes.saturating_add(1);
        }
        self.last = now;
    }
}

/// Looks before each round of a worker, and where its hart has yet to come home.
#[derive(Drop)]
pub struct Looking<'a, R: Wait> {
    rt: &'a R,
    pub reader: Mutex<Reader<'a>>,
}

impl<'a, R: Wait> Looking<'a, R> {
    pub fn of(rt: &'a R, reader: Reader<'a>) -> Looking<'a, R> {
        Looking {
            rt,
            reader: Mutex::new(reader),
        }
    }
}

impl<R: Wait> Pace<Away> for Looking<'_, R> {
    fn before(&self, _worker: u32, _round: u64) {
        self.reader.lock(self.rt).look(self.rt);
    }

    fn away(&self, _worker: u32, _round: u64, _away: &Away) {
        self.reader.lock(self.rt).look(self.rt);
    }
}
