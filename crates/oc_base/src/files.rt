ghost use Rattle.std.specs.Prelude.{◌≡◌, ℕ, ◌+◌, ◌<◌, ◌≤◌, List, [], ◌∷◌, length, take, Option, Some, IfOk, OnOk, OnErr, IsErrOf};
ghost use Rattle.std.specs.Option.{ForSome};
ghost use Rattle.oc_base.specs.Outside.{HasCause, HasCauseAt, Disk, gained, HasFile, IsLonger, SameElsewhere, HasNow, Asks, AsksOrFails};

use crate::fault::{Failed, TakeFault};
use std::alloc::Global;

/// Files by their names, each read or written as a whole.
pub trait Files {
    /// The contents of each file, where the files tell.
    ghost disk: { Self → Option Disk };

    /// The names of all calls so far, oldest first, where the files tell.
    ghost asked: { Self → Option (List (List ℕ)) };

    /// How often `take` has failed, unless it can't.
    ghost take_faults: { Self → Option ℕ };

    /// How often `put` has failed, unless it can't.
    ghost put_faults: { Self → Option ℕ };

    /// The bytes of a file, unless it has more than `limit`. A missing file is a failure.
    fn take(&mut self, alloc: Global, name: &str, limit: usize) -> Result<Vec<u8>, TakeFault>
        ensures bytes { IfOk result (λ bytes. HasFile (disk self.old) name.now bytes.items) }
        ensures within { IfOk result (λ bytes. length bytes.items ≤ limit) }
        ensures too_long { result ≡ Err TakeFault.TooLong → IsLonger (disk self.old) name.now limit }
        ensures kept { disk self.new ≡ disk self.old }
        ensures asked { Asks TakeFault.NoMemory (asked self.old) (asked self.new) name.now result }
        ensures cause { HasCauseAt TakeFault.Failed (take_faults self.old) (take_faults self.new) result }
        ensures puts { put_faults self.new ≡ put_faults self.old };

    /// Gives a file these bytes, in place of any that it had.
    /// After a failure nothing is known of that file.
    fn put(&mut self, name: &str, bytes: &[u8]) -> Result<(), Failed>
        ensures bytes { OnOk result (HasNow (disk self.old) (disk self.new) name.now bytes.now) }
        ensures others { SameElsewhere (disk self.old) (disk self.new) name.now }
        ensures asked { AsksOrFails (asked self.old) (asked self.new) name.now result }
        ensures cause { HasCause (put_faults self.old) (put_faults self.new) result }
        ensures takes { take_faults self.new ≡ take_faults self.old };
}
