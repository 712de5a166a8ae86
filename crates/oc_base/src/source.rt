ghost use Rattle.std.specs.Prelude.{◌≡◌, ℕ, ◌+◌, ◌<◌, ◌≤◌, List, [], length, take, Option, IfOk, OnOk, OnErr, IsErrOf};
ghost use Rattle.std.specs.Option.{ForSome};
ghost use Rattle.oc_base.specs.Outside.{HasCause, HasCauseAt, LostPart, dropped};

use crate::fault::{Failed, TakeFault};
use std::alloc::Global;

/// A device that bytes come from.
pub trait Source {
    /// The bytes that are left, where the source tells.
    ghost left: { Self → Option (List ℕ) };

    /// How often it was read, where it counts.
    ghost reads: { Self → ℕ };

    /// How often a read has failed, unless none can.
    ghost faults: { Self → Option ℕ };

    /// Moves some first bytes of what is left to the front of `into`, and answers how many.
    /// Zero means that nothing is left.
    fn read(&mut self, into: &mut [u8]) -> Result<usize, Failed>
        requires { 0 < length into.old }
        ensures room { IfOk result (λ n. n ≤ length into.old) }
        ensures bytes { IfOk result (λ n. ForSome (left self.old) (λ bytes. take n into.new ≡ take n bytes)) }
        ensures end { IfOk result (λ n. n ≡ 0 → ForSome (left self.old) (λ bytes. bytes ≡ [])) }
        ensures left { IfOk result (λ n. left self.new ≡ dropped n (left self.old)) }
        ensures kept { OnErr result (left self.new ≡ left self.old) }
        ensures turn { reads self.new ≤ reads self.old + 1 }
        ensures cause { HasCause (faults self.old) (faults self.new) result };
}

/// Reads a source to its end, unless more than `limit` bytes come.
///
/// It makes at most `limit + 2` reads. After a fault the source has lost a first part of its bytes.
pub fn read_all<S: Source>(
    alloc: Global,
    source: &mut S,
    limit: usize,
) -> Result<Vec<u8>, TakeFault>
    ensures bytes { IfOk result (λ all. ForSome (S.left source.old) (λ bytes. all.items ≡ bytes)) }
    ensures within { IfOk result (λ all. length all.items ≤ limit) }
    ensures too_long { result ≡ Err TakeFault.TooLong → ForSome (S.left source.old) (λ bytes. limit < length bytes) }
    ensures rest { LostPart (S.left source.old) (S.left source.new) }
    ensures end { OnOk result (ForSome (S.left source.new) (λ left. left ≡ [])) }
    ensures reads { S.reads source.new ≤ S.reads source.old + limit + 2 }
    ensures cause { HasCauseAt TakeFault.Failed (S.faults source.old) (S.faults source.new) result }
{
    let mut all = Vec::new(alloc);
    let mut buffer = [0u8; 4096];
    loop {
        let Ok(count) = source.read(&mut buffer) else {
            return Err(TakeFault::Failed);
        };
        if count == 0 {
            return Ok(all);
        }
        if count > limit - all.len() {
            return Err(TakeFault::TooLong);
        }
        let Ok(()) = all.extend_from_slice(&buffer[..count]) else {
            return Err(TakeFault::NoMemory);
        };
    }
}
