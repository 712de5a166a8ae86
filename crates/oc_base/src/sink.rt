ghost use Rattle.std.specs.Prelude.{◌≡◌, ℕ, ◌<◌, ◌≤◌, List, length, take, Option, IfOk, OnOk, OnErr};
ghost use Rattle.oc_base.specs.Outside.{HasCause, Rose, gained, GainedPart, Gains};

use crate::fault::Failed;

/// A device that bytes go to.
pub trait Sink {
    /// The bytes that it holds, where it tells.
    ghost holds: { Self → Option (List ℕ) };

    /// How often a write has failed, unless none can.
    ghost faults: { Self → Option ℕ };

    /// Puts some first bytes of the piece, at least one, behind what the sink holds,
    /// and answers how many. A device that takes none has failed.
    fn write(&mut self, piece: &[u8]) -> Result<usize, Failed>
        requires { 0 < length piece.now }
        ensures some { IfOk result (λ n. 0 < n) }
        ensures room { IfOk result (λ n. n ≤ length piece.now) }
        ensures holds { IfOk result (λ n. holds self.new ≡ gained (holds self.old) (take n piece.now)) }
        ensures kept { OnErr result (holds self.new ≡ holds self.old) }
        ensures cause { HasCause (faults self.old) (faults self.new) result };
}

/// Writes the whole piece. After a failure the sink holds a first part of it.
pub fn write_all<S: Sink>(sink: &mut S, piece: &[u8]) -> Result<(), Failed>
    ensures all { OnOk result (S.holds sink.new ≡ gained (S.holds sink.old) piece.now) }
    ensures part { GainedPart (S.holds sink.old) (S.holds sink.new) piece.now }
    ensures gains { Gains (S.holds sink.old) (S.holds sink.new) (Rose (S.faults sink.old) (S.faults sink.new)) piece.now }
    ensures cause { HasCause (S.faults sink.old) (S.faults sink.new) result }
{
    let mut at = 0;
    while at < piece.len() {
        match sink.write(&piece[at..]) {
            Ok(count) => at += count,
            Err(fault) => return Err(fault),
        }
    }
    Ok(())
}
