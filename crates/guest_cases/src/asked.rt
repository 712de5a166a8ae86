//! A call of `play` whose devices can't fail.

ghost use Rattle.std.specs.Prelude.{◌≢◌, ℕ, List, map, string_bytes};
ghost use Rattle.oc_base.specs.Table.{newest_in};
ghost use Rattle.report.specs.declared.answer.Ended.{Ended};
ghost use Rattle.guest_cases.specs.Sure.{filled, EndsAsAsked};

use crate::sure::SureFiles;
use oc_base::memory::{MemSource, NullSink};
use play::call::play;
use report::answer::Answer;
use std::alloc::Global;

/// Plays over these files, of which a missing one has no bytes, and this input. What is written is let go.
///
/// No device can fail, so the call ends as its words, its files and its input ask for, or it is out of memory.
pub fn play_surely(
    alloc: Global,
    words: &[String],
    files: Vec<(String, Vec<u8>)>,
    input: Vec<u8>,
) -> Answer
    ensures asked { result.ended ≢ Ended.NoMemory
        → EndsAsAsked (map string_bytes words.now) (filled (newest_in files.items)) input.items result }
    ensures read { (name : List ℕ) → result.ended ≢ Ended.ReadFault name }
    ensures written { result.ended ≢ Ended.WriteFault }
{
    let mut files = SureFiles::new(files);
    let mut input = MemSource::new(input, Vec::new(alloc));
    play(
        alloc,
        words,
        &mut files,
        &mut input,
        &mut NullSink,
        &mut NullSink,
    )
}
