//! Reading a whole file, and the whole input.

ghost use Rattle.std.specs.Prelude.{◌≡◌, ◌≤◌, IfOk, length};
ghost use Rattle.oc_base.specs.Outside.{Asks, LostPart};
ghost use Rattle.top_call.specs.Outside.{Outside, with_files, with_input};
ghost use Rattle.top_call.specs.Reading.{FileCause, FileRead, InputCause, InputRead};

use crate::INPUT_LIMIT;
use oc_base::fault::TakeFault;
use oc_base::files::Files;
use oc_base::items::Items;
use oc_base::source::{Source, read_all};
use oc_base::text::Text;
use std::alloc::Global;

/// Why what has this name, a file or the input, isn't read.
#[derive(Debug, Drop)]
pub enum Unread {
    /// It could not be read.
    Failed(Text),
    /// It is longer than its limit.
    TooLong(Text),
    /// There was no room in memory.
    NoMemory,
}

// The file, or why there is none.
fn take_file<F: Files>(
    alloc: Global,
    files: &mut F,
    name: &str,
    limit: usize,
) -> Result<Items<u8>, Unread>
    ensures cause { (rest : Outside) → FileCause name.now limit (with_files F.Files files.old rest) (with_files F.Files files.new rest) result }
    ensures asked { Asks Unread.NoMemory (F.asked files.old) (F.asked files.new) name.now result }
    ensures disk { F.disk files.new ≡ F.disk files.old }
    ensures puts { F.put_faults files.new ≡ F.put_faults files.old }
    ensures within { IfOk result (λ bytes. length bytes ≤ limit) }
{
    match files.take(alloc, name, limit) {
        Ok(bytes) => Ok(Items::from_vec(bytes)),
        Err(TakeFault::NoMemory) => Err(Unread::NoMemory),
        Err(TakeFault::Failed) => {
            let Ok(name) = Text::copy_of(alloc, name) else {
                return Err(Unread::NoMemory);
            };
            Err(Unread::Failed(name))
        }
        Err(TakeFault::TooLong) => {
            let Ok(name) = Text::copy_of(alloc, name) else {
                return Err(Unread::NoMemory);
            };
            Err(Unread::TooLong(name))
        }
    }
}

/// A whole file of at most `limit` bytes, or why there is none.
pub fn fetch<F: Files>(
    alloc: Global,
    files: &mut F,
    name: &str,
    limit: usize,
) -> Result<Items<u8>, Unread>
    ensures read { (rest : Outside) → FileRead name.now limit (with_files F.Files files.old rest) (with_files F.Files files.new rest) result }
    ensures within { IfOk result (λ bytes. length bytes ≤ limit) }
{
    take_file(alloc, files, name, limit)
}

// The input, or why there is none.
fn take_input<I: Source>(alloc: Global, input: &mut I) -> Result<Items<u8>, Unread>
    ensures cause { (rest : Outside) → InputCause (with_input I.Source input.old rest) (with_input I.Source input.new rest) result }
    ensures left { LostPart (I.left input.old) (I.left input.new) }
{
    match read_all(alloc, input, INPUT_LIMIT) {
        Ok(bytes) => Ok(Items::from_vec(bytes)),
        Err(TakeFault::NoMemory) => Err(Unread::NoMemory),
        Err(TakeFault::Failed) => {
            let Ok(name) = Text::copy_of(alloc, "input") else {
                return Err(Unread::NoMemory);
            };
            Err(Unread::Failed(name))
        }
        Err(TakeFault::TooLong) => {
            let Ok(name) = Text::copy_of(alloc, "input") else {
                return Err(Unread::NoMemory);
            };
            Err(Unread::TooLong(name))
        }
    }
}

/// The whole input, of at most `INPUT_LIMIT` bytes, or why there is none; its name is `input`.
pub fn fetch_input<I: Source>(alloc: Global, input: &mut I) -> Result<Items<u8>, Unread>
    ensures { (rest : Outside) → InputRead (with_input I.Source input.old rest) (with_input I.Source input.new rest) result }
{
    take_input(alloc, input)
}
