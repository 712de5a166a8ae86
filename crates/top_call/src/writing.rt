//! Writing to one device.

ghost use Rattle.top_call.specs.Outside.{Outside, with_files, with_out, with_err};
ghost use Rattle.top_call.specs.Writing.{to_out, to_err, to_file, Wrote};

use oc_base::fault::Failed;
use oc_base::files::Files;
use oc_base::sink::{Sink, write_all};

/// Writes bytes to the first output.
pub fn write_out<O: Sink>(out: &mut O, bytes: &[u8]) -> Result<(), Failed>
    ensures { (rest : Outside) → Wrote (to_out bytes.now) (with_out O.Sink out.old rest) (with_out O.Sink out.new rest) result }
{
    write_all(out, bytes)
}

/// Writes bytes to the second output.
pub fn write_err<E: Sink>(err: &mut E, bytes: &[u8]) -> Result<(), Failed>
    ensures { (rest : Outside) → Wrote (to_err bytes.now) (with_err E.Sink err.old rest) (with_err E.Sink err.new rest) result }
{
    write_all(err, bytes)
}

/// Writes a whole file.
pub fn write_file<F: Files>(files: &mut F, name: &str, bytes: &[u8]) -> Result<(), Failed>
    ensures { (rest : Outside) → Wrote (to_file name.now bytes.now) (with_files F.Files files.old rest) (with_files F.Files files.new rest) result }
{
    files.put(name, bytes)
}
