//! Input and output.
ghost use Rattle.std.specs.Prelude.{◌≡◌, ◌+◌, ◌*◌, ◌≤◌, ◌<◌, ◌^◌, true, length, IfOk};
ghost use Rattle.finite.specs.Maps.{contains_all};
ghost use Rattle.guest_mem.specs.Memory.{bytes_from, number_of};
ghost use Rattle.guest_mem.specs.Access.{seen};
ghost use Rattle.guest_sys.specs.Calls.{Does, read, write, writev, write_parts, is_output, all_readable, bytes_of_parts, parts};
ghost use Rattle.guest_sys.specs.Fitting.{fitting};

use crate::OUTPUT_LIMIT;
use crate::answers::{Error, answer, failure, plain};
use crate::effect::{Effect, Reply};
use crate::ranges::{put, readable, span, writable};
use crate::state::Sys;
use guest_mem::store::GuestStore;
use link_tags::origins::Origins;
use oc_base::fault::NoMemory;
use oc_base::items::Items;
use std::alloc::Global;

/// Moves bytes of the input into memory.
#[tactic(auto, unfolding(crate::specs::Calls::read), using(crate::proofs::FileLaws::taken_length))]
pub(crate) fn read<M: GuestStore, O: Origins>(
    alloc: Global,
    sys: &mut Sys,
    mem: &mut M,
    origins: &O,
    file: u64,
    at: u64,
    count: u64,
) -> Result<Effect, NoMemory>
    ensures { Does (O.origin origins.now) (λ see readable writable s. read writable s file at count) sys.old sys.new (M.contents mem.old) (M.contents mem.new) result }
{
    if file != 0 {
        return Ok(failure(alloc, Error::BadFile));
    }
    let count = count.min(sys.input().len() as u64);
    if !writable(mem, at, count) {
        return Ok(failure(alloc, Error::BadAddress));
    }
    let written = span(alloc, at, count)?;
    put(mem, origins, at, &sys.input()[..count as usize])?;
    sys.go_on(count as usize);
    Ok(Effect {
        reply: Reply::Answer(count),
        woken: Items::new(alloc),
        written,
    })
}

/// Writes bytes of memory to an output.
#[tactic(auto, unfolding(crate::specs::Calls::write))]
pub(crate) fn write<M: GuestStore, O: Origins>(
    alloc: Global,
    sys: &mut Sys,
    mem: &M,
    origins: &O,
    file: u64,
    at: u64,
    count: u64,
) -> Result<Effect, NoMemory>
    ensures { Does (O.origin origins.now) (λ see readable writable s. write see readable s file at count) sys.old sys.new (M.contents mem.now) (M.contents mem.now) result }
{
    if !is_output(file) {
        return Ok(failure(alloc, Error::BadFile));
    }
    write_parts(alloc, sys, mem, origins, file, &[(at, count)])
}

/// Writes parts of memory, of which memory tells, to an output.
#[tactic(auto, unfolding(crate::specs::Calls::writev))]
pub(crate) fn writev<M: GuestStore, O: Origins>(
    alloc: Global,
    sys: &mut Sys,
    mem: &M,
    origins: &O,
    file: u64,
    at: u64,
    count: u64,
) -> Result<Effect, NoMemory>
    ensures { Does (O.origin origins.now) (λ see readable writable s. writev see readable s file at count) sys.old sys.new (M.contents mem.now) (M.contents mem.now) result }
{
    if !is_output(file) {
        return Ok(failure(alloc, Error::BadFile));
    }
    if count > 1024 {
        return Ok(failure(alloc, Error::Invalid));
    }
    if !readable(mem, at, 16 * count) {
        return Ok(failure(alloc, Error::BadAddress));
    }
    let parts = parts(alloc, mem, origins, at, count)?;
    write_parts(alloc, sys, mem, origins, file, &parts)
}

/// Whether a file is an output.
fn is_output(file: u64) -> bool
    ensures { result ≡ is_output file }
{
    file == 1 || file == 2
}

/// The parts of a table of `count` pairs at `at`.
#[tactic(auto, using(crate::proofs::FileLaws::parts_more))]
fn parts<M: GuestStore, O: Origins>(
    alloc: Global,
    mem: &M,
    origins: &O,
    at: u64,
    count: u64,
) -> Result<Vec<(u64, u64)>, NoMemory>
    requires few { count ≤ 1024 }
    requires end { at + 16 * count < 2 ^ 64 }
    ensures { IfOk result (λ v. v.items ≡ parts (seen (O.origin origins.now) (M.contents mem.now)) at count) }
{
    let mut parts = Vec::new(alloc);
    for k in 0..count {
        let from = number_at(alloc, mem, origins, at + 16 * k)?;
        let len = number_at(alloc, mem, origins, at + 16 * k + 8)?;
        parts.push((from, len))?;
    }
    Ok(parts)
}

/// The number of 8 bytes.
fn number_at<M: GuestStore, O: Origins>(
    alloc: Global,
    mem: &M,
    origins: &O,
    at: u64,
) -> Result<u64, NoMemory>
    ensures { IfOk result (λ n. n ≡ number_of (bytes_from (seen (O.origin origins.now) (M.contents mem.now)) at 8)) }
{
    let Ok(bytes) = mem.take_bytes(alloc, at, 8, origins) else {
        return Err(NoMemory);
    };
    let mut word = [0; 8];
    word.copy_from_slice(&bytes);
    Ok(u64::from_le_bytes(word))
}

/// Writes parts of memory to output 1 or 2.
#[tactic(auto, unfolding(crate::specs::Calls::write_parts))]
fn write_parts<M: GuestStore, O: Origins>(
    alloc: Global,
    sys: &mut Sys,
    mem: &M,
    origins: &O,
    file: u64,
    parts: &[(u64, u64)],
) -> Result<Effect, NoMemory>
    requires { is_output file ≡ true }
    ensures { Does (O.origin origins.now) (λ see readable writable s. write_parts see readable s file parts.now) sys.old sys.new (M.contents mem.now) (M.contents mem.now) result }
{
    if !all_readable(mem, parts) {
        return Ok(failure(alloc, Error::BadAddress));
    }
    sys.orderly();
    let room = OUTPUT_LIMIT - sys.output(file as u8).len();
    let Some(bytes) = gathered(alloc, mem, origins, parts, room)? else {
        return Ok(plain(alloc, Reply::OutputFull));
    };
    sys.append(file, bytes.as_slice())?;
    Ok(answer(alloc, bytes.len() as u64))
}

/// Whether all parts may be read.
fn all_readable<M: GuestStore>(mem: &M, parts: &[(u64, u64)]) -> bool
    ensures { result ≡ all_readable (M.contents mem.now).readable parts.now }
{
    for part in parts {
        if !mem.may_read(part.0, part.1) {
            return false;
        }
    }
    true
}

/// The bytes of parts, where they are at most `room`.
fn gathered<M: GuestStore, O: Origins>(
    alloc: Global,
    mem: &M,
    origins: &O,
    parts: &[(u64, u64)],
    room: usize,
) -> Result<Option<Items<u8>>, NoMemory>
    ensures { IfOk result (λ found. found ≡ fitting room (bytes_of_parts (seen (O.origin origins.now) (M.contents mem.now)) parts.now)) }
{
    let mut bytes = Items::new(alloc);
    for part in parts {
        if part.1 > (room - bytes.len()) as u64 {
            return Ok(None);
        }
        let Ok(more) = mem.take_bytes(alloc, part.0, part.1, origins) else {
            return Err(NoMemory);
        };
        bytes.extend_from_slice(&more)?;
    }
    Ok(Some(bytes))
}
