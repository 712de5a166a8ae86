//! Calls that make harts.
ghost use Rattle.std.specs.Prelude.{◌≡◌, ◌≤◌, ◌<◌, ◌++◌, true, map, take, OnOk, OnErr, IfOk, if◌then◌else◌};
ghost use Rattle.std.specs.List.{list_all};
ghost use Rattle.finite.specs.Maps.{contains_all};
ghost use Rattle.guest_mem.specs.Memory.{bytes_of};
ghost use Rattle.guest_mem.specs.Access.{IsRoomy};
ghost use Rattle.guest_sys.specs.Calls.{Does, Ends, has, asked_for, clone, cloned, is_thread, is_word, listed, puts, changed, all_changed, put_at};
ghost use Rattle.guest_sys.specs.Limits.{hart_limit};
ghost use Rattle.guest_sys.specs.Words.{word_range};

use crate::HART_LIMIT;
use crate::answers::{Error, failure, plain};
use crate::arguments::Arguments;
use crate::effect::{Effect, Reply};
use crate::flags::{asked_for, has};
use crate::ranges::put;
use crate::state::Sys;
use guest_mem::store::GuestStore;
use link_tags::origins::Origins;
use oc_base::fault::NoMemory;
use oc_base::items::Items;
use oc_base::range::Range;
use std::alloc::Global;

/// Makes a hart: flags, stack, parent's word, thread pointer and child's word are asked for.
#[tactic(auto, unfolding(crate::specs::Calls::clone), using(crate::proofs::ThreadLaws::all_both))]
pub(crate) fn clone<M: GuestStore, O: Origins>(
    alloc: Global,
    sys: &mut Sys,
    mem: &mut M,
    origins: &O,
    a: Arguments,
) -> Result<Effect, NoMemory>
    ensures { Does (O.origin origins.now) (λ see readable writable s. clone writable s a.a0 a.a1 a.a2 a.a3 a.a4) sys.old sys.new (M.contents mem.old) (M.contents mem.new) result }
{
    let flags = a.a0;
    if !is_thread(flags) || a.a1 == 0 {
        return Ok(failure(alloc, Error::Invalid));
    }
    let parent = asked_for(flags, 0x10_0000, a.a2);
    let child = asked_for(flags, 0x100_0000, a.a4);
    if !may_put(mem, parent) || !may_put(mem, child) {
        return Ok(failure(alloc, Error::BadAddress));
    }
    sys.orderly();
    if sys.made() == HART_LIMIT {
        return Ok(plain(alloc, Reply::HartsFull));
    }
    make_hart(alloc, sys, mem, origins, a, parent, child)
}

/// Makes a hart whose tid is put into these words.
#[tactic(auto, using(crate::proofs::ThreadLaws::ranges_of_puts))]
fn make_hart<M: GuestStore, O: Origins>(
    alloc: Global,
    sys: &mut Sys,
    mem: &mut M,
    origins: &O,
    a: Arguments,
    parent: Option<u64>,
    child: Option<u64>,
) -> Result<Effect, NoMemory>
    requires few { sys.old.made < hart_limit }
    requires parent { list_all (is_word (M.contents mem.old).writable) (listed parent) ≡ true }
    requires child { list_all (is_word (M.contents mem.old).writable) (listed child) ≡ true }
    ensures { Ends (O.origin origins.now) (cloned sys.old a.a0 a.a1 a.a3 a.a4 (listed parent ++ listed child)) sys.old sys.new (M.contents mem.old) (M.contents mem.new) result }
{
    let tid = sys.made() + 1;
    let written = words(alloc, mem, parent, child)?;
    put_both(mem, origins, parent, child, &bytes_of(tid))?;
    sys.count_hart();
    Ok(Effect {
        reply: reply(a, tid),
        woken: Items::new(alloc),
        written,
    })
}

/// The reply of a call that makes a hart.
fn reply(a: Arguments, tid: u32) -> Reply
    ensures { result ≡ Reply.Clone a.a1 (asked_for a.a0 0x8_0000 a.a3) (if has a.a0 0x20_0000 then a.a4 else 0) tid }
{
    Reply::Clone {
        stack: a.a1,
        tls: asked_for(a.a0, 0x8_0000, a.a3),
        clear: if has(a.a0, 0x20_0000) { a.a4 } else { 0 },
        tid,
    }
}

/// The bytes of a tid.
#[tactic(auto, unfolding(guest_mem::specs::Memory::bytes_of))]
fn bytes_of(tid: u32) -> [u8; 4]
    ensures { result ≡ take 4 (bytes_of tid) }
{
    tid.to_le_bytes()
}

/// Whether flags ask for a thread of this process, and for nothing that isn't served.
fn is_thread(flags: u64) -> bool
    ensures { result ≡ is_thread flags }
{
    has(flags, 0x100) && has(flags, 0x1_0000) && !has(flags, 0xffff_ffff_fe82_f000)
}

/// Whether a word, where there is one, is 4 aligned bytes that may be written.
fn may_put<M: GuestStore>(mem: &M, word: Option<u64>) -> bool
    ensures { result ≡ list_all (is_word (M.contents mem.now).writable) (listed word) }
{
    match word {
        Some(at) => at % 4 == 0 && mem.may_write(at, 4),
        None => true,
    }
}

/// The bytes of the words that are there.
fn words<M: GuestStore>(
    alloc: Global,
    mem: &M,
    parent: Option<u64>,
    child: Option<u64>,
) -> Result<Items<Range>, NoMemory>
    requires parent { list_all (is_word (M.contents mem.now).writable) (listed parent) ≡ true }
    requires child { list_all (is_word (M.contents mem.now).writable) (listed child) ≡ true }
    ensures { IfOk result (λ list. list ≡ map word_range (listed parent ++ listed child)) }
{
    let mut words = Items::new(alloc);
    if let Some(at) = parent {
        words.push(word_at(mem, at))?;
    }
    if let Some(at) = child {
        words.push(word_at(mem, at))?;
    }
    Ok(words)
}

/// The 4 bytes of a word that may be written.
#[tactic(auto, using(crate::proofs::ThreadLaws::low_word))]
fn word_at<M: GuestStore>(mem: &M, at: u64) -> Range
    requires { contains_all (M.contents mem.now).writable at 4 ≡ true }
    ensures range { result ≡ word_range at }
    ensures low { result.to ≤ 0x1000_0000 }
{
    // It may be written, which tells where it ends.
    let _ = mem.may_write(at, 4);
    Range {
        from: at,
        to: at + 4,
    }
}

/// Puts bytes into the words that are there. Room for the second is made before the first is written.
fn put_both<M: GuestStore, O: Origins>(
    mem: &mut M,
    origins: &O,
    first: Option<u64>,
    second: Option<u64>,
    bytes: &[u8; 4],
) -> Result<(), NoMemory>
    requires first { list_all (is_word (M.contents mem.old).writable) (listed first) ≡ true }
    requires second { list_all (is_word (M.contents mem.old).writable) (listed second) ≡ true }
    ensures ok { OnOk result (M.contents mem.new ≡ all_changed (O.origin origins.now) (M.contents mem.old) (puts bytes.now (listed first ++ listed second))) }
    ensures err { OnErr result (M.contents mem.new ≡ M.contents mem.old) }
{
    match (first, second) {
        (None, None) => Ok(()),
        (Some(at), None) | (None, Some(at)) => put(mem, origins, at, bytes),
        (Some(at), Some(behind)) => {
            let range = word_at(mem, behind);
            mem.make_room(range)?;
            put(mem, origins, at, bytes)?;
            put_in_room(mem, origins, behind, bytes);
            Ok(())
        }
    }
}

/// Puts 4 bytes where there is room for them.
fn put_in_room<M: GuestStore, O: Origins>(mem: &mut M, origins: &O, at: u64, bytes: &[u8; 4])
    requires allowed { contains_all (M.contents mem.old).writable at 4 ≡ true }
    requires room { IsRoomy (M.room mem.old) at 4 }
    ensures { M.contents mem.new ≡ changed (O.origin origins.now) (M.contents mem.old) (put_at at bytes.now) }
{
    let Ok(()) = mem.put_bytes(at, bytes, origins) else {
        unreachable!()
    };
}
