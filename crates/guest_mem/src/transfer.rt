//! Bytes taken from and put into any store of words.
ghost use Rattle.std.specs.Prelude.{◌≡◌, ℕ, OnOk, OnErr, IfOk, IfErr, ◌<◌, ◌≤◌, ◌+◌, ◌-◌, true, false, length, get_or};
ghost use Rattle.finite.specs.Maps.{contains, contains_all};
ghost use Rattle.guest_mem.specs.Memory.{bytes_from};
ghost use Rattle.guest_mem.specs.Access.{put, seen, IsTransferCause, IsRoomy, KeepsRoom};
ghost use Rattle.guest_mem.specs.Words.{plain_bytes_of, IsPut};

use crate::access::all_have_right;
use crate::bytes::plain_bytes;
use crate::fault::StoreFault;
use crate::words::{Right, Word, WordStore};
use link_tags::origins::Origins;
use link_tags::value::Tag;
use oc_base::fault::NoMemory;
use oc_base::range::Range;
use std::alloc::Global;

/// The `len` bytes at `at` as the program sees them.
pub fn take_bytes<S: WordStore, O: Origins>(
    alloc: Global,
    store: &S,
    at: u64,
    len: u64,
    origins: &O,
) -> Result<Vec<u8>, StoreFault>
    ensures allowed { OnOk result (contains_all (S.contents store.now).readable at len ≡ true) }
    ensures ok { IfOk result (λ v. v.items ≡ bytes_from (seen (O.origin origins.now) (S.contents store.now)) at len) }
    ensures cause { IfErr result (IsTransferCause (contains_all (S.contents store.now).readable at len)) }
{
    if !all_have_right(store, Right::Read, at, len) {
        return Err(StoreFault::NoAccess);
    }
    if len == 0 {
        return Ok(Vec::new(alloc));
    }
    let Ok(taken) = taken(alloc, store, at, len, origins) else {
        return Err(StoreFault::NoMemory);
    };
    Ok(taken)
}

fn taken<S: WordStore, O: Origins>(
    alloc: Global,
    store: &S,
    at: u64,
    len: u64,
    origins: &O,
) -> Result<Vec<u8>, NoMemory>
    requires { at + len ≤ 0x1000_0000 }
    ensures { IfOk result (λ v. v.items ≡ bytes_from (seen (O.origin origins.now) (S.contents store.now)) at len) }
{
    let mut taken = Vec::new(alloc);
    for k in 0..len {
        let q = at + k;
        let word = plain_bytes(store.word(q / 8), origins);
        let Ok(()) = taken.push(word[(q % 8) as usize]) else {
            return Err(NoMemory);
        };
    }
    Ok(taken)
}

/// Puts bytes at `at`.
pub fn put_bytes<S: WordStore, O: Origins>(
    store: &mut S,
    at: u64,
    bytes: &[u8],
    origins: &O,
) -> Result<(), StoreFault>
    ensures allowed { OnOk result (contains_all (S.contents store.old).writable at (length bytes.now) ≡ true) }
    ensures ok { OnOk result (S.contents store.new ≡ put (O.origin origins.now) (S.contents store.old) at (length bytes.now) (λ q. get_or bytes.now (q - at) 0)) }
    ensures cause { IfErr result (IsTransferCause (contains_all (S.contents store.old).writable at (length bytes.now))) }
    ensures err { OnErr result (S.contents store.new ≡ S.contents store.old) }
    ensures room { KeepsRoom (S.room store.old) (S.room store.new) }
    ensures roomy { result ≡ Err StoreFault.NoMemory → IsRoomy (S.room store.old) at (length bytes.now) → ⊥ }
{
    if !all_have_right(store, Right::Write, at, bytes.len() as u64) {
        return Err(StoreFault::NoAccess);
    }
    if bytes.is_empty() {
        return Ok(());
    }
    let Ok(()) = put_words(store, at, bytes, origins) else {
        return Err(StoreFault::NoMemory);
    };
    Ok(())
}

/// Room is made before the first word is written, so no write fails.
fn put_words<S: WordStore, O: Origins>(
    store: &mut S,
    at: u64,
    bytes: &[u8],
    origins: &O,
) -> Result<(), NoMemory>
    requires some { 0 < length bytes.now }
    requires end { at + length bytes.now ≤ 0x1000_0000 }
    ensures ok { OnOk result (S.contents store.new ≡ put (O.origin origins.now) (S.contents store.old) at (length bytes.now) (λ q. get_or bytes.now (q - at) 0)) }
    ensures err { OnErr result (S.contents store.new ≡ S.contents store.old) }
    ensures room { KeepsRoom (S.room store.old) (S.room store.new) }
    ensures roomy { OnErr result (IsRoomy (S.room store.old) at (length bytes.now) → ⊥) }
{
    let first = at / 8;
    let end = (at + bytes.len() as u64 + 7) / 8;
    let Ok(()) = room_for(store, first, end) else {
        return Err(NoMemory);
    };
    for w in first..end {
        let word = put_in(store.word(w), w, at, bytes, origins);
        let Ok(()) = store.set_word(w, word) else {
            return Err(NoMemory);
        };
    }
    Ok(())
}

/// The word `w`, which was `old`, with those of the bytes at `at` that it has.
fn put_in<O: Origins>(old: Word, w: u64, at: u64, bytes: &[u8], origins: &O) -> Word
    requires word { w < 0x0200_0000 }
    requires end { at + length bytes.now ≤ 0x1000_0000 }
    ensures full { length result.bytes ≡ 8 }
    ensures put { IsPut (plain_bytes_of (O.origin origins.now) old) w at (length bytes.now) (λ q. get_or bytes.now (q - at) 0) result }
{
    let mut result = plain_bytes(old, origins);
    let end = at + bytes.len() as u64;
    for j in 0..8 {
        let q = 8 * w + j;
        if at <= q && q < end {
            result[j as usize] = bytes[(q - at) as usize];
        }
    }
    Word {
        bytes: result,
        tag: Tag::Plain,
    }
}

/// Makes room in the words of a range of bytes.
pub fn make_room<S: WordStore>(store: &mut S, range: Range) -> Result<(), NoMemory>
    requires { range.to ≤ 0x1000_0000 }
    ensures contents { S.contents store.new ≡ S.contents store.old }
    ensures made { OnOk result (IsRoomy (S.room store.new) range.from (range.to - range.from)) }
    ensures room { KeepsRoom (S.room store.old) (S.room store.new) }
{
    room_for(store, range.from / 8, (range.to + 7) / 8)
}

/// Makes room in the words from `first` up to `end`.
fn room_for<S: WordStore>(store: &mut S, first: u64, end: u64) -> Result<(), NoMemory>
    requires { end ≤ 0x0200_0000 }
    ensures same { S.contents store.new ≡ S.contents store.old }
    ensures made { OnOk result ((w : ℕ) → first ≤ w → w < end → contains (S.room store.new) w ≡ true) }
    ensures room { KeepsRoom (S.room store.old) (S.room store.new) }
    ensures roomy { OnErr result ((w : ℕ) × (first ≤ w) × (w < end) × (contains (S.room store.old) w ≡ false)) }
{
    for w in first..end {
        let Ok(()) = store.make_room(w) else {
            return Err(NoMemory);
        };
    }
    Ok(())
}
