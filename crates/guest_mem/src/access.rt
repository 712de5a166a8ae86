//! Loads and stores over any store of words.
ghost use Rattle.std.specs.Prelude.{◌≡◌, ℕ, OnOk, OnErr, IfErr, ◌<◌, ◌≤◌, ◌+◌, ◌/◌, ◌%◌, true};
ghost use Rattle.rv_isa.specs.Instr.{IsStoreWidth};
ghost use Rattle.finite.specs.Maps.{contains, contains_all};
ghost use Rattle.guest_mem.specs.Memory.{Memory, word_of, with_word, with_right, is_link_at};
ghost use Rattle.guest_mem.specs.Access.{size_of, refusal, load_of, stored, IsCause, KeepsRoom, with_link};

use crate::GUEST_END;
use crate::bytes::{bytes, extend, number, number_at, plain_bytes, spliced};
use crate::fault::{Access, StoreFault};
use crate::store::size;
use crate::words::{Right, Word, WordStore};
use link_tags::origins::{Origins, original};
use link_tags::value::{Tag, Value};
use rv_isa::instr::Width;

/// Whether each of the `n` bytes at `at` has a right.
pub fn all_have_right<S: WordStore>(store: &S, right: Right, at: u64, n: u64) -> bool
    ensures value { result ≡ contains_all (with_right (S.contents store.now) right) at n }
    ensures end { result ≡ true → 0 < n → at + n ≤ 0x1000_0000 }
{
    store.bounded();
    if n == 0 {
        return true;
    }
    if at.saturating_add(n) > GUEST_END {
        return false;
    }
    for w in at / 8..(at + n + 7) / 8 {
        let from = at.max(8 * w);
        let to = (at + n).min(8 * w + 8);
        if !store.have_rights(right, from, to - from) {
            return false;
        }
    }
    true
}

/// The value of a width at `at`.
#[inline]
pub fn load<S: WordStore, O: Origins>(
    store: &S,
    at: u64,
    width: Width,
    origins: &O,
) -> Result<Value, Access>
    ensures { result ≡ load_of (O.origin origins.now) (S.contents store.now) at width }
{
    let size = size(width);
    if at % size != 0 {
        return Err(Access::Misaligned);
    }
    if !store.have_rights(Right::Read, at, size) {
        return Err(Access::NoAccess);
    }
    let word = store.word(at / 8);
    if let Width::D = width {
        return Ok(Value {
            number: number(word.bytes),
            tag: word.tag,
        });
    }
    let seen = plain_bytes(word, origins);
    let part = number_at(&seen, (at % 8) as usize, size as usize);
    Ok(Value::plain(extend(width, part)))
}

/// The word that a store at `at` leaves where `old` stood.
#[inline]
fn new_word<O: Origins>(old: Word, at: u64, width: Width, v: Value, origins: &O) -> Word
    requires width { IsStoreWidth width }
    requires aligned { at % size_of width ≡ 0 }
    ensures { (m : Memory) → word_of m (at / 8) ≡ old
        → with_word m (at / 8) result ≡ stored (O.origin origins.now) m at width v }
{
    if let Width::D = width {
        return Word {
            bytes: bytes(v.number),
            tag: v.tag,
        };
    }
    let from = bytes(original(v, origins));
    let into = plain_bytes(old, origins);
    Word {
        bytes: spliced(into, (at % 8) as usize, size(width) as usize, &from),
        tag: Tag::Plain,
    }
}

/// Stores a value of a width at `at`.
#[inline]
pub fn store<S: WordStore, O: Origins>(
    store: &mut S,
    at: u64,
    width: Width,
    v: Value,
    origins: &O,
) -> Result<(), StoreFault>
    requires { IsStoreWidth width }
    ensures allowed { OnOk result (refusal (S.contents store.old).writable at (size_of width) ≡ None) }
    ensures ok { OnOk result (S.contents store.new ≡ stored (O.origin origins.now) (S.contents store.old) at width v) }
    ensures cause { IfErr result (IsCause (refusal (S.contents store.old).writable at (size_of width))) }
    ensures err { OnErr result (S.contents store.new ≡ S.contents store.old) }
    ensures room { KeepsRoom (S.room store.old) (S.room store.new) }
    ensures roomy { result ≡ Err StoreFault.NoMemory → contains (S.room store.old) (at / 8) ≡ true → ⊥ }
{
    let size = size(width);
    if at % size != 0 {
        return Err(StoreFault::Misaligned);
    }
    if !store.have_rights(Right::Write, at, size) {
        return Err(StoreFault::NoAccess);
    }
    let new = new_word(store.word(at / 8), at, width, v, origins);
    match store.set_word(at / 8, new) {
        Ok(()) => Ok(()),
        Err(_) => Err(StoreFault::NoMemory),
    }
}

/// Gives the link that holds the byte `at` another number.
pub fn set_link<S: WordStore>(store: &mut S, at: u64, number: u64)
    requires { is_link_at (S.contents store.old) at ≡ true }
    ensures contents { S.contents store.new ≡ with_link (S.contents store.old) at number }
    ensures room { KeepsRoom (S.room store.old) (S.room store.new) }
{
    store.bounded();
    let word = Word {
        bytes: bytes(number),
        tag: Tag::Link,
    };
    if store.has_room(at / 8) {
        let _ = store.set_word(at / 8, word);
    }
}
