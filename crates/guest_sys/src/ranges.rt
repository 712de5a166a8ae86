//! Ranges of bytes with a right.
ghost use Rattle.std.specs.Prelude.{◌≡◌, ◌+◌, ◌<◌, ◌^◌, true, length, IfOk, OnOk, OnErr};
ghost use Rattle.finite.specs.Maps.{contains_all};
ghost use Rattle.guest_mem.specs.Access.{KeepsRoom};
ghost use Rattle.guest_sys.specs.Calls.{changed, put_at, span};

use guest_mem::store::GuestStore;
use link_tags::origins::Origins;
use oc_base::fault::NoMemory;
use oc_base::items::Items;
use oc_base::range::Range;
use std::alloc::Global;

/// Whether the `len` bytes at `at` may be read, which then fit.
#[tactic(auto, using(crate::proofs::RangeLaws::end_fits))]
pub(crate) fn readable<M: GuestStore>(mem: &M, at: u64, len: u64) -> bool
    ensures value { result ≡ contains_all (M.contents mem.now).readable at len }
    ensures fits { result ≡ true → at + len < 2 ^ 64 }
{
    mem.may_read(at, len)
}

/// Whether the `len` bytes at `at` may be written, which then fit.
#[tactic(auto, using(crate::proofs::RangeLaws::end_fits))]
pub(crate) fn writable<M: GuestStore>(mem: &M, at: u64, len: u64) -> bool
    ensures value { result ≡ contains_all (M.contents mem.now).writable at len }
    ensures fits { result ≡ true → at + len < 2 ^ 64 }
{
    mem.may_write(at, len)
}

/// The range of `len` bytes at `at`, which fits, where there are some.
pub(crate) fn span(alloc: Global, at: u64, len: u64) -> Result<Items<Range>, NoMemory>
    requires { at + len < 2 ^ 64 }
    ensures { IfOk result (λ list. list ≡ span at len) }
{
    let mut list = Items::new(alloc);
    if len != 0 {
        list.push(Range {
            from: at,
            to: at + len,
        })?;
    }
    Ok(list)
}

/// Puts bytes where they may be written.
pub(crate) fn put<M: GuestStore, O: Origins>(
    mem: &mut M,
    origins: &O,
    at: u64,
    bytes: &[u8],
) -> Result<(), NoMemory>
    requires { contains_all (M.contents mem.old).writable at (length bytes.now) ≡ true }
    ensures ok { OnOk result (M.contents mem.new ≡ changed (O.origin origins.now) (M.contents mem.old) (put_at at bytes.now)) }
    ensures err { OnErr result (M.contents mem.new ≡ M.contents mem.old) }
    ensures room { KeepsRoom (M.room mem.old) (M.room mem.new) }
{
    let Ok(()) = mem.put_bytes(at, bytes, origins) else {
        return Err(NoMemory);
    };
    Ok(())
}
