//! Guest memory as its users see it.
ghost use Rattle.std.specs.Prelude.{◌≡◌, ℕ, OnOk, OnErr, IfOk, IfErr, true, false, length, get_or, ◌-◌, ◌≤◌, ◌/◌};
ghost use Rattle.rv_isa.specs.Instr.{IsStoreWidth};
ghost use Rattle.finite.specs.Maps.{Places, contains, contains_all};
ghost use Rattle.guest_mem.specs.Memory.{Memory, bytes_from, is_link_at};
ghost use Rattle.guest_mem.specs.Access.{size_of, refusal, load_of, stored, IsCause, KeepsRoom, IsTransferCause, IsRoomy, IsBelowEnd, seen, put, with_rights, mapped, HoldsWholeLinks, with_link, links_of};

use crate::fault::{Access, StoreFault};
use link_tags::origins::Origins;
use link_tags::value::Value;
use oc_base::fault::NoMemory;
use oc_base::range::Range;
use rv_isa::instr::Width;
use std::alloc::Global;

/// How many bytes a load or store moves.
#[inline]
pub fn size(width: Width) -> u64
    ensures { result ≡ size_of width }
{
    match width {
        Width::B | Width::Bu => 1,
        Width::H | Width::Hu => 2,
        Width::W | Width::Wu => 4,
        Width::D => 8,
    }
}

/// Tagged memory of a guest. An `Origins` tells the number that the program sees in a link.
pub trait GuestStore {
    ghost contents: { Self → Memory };

    /// The words in which a write takes no memory.
    ghost room: { Self → Places };

    /// The value of a width at `at`: a whole word with its tag, and less than one as a Plain number, of the original
    /// number where the word is a link. `Misaligned` comes before `NoAccess`.
    fn load<O: Origins>(&self, at: u64, width: Width, origins: &O) -> Result<Value, Access>
        ensures { result ≡ load_of (O.origin origins.now) (contents self.now) at width };

    /// Stores a value at `at`: a whole word with its tag, and less than one as bytes of the number that the program
    /// sees, into a word that is made Plain.
    fn store<O: Origins>(
        &mut self,
        at: u64,
        width: Width,
        v: Value,
        origins: &O,
    ) -> Result<(), StoreFault>
        requires { IsStoreWidth width }
        ensures allowed { OnOk result (refusal (contents self.old).writable at (size_of width) ≡ None) }
        ensures ok { OnOk result (contents self.new ≡ stored (O.origin origins.now) (contents self.old) at width v) }
        ensures cause { IfErr result (IsCause (refusal (contents self.old).writable at (size_of width))) }
        ensures err { OnErr result (contents self.new ≡ contents self.old) }
        ensures room { KeepsRoom (room self.old) (room self.new) }
        ensures roomy { result ≡ Err StoreFault.NoMemory → contains (room self.old) (at / 8) ≡ true → ⊥ };

    /// The `len` bytes at `at` as the program sees them. It never answers `Misaligned`.
    fn take_bytes<O: Origins>(
        &self,
        alloc: Global,
        at: u64,
        len: u64,
        origins: &O,
    ) -> Result<Vec<u8>, StoreFault>
        ensures allowed { OnOk result (contains_all (contents self.now).readable at len ≡ true) }
        ensures ok { IfOk result (λ v. v.items ≡ bytes_from (seen (O.origin origins.now) (contents self.now)) at len) }
        ensures cause { IfErr result (IsTransferCause (contains_all (contents self.now).readable at len)) };

    /// Puts bytes at `at`, and makes the words that they touch Plain. It never answers `Misaligned`, and takes no
    /// memory where all of these words have room.
    fn put_bytes<O: Origins>(
        &mut self,
        at: u64,
        bytes: &[u8],
        origins: &O,
    ) -> Result<(), StoreFault>
        ensures allowed { OnOk result (contains_all (contents self.old).writable at (length bytes.now) ≡ true) }
        ensures ok { OnOk result (contents self.new ≡ put (O.origin origins.now) (contents self.old) at (length bytes.now) (λ q. get_or bytes.now (q - at) 0)) }
        ensures cause { IfErr result (IsTransferCause (contains_all (contents self.old).writable at (length bytes.now))) }
        ensures err { OnErr result (contents self.new ≡ contents self.old) }
        ensures room { KeepsRoom (room self.old) (room self.new) }
        ensures roomy { result ≡ Err StoreFault.NoMemory → IsRoomy (room self.old) at (length bytes.now) → ⊥ };

    /// Makes room in the words of a range, so that later writes there take no memory.
    fn make_room(&mut self, range: Range) -> Result<(), NoMemory>
        requires { range.to ≤ 0x1000_0000 }
        ensures contents { contents self.new ≡ contents self.old }
        ensures made { OnOk result (IsRoomy (room self.new) range.from (range.to - range.from)) }
        ensures room { KeepsRoom (room self.old) (room self.new) };

    /// Makes the bytes of a range zero and Plain, with these rights.
    fn map(&mut self, range: Range, read: bool, write: bool) -> Result<(), NoMemory>
        requires end { range.to ≤ 0x1000_0000 }
        requires links { HoldsWholeLinks (contents self.old) range.from range.to }
        ensures ok { OnOk result (contents self.new ≡ mapped (contents self.old) range.from (range.to - range.from) read write) }
        ensures err { OnErr result (contents self.new ≡ contents self.old) };

    /// Makes the bytes of a range zero and Plain, without rights.
    fn unmap(&mut self, range: Range) -> Result<(), NoMemory>
        requires end { range.to ≤ 0x1000_0000 }
        requires links { HoldsWholeLinks (contents self.old) range.from range.to }
        ensures ok { OnOk result (contents self.new ≡ mapped (contents self.old) range.from (range.to - range.from) false false) }
        ensures err { OnErr result (contents self.new ≡ contents self.old) };

    /// Gives the bytes of a range these rights.
    fn set_rights(&mut self, range: Range, read: bool, write: bool) -> Result<(), NoMemory>
        requires { range.to ≤ 0x1000_0000 }
        ensures ok { OnOk result (contents self.new ≡ with_rights (contents self.old) range.from (range.to - range.from) read write) }
        ensures err { OnErr result (contents self.new ≡ contents self.old) };

    /// The addresses of all links with their numbers, ascending.
    fn links(&self, alloc: Global) -> Result<Vec<(u64, u64)>, NoMemory>
        ensures { IfOk result (λ v. v.items ≡ links_of (contents self.now)) };

    /// Gives the link that holds the byte `at` another number. It takes no memory.
    fn set_link(&mut self, at: u64, number: u64)
        requires { is_link_at (contents self.old) at ≡ true }
        ensures contents { contents self.new ≡ with_link (contents self.old) at number }
        ensures room { KeepsRoom (room self.old) (room self.new) };

    /// Whether each of the `len` bytes at `at` may be read. No byte from 0x10000000 on may be.
    fn may_read(&self, at: u64, len: u64) -> bool
        ensures value { result ≡ contains_all (contents self.now).readable at len }
        ensures below { IsBelowEnd (contents self.now).readable };

    /// Whether each of the `len` bytes at `at` may be written. No byte from 0x10000000 on may be accessed.
    fn may_write(&self, at: u64, len: u64) -> bool
        ensures value { result ≡ contains_all (contents self.now).writable at len }
        ensures below { IsBelowEnd (contents self.now).readable × IsBelowEnd (contents self.now).writable };

    /// Whether the word that holds the byte `at` is a link.
    fn is_link(&self, at: u64) -> bool
        ensures { result ≡ is_link_at (contents self.now) at };
}
