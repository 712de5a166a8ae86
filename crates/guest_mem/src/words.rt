//! Memory word by word: what a representation gives, and all that the accesses are written over.
ghost use Rattle.std.specs.Prelude.{◌≡◌, ℕ, OnOk, OnErr, ◌+◌, ◌%◌, ◌<◌, ◌≤◌, true, false};
ghost use Rattle.finite.specs.Maps.{Places, contains, contains_all};
ghost use Rattle.guest_mem.specs.Memory.{Memory, word_of, with_word, with_right, no_word};
ghost use Rattle.guest_mem.specs.Access.{KeepsRoom, IsBelowEnd};

use link_tags::value::Tag;
use oc_base::fault::NoMemory;

/// The 8 bytes of an aligned word, and its tag.
#[derive(Clone, Copy, Debug)]
pub struct Word {
    pub bytes: [u8; 8],
    pub tag: Tag,
}

/// What may be done with a byte.
#[derive(Clone, Copy, Debug, PartialEq, Eq)]
pub enum Right {
    Read,
    Write,
}

/// A store of tagged words, where the word `w` has the 8 bytes from `8 * w`.
pub trait WordStore {
    ghost contents: { Self → Memory };

    ghost room: { Self → Places };

    fn word(&self, w: u64) -> Word
        ensures { result ≡ word_of (contents self.now) w };

    fn set_word(&mut self, w: u64, word: Word) -> Result<(), NoMemory>
        requires { w < 0x0200_0000 }
        ensures ok { OnOk result (contents self.new ≡ with_word (contents self.old) w word) }
        ensures err { OnErr result (contents self.new ≡ contents self.old) }
        ensures room { KeepsRoom (room self.old) (room self.new) }
        ensures roomy { OnErr result (contains (room self.old) w ≡ false) };

    /// Whether the word can be set without memory. Every link can, and every word that can't is zero and Plain.
    fn has_room(&self, w: u64) -> bool
        ensures value { result ≡ contains (room self.now) w }
        ensures bare { result ≡ false → no_word ≡ word_of (contents self.now) w }
        ensures link { contains (contents self.now).links w ≡ true → result ≡ true };

    /// Sees to it that the word can be set without memory, and changes nothing else.
    fn make_room(&mut self, w: u64) -> Result<(), NoMemory>
        requires { w < 0x0200_0000 }
        ensures same { contents self.new ≡ contents self.old }
        ensures made { OnOk result (contains (room self.new) w ≡ true) }
        ensures room { KeepsRoom (room self.old) (room self.new) }
        ensures roomy { OnErr result (contains (room self.old) w ≡ false) };

    /// Whether the byte `at` has a right.
    fn has_right(&self, right: Right, at: u64) -> bool
        ensures { result ≡ contains (with_right (contents self.now) right) at };

    /// Whether each of the `n` bytes at `at`, which lie in one word, has a right.
    fn have_rights(&self, right: Right, at: u64, n: u64) -> bool
        requires some { 0 < n }
        requires word { at % 8 + n ≤ 8 }
        ensures value { result ≡ contains_all (with_right (contents self.now) right) at n }
        ensures end { result ≡ true → at + n ≤ 0x1000_0000 };

    /// Rights and links lie below the end of guest addresses. It does nothing.
    fn bounded(&self)
        ensures rights { (right : Right) → IsBelowEnd (with_right (contents self.now) right) }
        ensures links { (w : ℕ) → contains (contents self.now).links w ≡ true → w < 0x0200_0000 };
}
