//! Bytes made zero and Plain in any store of words.
ghost use Rattle.std.specs.Prelude.{◌≡◌, ◌<◌, ◌≤◌, ◌-◌, length};
ghost use Rattle.guest_mem.specs.Memory.{word_of, with_word};
ghost use Rattle.guest_mem.specs.Access.{cleared, KeepsRoom};
ghost use Rattle.guest_mem.specs.Words.{IsPut};
ghost use Rattle.guest_mem.specs.declared.words.Word.{Word};

use crate::words::{Word, WordStore};
use link_tags::value::Tag;
use oc_base::range::Range;

/// Makes the bytes of a range zero and Plain. It takes no memory.
pub fn clear<S: WordStore>(store: &mut S, range: Range)
    requires { range.to ≤ 0x1000_0000 }
    ensures contents { S.contents store.new ≡ cleared (S.contents store.old) range.from (range.to - range.from) }
    ensures room { KeepsRoom (S.room store.old) (S.room store.new) }
{
    if range.from < range.to {
        clear_words(store, range);
    }
}

fn clear_words<S: WordStore>(store: &mut S, range: Range)
    requires some { range.from < range.to }
    requires end { range.to ≤ 0x1000_0000 }
    ensures contents { S.contents store.new ≡ cleared (S.contents store.old) range.from (range.to - range.from) }
    ensures room { KeepsRoom (S.room store.old) (S.room store.new) }
{
    for w in range.from / 8..(range.to + 7) / 8 {
        clear_word(store, w, range);
    }
}

/// A word without room is zero and Plain as it stands.
fn clear_word<S: WordStore>(store: &mut S, w: u64, range: Range)
    requires word { w < 0x0200_0000 }
    requires end { range.to ≤ 0x1000_0000 }
    ensures contents { (x : Word) × IsPut (word_of (S.contents store.old) w).bytes w range.from (range.to - range.from) (λ _. 0) x × (S.contents store.new ≡ with_word (S.contents store.old) w x) }
    ensures room { KeepsRoom (S.room store.old) (S.room store.new) }
{
    if store.has_room(w) {
        let word = zeroed(store.word(w), w, range);
        let _ = store.set_word(w, word);
    }
}

/// The word `w`, which was `old`, with zeros at those bytes of the range that it has.
pub fn zeroed(old: Word, w: u64, range: Range) -> Word
    requires word { w < 0x0200_0000 }
    requires end { range.to ≤ 0x1000_0000 }
    ensures full { length result.bytes ≡ 8 }
    ensures put { IsPut old.bytes w range.from (range.to - range.from) (λ _. 0) result }
{
    let mut bytes = old.bytes;
    for j in 0..8 {
        let q = 8 * w + j;
        if range.from <= q && q < range.to {
            bytes[j as usize] = 0;
        }
    }
    Word {
        bytes,
        tag: Tag::Plain,
    }
}
