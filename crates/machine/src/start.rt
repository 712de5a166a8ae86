//! What stands before the first step.
ghost use Rattle.std.specs.Prelude.{◌≡◌, ℕ, ◌+◌, ◌*◌, ◌/◌, ◌<◌, ◌≤◌, ◌%◌, length, map, true, false, OnOk, IfOk, All, codes};
ghost use Rattle.finite.specs.Maps.{contains, contains_all};
ghost use Rattle.image.specs.Picture.{IsPart};
ghost use Rattle.guest_mem.specs.Memory.{Memory, with_word, word_of, bytes_of};
ghost use Rattle.machine.specs.Loaded.{IsLoaded};
ghost use Rattle.guest_sys.specs.State.{pages};
ghost use Rattle.guest_sys.specs.Limits.{map_end};
ghost use Rattle.machine.specs.Start.{highest, end_of, break_of, with_bytes, with_part, with_parts, with_slot, with_slots, with_words, first_words, with_stack, start_memory, start_hart};

use crate::{NAME_AT, STACK_END, STACK_POINTER, STACK_START};
use finite::search::Spanned;
use guest_mem::memory::GuestMem;
use guest_mem::store::GuestStore;
use guest_mem::words::{Word, WordStore};
use hart::hart::{Hart, Status};
use image::picture::Image;
use image::ranges::{Aim, Part};
use link_tags::origins::Same;
use link_tags::value::{Tag, Value};
use oc_base::fault::NoMemory;
use oc_base::range::Range;
use std::alloc::Global;

/// Hart 0 before the first step.
pub fn start_hart(image: &Image) -> Hart
    ensures { result ≡ start_hart image.now }
{
    let mut regs = [Value::plain(0); 32];
    regs[2] = Value::plain(STACK_POINTER);
    Hart {
        regs,
        pc: image.entry(),
        reservation: None,
        status: Status::Live,
        clear: 0,
    }
}

/// Where the break starts: with the page behind the text, the data and the region.
pub fn break_of(image: &Image) -> u64
    ensures is { result ≡ break_of image.now }
    ensures whole { result % 4096 ≡ 0 }
    ensures low { result ≤ map_end }
{
    image.kept();
    let texts = highest_end(image.texts());
    let parts = highest_end(image.parts());
    let end = end_of(image.region()).max(texts).max(parts);
    4096 * ((end + 4095) / 4096)
}

fn end_of(range: Range) -> u64
    ensures { result ≡ end_of range }
{
    if range.from < range.to { range.to } else { 0 }
}

/// The highest end of some pieces of an image.
fn highest_end<T: Spanned>(pieces: &[T]) -> u64
    requires { All (λ x. T.end x ≤ 0x0800_0000) pieces.now }
    ensures end { result ≡ highest (map T.end pieces.now) }
    ensures low { result ≤ 0x0800_0000 }
{
    let mut highest = 0;
    for piece in pieces {
        highest = piece.end().max(highest);
    }
    highest
}

/// The memory before the first step.
pub fn start_memory(alloc: Global, image: &Image) -> Result<GuestMem, NoMemory>
    ensures is { IfOk result (λ m. m.contents ≡ start_memory image.now) }
    ensures loaded { IfOk result (λ m. IsLoaded image.now m.contents) }
{
    image.kept();
    memory_of(alloc, image)
}

#[tactic(auto, unfolding(crate::specs::Start::start_memory))]
fn memory_of(alloc: Global, image: &Image) -> Result<GuestMem, NoMemory>
    ensures { IfOk result (λ m. m.contents ≡ start_memory image.now) }
{
    image.kept();
    let mut memory = GuestMem::new(alloc)?;
    add_parts(&mut memory, image.parts())?;
    add_stack(&mut memory, image)?;
    link_slots(&mut memory, image)?;
    Ok(memory)
}

/// Writes bytes where all of them may be written, so that only want of memory can be in the way.
fn write_bytes(memory: &mut GuestMem, at: u64, bytes: &[u8]) -> Result<(), NoMemory>
    requires { contains_all memory.old.contents.writable at (length bytes.now) ≡ true }
    ensures { OnOk result (memory.new.contents ≡ with_bytes memory.old.contents at bytes.now) }
{
    match memory.put_bytes(at, bytes, &Same) {
        Ok(()) => Ok(()),
        Err(_) => Err(NoMemory),
    }
}

/// Adds a data part. While its bytes are written it may be written whatever its rights.
#[tactic(auto, using(crate::proofs::Loading::holds_none))]
fn add_part(memory: &mut GuestMem, part: &Part) -> Result<(), NoMemory>
    requires fit { IsPart part.now }
    requires plain { (w : ℕ) → contains memory.old.contents.links w ≡ false }
    ensures is { OnOk result (memory.new.contents ≡ with_part part.now memory.old.contents) }
    ensures plain { OnOk result ((w : ℕ) → contains memory.new.contents.links w ≡ false) }
{
    GuestStore::map(memory, part.range, true, true)?;
    write_bytes(memory, part.range.from, part.bytes.as_slice())?;
    GuestStore::set_rights(memory, part.range, part.read, part.write)?;
    Ok(())
}

fn add_parts(memory: &mut GuestMem, parts: &[Part]) -> Result<(), NoMemory>
    requires fit { All IsPart parts.now }
    requires plain { (w : ℕ) → contains memory.old.contents.links w ≡ false }
    ensures is { OnOk result (memory.new.contents ≡ with_parts parts.now memory.old.contents) }
    ensures plain { OnOk result ((w : ℕ) → contains memory.new.contents.links w ≡ false) }
{
    for part in parts {
        add_part(memory, part)?;
    }
    Ok(())
}

/// Writes words of 8 bytes.
fn write_words(memory: &mut GuestMem, from: u64, words: &[u64]) -> Result<(), NoMemory>
    requires { from + 8 * length words.now ≤ 0x1000_0000 }
    ensures { OnOk result (memory.new.contents ≡ with_words from words.now memory.old.contents) }
{
    let mut at = from;
    for word in words {
        write_word(memory, at, *word)?;
        at += 8;
    }
    Ok(())
}

#[tactic(auto, unfolding(guest_mem::specs::Memory::bytes_of))]
fn write_word(memory: &mut GuestMem, at: u64, number: u64) -> Result<(), NoMemory>
    requires { at < 0x1000_0000 }
    ensures { OnOk result (memory.new.contents ≡ with_word memory.old.contents (at / 8) (record { bytes = bytes_of number; tag = Tag.Plain })) }
{
    let word = Word {
        bytes: number.to_le_bytes(),
        tag: Tag::Plain,
    };
    memory.set_word(at / 8, word)
}

/// Adds the stack.
#[tactic(auto, using(crate::proofs::Loading::all_marked, crate::proofs::Loading::holds_none))]
fn add_stack(memory: &mut GuestMem, image: &Image) -> Result<(), NoMemory>
    requires { (w : ℕ) → contains memory.old.contents.links w ≡ false }
    ensures { OnOk result (memory.new.contents ≡ with_stack image.now memory.old.contents) }
{
    let stack = Range {
        from: STACK_START,
        to: STACK_END,
    };
    GuestStore::map(memory, stack, true, true)?;
    write_bytes(memory, NAME_AT, b"guest")?;
    let (headers, count) = image.headers();
    let words = [
        1,
        NAME_AT,
        0,
        0,
        3,
        headers,
        4,
        56,
        5,
        count,
        6,
        4096,
        9,
        image.entry(),
        0,
        0,
    ];
    write_words(memory, STACK_POINTER, &words)
}

/// Makes the word of a slot a link, with the number that stands there.
#[tactic(auto, using(crate::proofs::Loading::slot_linked))]
fn link_slot(memory: &mut GuestMem, slot: Aim) -> Result<(), NoMemory>
    requires { slot.at < 0x1000_0000 }
    ensures { OnOk result (memory.new.contents ≡ with_slot slot memory.old.contents) }
{
    let bytes = memory.word(slot.at / 8).bytes;
    let link = Word {
        bytes,
        tag: Tag::Link,
    };
    memory.set_word(slot.at / 8, link)
}

#[tactic(auto, using(crate::proofs::Slots::slots_low))]
fn link_slots(memory: &mut GuestMem, image: &Image) -> Result<(), NoMemory>
    ensures { OnOk result (memory.new.contents ≡ with_slots image.now.slots memory.old.contents) }
{
    image.kept();
    link_all(memory, image.slots())
}

fn link_all(memory: &mut GuestMem, slots: &[Aim]) -> Result<(), NoMemory>
    requires { All (λ s. s.at < 0x1000_0000) slots.now }
    ensures { OnOk result (memory.new.contents ≡ with_slots slots.now memory.old.contents) }
{
    for slot in slots {
        link_slot(memory, *slot)?;
    }
    Ok(())
}
