//! What stands now against what was brought.

ghost use Rattle.std.specs.Prelude.{◌≡◌, [], ◌∷◌, length, option_map};
ghost use Rattle.sim_laws.specs.Origins.{origin};
ghost use Rattle.world.specs.Worlds.{code_of};
ghost use Rattle.ahead.specs.Notes.{yes_no, tag_number, word_number, kind_number, first_apart, aimed_at, compared_aim, compared_note, compared_notes};
ghost use Rattle.ahead.specs.Flown.{compared_values, stranger_of};

use crate::home::Stranger;
use crate::note::{Aimed, Note, original_of};
use layout::point::Point;
use link_tags::value::{Tag, Value};
use world::world::World;

/// Two numbers, where they differ.
#[inline]
pub fn differ(kept: u64, brought: u64) -> Option<Stranger>
    ensures { result ≡ option_map stranger_of (first_apart ((kept, brought) ∷ [])) }
{
    if kept == brought {
        return None;
    }
    Some(Stranger { kept, brought })
}

#[inline]
fn yes_no(b: bool) -> u64
    ensures { result ≡ yes_no b }
{
    if b { 1 } else { 0 }
}

#[inline]
fn tag_number(tag: Tag) -> u64
    ensures { result ≡ tag_number tag }
{
    match tag {
        Tag::Plain => 0,
        Tag::Link => 1,
    }
}

// no word is no number of 32 bits
#[inline]
fn word_number(word: Option<u32>) -> u64
    ensures { result ≡ word_number word }
{
    match word {
        Some(word) => u64::from(word),
        None => 4_294_967_296,
    }
}

#[inline]
fn kind_number(point: Option<Point>) -> u64
    ensures { result ≡ kind_number point }
{
    match point {
        Some(Point::Start(_)) => 0,
        Some(Point::Hop(_)) => 1,
        Some(Point::Mid(_)) => 2,
        None => 3,
    }
}

/// A register, by its number and then its tag.
#[inline]
#[tactic(auto, using(crate::proofs::FirstApart::then_differ))]
fn apart_value(kept: Value, brought: Value) -> Option<Stranger>
    ensures { result ≡ option_map stranger_of (first_apart ((kept.number, brought.number) ∷ (tag_number kept.tag, tag_number brought.tag) ∷ [])) }
{
    differ(kept.number, brought.number).or(differ(tag_number(kept.tag), tag_number(brought.tag)))
}

/// As many registers, one after another.
pub fn apart_values(kept: &[Value], brought: &[Value]) -> Option<Stranger>
    requires { length kept.now ≡ length brought.now }
    ensures { result ≡ option_map stranger_of (first_apart (compared_values kept.now brought.now)) }
{
    for i in 0..kept.len() {
        if let Some(found) = apart_value(kept[i], brought[i]) {
            return Some(found);
        }
    }
    None
}

/// Where an indirect jump goes by the code of a world.
#[tactic(auto, unfolding(sim_laws::specs::Origins::origin))]
fn aimed_at(world: &World, recent: &mut usize, aim: &Aimed) -> u64
    ensures { result ≡ aimed_at (code_of world.now) aim.now }
{
    match aim.tag {
        Tag::Plain => aim.to,
        Tag::Link => original_of(aim.to, world.look(recent, aim.to).point),
    }
}

fn apart_aim(world: &World, recent: &mut usize, aim: &Aimed) -> Option<Stranger>
    ensures { result ≡ option_map stranger_of (first_apart (compared_aim world.now.image (code_of world.now) (Some aim.now))) }
{
    let to = aimed_at(world, recent, aim);
    let in_text = world.image().in_text(to);
    let is_second = world.image().second_of_pair(to);
    differ(to, aim.original)
        .or(differ(yes_no(in_text), yes_no(aim.in_text)))
        .or(differ(yes_no(is_second), yes_no(aim.is_second)))
}

/// What stands at the place of a note, and the note.
#[tactic(auto, unfolding(sim_laws::specs::Origins::origin))]
fn apart_note(world: &World, recent: &mut usize, note: &Note) -> Option<Stranger>
    ensures { result ≡ option_map stranger_of (first_apart (compared_note world.now.image (code_of world.now) note.now)) }
{
    let looked = world.look(recent, note.at);
    let aim = match &note.aim {
        Some(aim) => apart_aim(world, recent, aim),
        None => None,
    };
    let place = original_of(note.at, looked.point);
    let noted = original_of(note.at, Some(note.point));
    differ(word_number(looked.word), u64::from(note.word))
        .or(differ(place, noted))
        .or(differ(kind_number(looked.point), kind_number(Some(note.point))))
        .or(aim)
}

/// Notes, one after another.
pub fn apart_notes(world: &World, notes: &[Note]) -> Option<Stranger>
    ensures { result ≡ option_map stranger_of (first_apart (compared_notes world.now.image (code_of world.now) notes.now)) }
{
    let mut recent = 0;
    for note in notes {
        if let Some(found) = apart_note(world, &mut recent, note) {
            return Some(found);
        }
    }
    None
}
