//! Layouts by their bases.

ghost use Rattle.std.specs.Prelude.{◌≡◌, ◌+◌, ◌≤◌, ◌<◌, ◌++◌, ℕ, List, length, AllPairs, IfSome, Some};
ghost use Rattle.std.specs.Vec.{vec_capacity};
ghost use Rattle.std.specs.List.Sorted.{IsNonDecreasingBy, IsPermutation};
ghost use Rattle.layout.specs.Laid.{Laid};
ghost use Rattle.layout.specs.Apart.{AreApart, LiesIn};
ghost use Rattle.layout.specs.Bases.{base_of, place_of, places_from, ArePlaces};

use crate::layout::Layout;
use finite::search::{Keyed, keys_up_to};

/// Where a layout begins, and its position in a list of layouts.
#[derive(Clone, Copy)]
pub struct Place {
    pub base: u64,
    pub position: usize,
}

impl Keyed for Place {
    ghost use Rattle.layout.specs.Bases.{base_of};

    ghost key = { base_of };

    fn key(&self) -> u64 {
        self.base
    }
}

/// Notes the place of a layout, if it has words. It takes no memory.
fn note(places: &mut Vec<Place>, layout: &Layout, position: usize)
    requires { length places.old.items < vec_capacity places.old }
    ensures items { places.new.items ≡ places.old.items ++ place_of position layout.now }
    ensures len { length places.new.items ≤ length places.old.items + 1 }
    ensures capacity { vec_capacity places.new ≡ vec_capacity places.old }
{
    if layout.words().len() == 0 {
        return;
    }
    places.push_reserved(Place {
        base: layout.base(),
        position,
    });
}

/// Notes the places of all layouts in the order of the list.
fn note_all(places: &mut Vec<Place>, lives: &[Layout])
    requires { length lives.now ≤ vec_capacity places.old }
    ensures items { places.new.items ≡ places_from 0 lives.now }
    ensures capacity { vec_capacity places.new ≡ vec_capacity places.old }
{
    places.clear();
    for position in 0..lives.len() {
        note(places, &lives[position], position);
    }
}

fn sort(places: &mut Vec<Place>)
    ensures rises { IsNonDecreasingBy base_of places.new.items }
    ensures same { IsPermutation places.old.items places.new.items }
    ensures capacity { vec_capacity places.new ≡ vec_capacity places.old }
{
    places.sort_unstable_by_key(|place| place.base);
}

/// Finds the places of all layouts anew. It takes no memory.
pub fn place_all(places: &mut Vec<Place>, lives: &[Layout])
    requires { length lives.now ≤ vec_capacity places.old }
    ensures are { ArePlaces lives.now places.new.items }
    ensures capacity { vec_capacity places.new ≡ vec_capacity places.old }
{
    note_all(places, lives);
    sort(places);
}

/// The position of the last layout, by base, that begins at an address or before it. Where layouts lie apart, no other one holds the
/// address.
pub fn nearest(places: &[Place], at: u64) -> Option<usize>
    requires { IsNonDecreasingBy base_of places.now }
    ensures only { (lives : List Laid) → ArePlaces lives places.now → AreApart lives → (k : ℕ) → LiesIn lives at k → result ≡ Some k }
    ensures within { (lives : List Laid) → ArePlaces lives places.now → IfSome result (λ k. k < length lives) }
{
    let before = keys_up_to(places, at);
    if before == 0 {
        return None;
    }
    Some(places[before - 1].position)
}
