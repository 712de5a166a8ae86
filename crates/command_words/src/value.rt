//! What the values of arguments write.

ghost use Rattle.std.specs.Prelude.{◌≡◌, ◌≤◌, IfSome, option_map};
ghost use Rattle.image.specs.Picture.{IsPaged};
ghost use Rattle.command_words.specs.Values.{is_used, region_in, ring_in, number_in, number_within, most_transfers};

use crate::number::number_of;
use crate::region::region_of;
use crate::{LARGEST_RING, USUAL_RING};
use oc_base::range::Range;

/// The region of the option's value. Without the option there is none.
pub fn region_in(value: Option<&str>) -> Option<Option<Range>>
    ensures value { result ≡ region_in (option_map (λ v. v.now) value.entry) }
    ensures pages { IfSome result (λ region. IfSome region IsPaged) }
{
    let Some(text) = value else {
        return Some(None);
    };
    let Some(region) = region_of(text) else {
        return None;
    };
    Some(Some(region))
}

/// The number that a text writes, if it is from `least` to `most`.
#[tactic(auto, unfolding(crate::specs::Values::number_within))]
pub fn number_within(text: &str, least: u32, most: u32) -> Option<u32>
    ensures value { result ≡ number_within least most text.now }
    ensures range { IfSome result (λ n. (least ≤ n) × (n ≤ most)) }
{
    let Some(number) = number_of(text.as_bytes()) else {
        return None;
    };
    if number < least as u64 || number > most as u64 {
        return None;
    }
    Some(number as u32)
}

/// The number of the option's value, or the usual one without the option.
pub fn number_in(value: Option<&str>, least: u32, most: u32, usual: u32) -> Option<u32>
    requires { (least ≤ usual) × (usual ≤ most) }
    ensures value { result ≡ number_in least most usual (option_map (λ v. v.now) value.entry) }
    ensures range { IfSome result (λ n. (least ≤ n) × (n ≤ most)) }
{
    match value {
        Some(text) => number_within(text, least, most),
        None => Some(usual),
    }
}

/// How many transfers of each hart are kept, by the option's value.
pub fn ring_in(value: Option<&str>) -> Option<u32>
    ensures value { result ≡ ring_in (option_map (λ v. v.now) value.entry) }
    ensures range { IfSome result (λ n. (1 ≤ n) × (n ≤ most_transfers)) }
{
    number_in(value, 1, LARGEST_RING, USUAL_RING)
}

/// Whether a flag was used. Its value is `true` or `false`.
pub fn is_used(value: Option<&str>) -> bool
    ensures { result ≡ is_used (option_map (λ v. v.now) value.entry) }
{
    match value {
        Some(text) => text == "true",
        None => false,
    }
}
