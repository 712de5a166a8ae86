//! The region for moved code, as a word gives it.

ghost use Rattle.std.specs.Prelude.{◌≡◌, ◌<◌, ◌^◌, Some, IfSome};
ghost use Rattle.image.specs.Picture.{IsPaged};
ghost use Rattle.command_words.specs.Numbers.{region_from, region_of};

use crate::number::number_of;
use crate::{LARGEST_REGION, PAGE};
use oc_base::range::Range;

#[tactic(auto, unfolding(crate::specs::Numbers::region_from))]
fn region_from(base: u64, size: u64) -> Option<Range>
    requires { base < 10 ^ 10 }
    ensures value { result ≡ region_from (Some base) (Some size) }
    ensures pages { IfSome result IsPaged }
{
    if base % PAGE != 0 || size % PAGE != 0 || size < PAGE || size > LARGEST_REGION {
        return None;
    }
    Some(Range {
        from: base,
        to: base + size,
    })
}

/// The region that `BASE:SIZE` names: `SIZE` bytes from `BASE` on, whole pages both.
pub fn region_of(text: &str) -> Option<Range>
    ensures value { result ≡ region_of text.now }
    ensures pages { IfSome result IsPaged }
{
    let Some((base, size)) = text.split_once(':') else {
        return None;
    };
    let Some(base) = number_of(base.as_bytes()) else {
        return None;
    };
    let Some(size) = number_of(size.as_bytes()) else {
        return None;
    };
    region_from(base, size)
}
