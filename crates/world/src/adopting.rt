//! What a hart did out of the world, in its counts and rings.

ghost use Rattle.std.specs.Prelude.{◌≡◌};
ghost use Rattle.world.specs.Adopting.{more_by, with_transfers};

use crate::rings::Rings;

/// A count after `n` more, which stays at the greatest number of 64 bits.
#[tactic(auto, using(crate::proofs::Flights::more_by_is))]
pub fn more_by(n: u64, count: u64) -> u64
    ensures { result ≡ more_by n count }
{
    count.saturating_add(n)
}

/// Notes transfers of hart `h`, one after another. It takes no memory.
pub fn note_all(rings: &mut Rings, h: u32, transfers: &[(u64, u64)])
    ensures { rings.new ≡ with_transfers h transfers.now rings.old }
{
    for &transfer in transfers {
        rings.note(h, Some(transfer));
    }
}
