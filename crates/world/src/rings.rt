//! The last transfers of each hart.

ghost use Rattle.std.specs.Prelude.{◌≡◌, ◌<◌, ◌≤◌, ◌^◌, IfOk, length};
ghost use Rattle.branch_ring.specs.Profiles.{IsProfile, all_pairs, pair_count};
ghost use Rattle.world.specs.Rings.{empty_rings, with_transfer};

use branch_ring::profile::{Profile, profile_of};
use branch_ring::ring::Ring;
use guest_sys::HART_LIMIT;
use oc_base::fault::NoMemory;
use std::alloc::Global;
use std::marker::Model;

/// A ring for each hart that a run may make, so that a step needs none.
#[derive(Drop)]
pub struct Rings {
    list: Vec<Ring>,
}

impl Model for Rings {
    ghost use Rattle.std.specs.Prelude.{List, length, ◌≤◌, ◌<◌, ◌^◌, All};
    ghost use Rattle.branch_ring.specs.Rings.{Notes};
    ghost use Rattle.guest_sys.specs.Limits.{hart_limit};

    ghost Value = { List Notes };

    ghost view = { λ s. s.list.items };

    // no ring keeps more than fits, so that all pairs can be counted
    ghost invariant = { λ s. (length s.list.items ≤ hart_limit) × All (λ r. (length r.pairs ≤ r.room) × (r.room < 2 ^ 32)) s.list.items };
}

impl Rings {
    /// Empty rings, with room for so many transfers each. All memory of theirs is taken here.
    pub fn start(alloc: Global, ring: u32) -> Result<Rings, NoMemory>
        ensures { IfOk result (λ s. s ≡ empty_rings ring) }
    {
        let mut list = Vec::with_capacity(alloc, HART_LIMIT as usize)?;
        for _h in 0..HART_LIMIT {
            list.push(Ring::new(alloc, ring as usize)?)?;
        }
        Ok(Rings { list })
    }

    /// Notes the transfer of hart `h`, if it made one. It takes no memory.
    #[inline(always)]
    pub fn note(&mut self, h: u32, transfer: Option<(u64, u64)>)
        ensures { self.new ≡ with_transfer h transfer self.old }
    {
        let Some((from, to)) = transfer else {
            return;
        };
        if (h as usize) < self.list.len() {
            self.list[h as usize].note(from, to);
        }
    }

    /// How often each transfer that is kept was made.
    pub fn profile(&self, alloc: Global) -> Result<Profile, NoMemory>
        ensures { IfOk result (λ p. IsProfile (all_pairs self.now) p) }
    {
        profile_of(alloc, &self.list)
    }
}
