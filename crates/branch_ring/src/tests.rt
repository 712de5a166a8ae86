//! Rings and profiles. The pairs are those of the first nine steps of a guest that counts down from 1, by hand.

use crate::profile::{Profile, profile_of};
use crate::ring::Ring;
use std::alloc::Global;
use std::test::Fail;

/// A ring that noted these.
fn ring_of(alloc: Global, room: usize, pairs: &[(u64, u64)]) -> Result<Ring, Fail> {
    let mut ring = Ring::new(alloc, room)?;
    for pair in pairs {
        ring.note(pair.0, pair.1);
    }
    Ok(ring)
}

const CALLED: (u64, u64) = (0x10000, 0x10010);

const AGAIN: (u64, u64) = (0x10018, 0x10014);

const THROUGH: (u64, u64) = (0x10018, 0x1001c);

const BACK: (u64, u64) = (0x10024, 0x10004);

#[test]
fn a_profile_has_each_pair_once(rt: HostRuntime) -> Result<(), Fail> {
    let alloc = rt.alloc();
    let ring = ring_of(alloc, 4, &[CALLED, AGAIN, THROUGH, BACK])?;
    let profile = profile_of(alloc, &[ring])?;
    let want = [
        (0x10000, 0x10010, 1),
        (0x10018, 0x10014, 1),
        (0x10018, 0x1001c, 1),
        (0x10024, 0x10004, 1),
    ];
    assert_eq!(rt; profile.counts(), want.as_slice());
    assert_eq!(rt; profile.len(), 4);
    assert_eq!(rt; profile.at(3).to, 0x10004);
    assert_eq!(rt; profile.copy(alloc)?.counts(), want.as_slice());
    Ok(())
}

#[test]
fn a_full_ring_forgets_its_oldest_pair(rt: HostRuntime) -> Result<(), Fail> {
    let alloc = rt.alloc();
    let ring = ring_of(alloc, 2, &[CALLED, AGAIN, THROUGH, BACK])?;
    assert_eq!(rt; ring.len(), 2);
    assert_eq!(rt; ring.at(0), THROUGH);
    assert_eq!(rt; ring.copy(alloc)?.at(1), BACK);
    let want = [(0x10018, 0x1001c, 1), (0x10024, 0x10004, 1)];
    assert_eq!(rt; profile_of(alloc, &[ring])?.counts(), want.as_slice());
    Ok(())
}

#[test]
fn a_pair_counts_for_each_hart(rt: HostRuntime) -> Result<(), Fail> {
    let alloc = rt.alloc();
    let one = ring_of(alloc, 4, &[BACK, AGAIN, AGAIN])?;
    let other = ring_of(alloc, 3, &[AGAIN, THROUGH])?;
    let want = [
        (0x10018, 0x10014, 3),
        (0x10018, 0x1001c, 1),
        (0x10024, 0x10004, 1),
    ];
    assert_eq!(rt; profile_of(alloc, &[one, other])?.counts(), want.as_slice());
    Ok(())
}

#[test]
fn a_ring_without_room_keeps_nothing(rt: HostRuntime) -> Result<(), Fail> {
    let alloc = rt.alloc();
    let ring = ring_of(alloc, 0, &[CALLED, AGAIN])?;
    assert_eq!(rt; ring.len(), 0);
    let profile = profile_of(alloc, &[ring])?;
    assert_eq!(rt; profile.counts(), Profile::empty(alloc).counts());
    assert_eq!(rt; profile.len(), 0);
    Ok(())
}
