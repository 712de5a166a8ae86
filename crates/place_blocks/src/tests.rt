//! Orders of small functions, as an independent implementation gives them; each was followed by hand too.

ghost use Rattle.std.specs.Prelude.{◌<◌, length, IfOk};
ghost use Rattle.place_blocks.specs.Inputs.{AreBlocks};

use crate::chain::chain;
use blocks::run::{Block, Blocks};
use branch_ring::profile::{Profile, profile_of};
use branch_ring::ring::Ring;
use oc_base::range::Range;
use std::alloc::Global;
use std::test::Fail;

/// Blocks of 16 bytes, one after another.
fn blocks_of(alloc: Global, falls: &[bool]) -> Result<Vec<Block>, Fail>
    requires { length falls.now < 100 }
    ensures { IfOk result (λ blocks. AreBlocks blocks.items) }
{
    let mut blocks = Vec::new(alloc);
    for i in 0..falls.len() {
        let from = 0x10000 + 16 * i as u64;
        blocks.push(Block {
            range: Range {
                from,
                to: from + 16,
            },
            falls: falls[i],
        })?;
    }
    Ok(blocks)
}

/// Notes that the second word of a block went to the start of another, so many times.
fn note_often(ring: &mut Ring, from: u8, to: u8, times: u8) {
    for _ in 0..times {
        ring.note(0x10004 + 16 * u64::from(from), 0x10000 + 16 * u64::from(to));
    }
}

/// The profile of pairs of blocks, each with its count.
fn profile_for(alloc: Global, pairs: &[(u8, u8, u8)]) -> Result<Profile, Fail> {
    let mut ring = Ring::new(alloc, 100)?;
    for (from, to, times) in pairs {
        note_often(&mut ring, *from, *to, *times);
    }
    // never so: it has room for 100
    if ring.len() > 100 {
        return Ok(Profile::empty(alloc));
    }
    Ok(profile_of(alloc, &[ring])?)
}

fn is_order(
    alloc: Global,
    falls: &[bool],
    pairs: &[(u8, u8, u8)],
    want: &[u32],
) -> Result<bool, Fail>
    requires { length falls.now < 100 }
{
    let blocks = Blocks::of(blocks_of(alloc, falls)?);
    let profile = profile_for(alloc, pairs)?;
    let order = chain(alloc, &blocks, &profile)?;
    Ok(order.as_slice() == want)
}

#[test]
fn blocks_stay_where_no_pair_is_known(rt: HostRuntime) -> Result<(), Fail> {
    assert!(rt; is_order(rt.alloc(), &[true, true, true], &[], &[0, 1, 2])?);
    Ok(())
}

#[test]
fn of_two_blocks_that_follow_alike_the_lesser_is_joined(rt: HostRuntime) -> Result<(), Fail> {
    let pairs = [(0, 2, 2), (0, 1, 2)];
    assert!(rt; is_order(rt.alloc(), &[false; 3], &pairs, &[0, 1, 2])?);
    Ok(())
}

#[test]
fn of_two_blocks_that_lead_alike_the_lesser_is_joined(rt: HostRuntime) -> Result<(), Fail> {
    let pairs = [(2, 3, 2), (1, 3, 2)];
    assert!(rt; is_order(rt.alloc(), &[false; 4], &pairs, &[0, 1, 3, 2])?);
    Ok(())
}

#[test]
fn nothing_comes_before_block_0(rt: HostRuntime) -> Result<(), Fail> {
    let pairs = [(2, 0, 3), (0, 2, 1)];
    assert!(rt; is_order(rt.alloc(), &[false; 3], &pairs, &[0, 2, 1])?);
    Ok(())
}

#[test]
fn chains_are_joined_at_their_ends(rt: HostRuntime) -> Result<(), Fail> {
    let pairs = [(0, 2, 3), (2, 1, 2), (0, 3, 1), (3, 1, 1)];
    assert!(rt; is_order(rt.alloc(), &[false; 4], &pairs, &[0, 2, 1, 3])?);
    Ok(())
}

#[test]
fn a_fall_counts_as_often_as_its_block_is_entered(rt: HostRuntime) -> Result<(), Fail> {
    let pairs = [(0, 1, 2), (1, 3, 1)];
    assert!(rt;
        is_order(
            rt.alloc(),
            &[false, true, false, false],
            &pairs,
            &[0, 1, 2, 3]
        )?
    );
    Ok(())
}

#[test]
fn the_others_come_by_heat_and_then_by_their_least_blocks(rt: HostRuntime) -> Result<(), Fail> {
    let one = [(4, 3, 2), (2, 0, 3), (1, 1, 2)];
    assert!(rt; is_order(rt.alloc(), &[false; 5], &one, &[0, 2, 1, 4, 3])?);
    let other = [(4, 1, 2), (3, 3, 1), (2, 2, 2)];
    assert!(rt; is_order(rt.alloc(), &[false; 5], &other, &[0, 4, 1, 2, 3])?);
    Ok(())
}
