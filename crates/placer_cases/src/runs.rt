//! Profiles of transfers as text.

use branch_ring::profile::{Profile, profile_of};
use branch_ring::ring::Ring;
use cases::orders::number;
use std::alloc::Global;
use std::test::Fail;

/// The number that hexadecimal digits say.
fn address(word: &str) -> u64 {
    u64::from_str_radix(word, 16).unwrap_or(u64::MAX)
}

/// Notes a transfer as often as a word such as `10018>10014*3` says.
fn note(ring: &mut Ring, word: &str) {
    let (pair, times) = word.split_once('*').unwrap_or((word, "1"));
    let (from, to) = pair.split_once('>').unwrap_or(("", ""));
    for _ in 0..number(times) {
        ring.note(address(from), address(to));
    }
}

/// The profile of some transfers.
pub fn profile_of_run(alloc: Global, transfers: &str) -> Result<Profile, Fail> {
    let mut ring = Ring::new(alloc, 64)?;
    for word in transfers.split_whitespace() {
        note(&mut ring, word);
    }
    if ring.len() > 1000 {
        return Err(Fail::new("too many"));
    }
    Ok(profile_of(alloc, &[ring])?)
}
