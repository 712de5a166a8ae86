//! Orders of functions. A row is a guest, transfers as `from>to`, some with how often they are made, at its end maybe a function that is
//! left out, and the order of the others. What is wanted was told by an independent implementation.

ghost use Rattle.std.specs.Prelude.{◌<◌, All, AllPairs, IfOk};

use branch_ring::profile::{Profile, profile_of};
use branch_ring::ring::Ring;
use cases::orders::number;
use cases::rows::{check, separate};
use image::picture::Image;
use place_funcs::closest::closest;
use std::alloc::{AllocError, Global};
use std::test::Fail;

/// The number that hexadecimal digits say.
fn address(word: &str) -> u64 {
    u64::from_str_radix(word, 16).unwrap_or(u64::MAX)
}

/// Notes a transfer as often as a word such as `10018>10014*3` says.
fn note(ring: &mut Ring, word: &str) {
    let (pair, times) = word.split_once('*').unwrap_or((word, "1"));
    let (from, to) = pair.split_once('>').unwrap_or(("", ""));
    for _ in 0..number(times) {
        ring.note(address(from), address(to));
    }
}

/// The profile of some transfers.
fn profile(alloc: Global, transfers: &str) -> Result<Profile, Fail> {
    let mut ring = Ring::new(alloc, 64)?;
    for word in transfers.split_whitespace() {
        note(&mut ring, word);
    }
    if ring.len() > 64 {
        return Err(Fail::new("too many"));
    }
    Ok(profile_of(alloc, &[ring])?)
}

/// The numbers below an end but for one.
fn all_but(alloc: Global, end: u32, without: u32) -> Result<Vec<u32>, AllocError>
    ensures rise { IfOk result (λ v. AllPairs (λ f g. f < g) v.items) }
    ensures below { IfOk result (λ v. All (λ f. f < end) v.items) }
{
    let mut numbers = Vec::new(alloc);
    for f in 0..end {
        if f != without {
            numbers.push(f)?;
        }
    }
    Ok(numbers)
}

/// Numbers with a space between each two.
fn listed(alloc: Global, numbers: &[u32]) -> Result<String, AllocError> {
    let mut text = String::new(alloc);
    for number in numbers {
        separate(&mut text, " ")?;
        text.push_str(&format!(in alloc; "{number}")?)?;
    }
    Ok(text)
}

/// The order for transfers such as `10000>1000c*3`, or `10000>1000c*3 but 2`.
fn ordered(alloc: Global, image: &Image, case: &str) -> Result<String, Fail> {
    let (transfers, without) = case.split_once(" but ").unwrap_or((case, ""));
    let profile = profile(alloc, transfers)?;
    image.kept();
    let funcs = all_but(alloc, image.funcs().len() as u32, number(without))?;
    let order = closest(alloc, image, &funcs, &profile)?;
    Ok(listed(alloc, &order)?)
}

const TIES: &str = "\
faults | 10014>10000*4 1001c>10000*4 10024>10000*4 1002c>10000*4 = 5 4 0 3 6 1 2
faults | 10000>1000c 1000c>10010 10010>10000 10014>10000*2 = 3 0 1 2 4 5 6
faults | 10000>1000c*9 10010>10014*8 1000c>10010*2 10004>10014*2 = 1 0 3 2 4 5 6
faults | 10000>10014*9 1000c>10010*8 10000>1000c*2 10004>10010*2 = 3 0 1 2 4 5 6";

#[test]
fn of_equal_weights_the_least_come_first(rt: HostRuntime) -> Result<(), Fail> {
    check(rt.alloc(), TIES, ordered)
}

const WEIGHTS: &str = "\
faults | 10000>1000c*9 10000>10010*3 1000c>10010*3 10010>10014*5 10000>10014*4 = 1 0 2 3 4 5 6
faults | 10024>10018*5 1001c>10020*5 10000>10004*2 = 4 5 0 1 2 3 6
faults | 10000>1000c*4 1000c>10010*9 10010>10014*3 but 1 = 0 2 3 4 5 6";

#[test]
fn starts_of_other_functions_join_and_every_transfer_heats(rt: HostRuntime) -> Result<(), Fail> {
    check(rt.alloc(), WEIGHTS, ordered)
}

const TURNS: &str = "\
faults | 10000>1002c*9 10004>10024*8 10008>1001c*7 10024>1001c*3 = 6 0 5 4 1 2 3
faults | 10000>1000c*9 1000c>10010*8 10010>10014*7 1000c>1001c*5 = 3 2 1 0 4 5 6
faults | 1000c>10010*9 10010>10014*8 10014>1001c*7 10000>10014*5 = 0 4 3 2 1 5 6
faults | 10000>1000c*9 1000c>10010*8 1000c>10014*5 = 0 1 2 3 4 5 6";

#[test]
fn groups_turn_only_where_their_heaviest_edge_gets_shorter(rt: HostRuntime) -> Result<(), Fail> {
    check(rt.alloc(), TURNS, ordered)
}
