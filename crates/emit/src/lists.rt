//! The points of a layout, and its calls.

ghost use Rattle.std.specs.Prelude.{◌≡◌, ◌++◌, ◌+◌, ◌*◌, ◌≤◌, [], Some, IfOk, OnOk, map, length};
ghost use Rattle.std.specs.List.{cons_option};
ghost use Rattle.std.specs.Option.{option_map};
ghost use Rattle.layout.specs.Alone.{called_at};
ghost use Rattle.layout.specs.Points.{site_of, second_of};
ghost use Rattle.emit.specs.Placed.{point_of, call_at, calls_in};

use crate::entry::Entry;
use image::picture::Image;
use image::ranges::Aim;
use layout::calls::{second_of, site_of};
use layout::point::Point;
use oc_base::fault::NoMemory;
use std::alloc::Global;

/// What each word stands for.
pub fn points_of(alloc: Global, entries: &[Entry]) -> Result<Vec<Point>, NoMemory>
    ensures { IfOk result (λ out. out.items ≡ map point_of entries.now) }
{
    let mut out = Vec::with_capacity(alloc, entries.len())?;
    for e in entries {
        out.push(e.point)?;
    }
    Ok(out)
}

fn site_at(image: &Image, p: Point) -> Option<u32>
    ensures { result ≡ called_at (site_of image.now) (Some p) }
{
    match p {
        Point::Start(x) => site_of(image, x),
        Point::Hop(_) => None,
        Point::Mid(_) => None,
    }
}

fn second_at(image: &Image, p: Point) -> Option<u32>
    ensures { result ≡ called_at (second_of image.now) (Some p) }
{
    match p {
        Point::Start(x) => second_of(image, x),
        Point::Hop(_) => None,
        Point::Mid(_) => None,
    }
}

fn push_call(out: &mut Vec<Aim>, at: u64, call: Option<u32>) -> Result<(), NoMemory>
    ensures { OnOk result (out.new.items ≡ out.old.items ++ cons_option (option_map (call_at at) call) []) }
{
    match call {
        Some(func) => {
            out.push(Aim { at, func })?;
            Ok(())
        }
        None => Ok(()),
    }
}

/// The sites among the words of a layout.
#[tactic(auto, using(crate::proofs::Listed::calls_more))]
pub fn sites_in(
    alloc: Global,
    image: &Image,
    base: u64,
    entries: &[Entry],
) -> Result<Vec<Aim>, NoMemory>
    requires { base + 4 * length entries.now ≤ 0x08000000 }
    ensures { IfOk result (λ out. out.items ≡ calls_in (site_of image.now) base entries.now) }
{
    let mut out = Vec::new(alloc);
    for i in 0..entries.len() {
        push_call(
            &mut out,
            base + 4 * i as u64,
            site_at(image, entries[i].point),
        )?;
    }
    Ok(out)
}

/// The second words of pairs among the words of a layout.
#[tactic(auto, using(crate::proofs::Listed::calls_more))]
pub fn pairs_in(
    alloc: Global,
    image: &Image,
    base: u64,
    entries: &[Entry],
) -> Result<Vec<Aim>, NoMemory>
    requires { base + 4 * length entries.now ≤ 0x08000000 }
    ensures { IfOk result (λ out. out.items ≡ calls_in (second_of image.now) base entries.now) }
{
    let mut out = Vec::new(alloc);
    for i in 0..entries.len() {
        push_call(
            &mut out,
            base + 4 * i as u64,
            second_at(image, entries[i].point),
        )?;
    }
    Ok(out)
}
