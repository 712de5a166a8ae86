//! The line of a function.

ghost use Rattle.std.specs.Prelude.{◌≡◌, ◌==◌, ◌<◌, ◌+◌, ◌^◌, ◌++◌, length, count_by, slice_get, Some, string_bytes, OnOk};
ghost use Rattle.std.specs.List.{slice_index_or};
ghost use Rattle.blocks.specs.Faults.{fault_of};
ghost use Rattle.blocks.specs.declared.fault.Unreadable.{Unreadable};
ghost use Rattle.looking.specs.Pieces.{address};
ghost use Rattle.looking.specs.Functions.{name_of, aims_at, why_text, counts_text, still_text, head_text, moved_text, func_line, func_lines};

use crate::piece::{push_address, push_name, push_range};
use blocks::fault::Unreadable;
use blocks::index::FuncIndex;
use image::picture::Image;
use image::ranges::{Aim, Func};
use oc_base::fault::NoMemory;
use oc_base::items::Items;
use std::alloc::Global;
use std::fmt::Write;

/// The name of a function by its number; empty where there is none.
pub fn name_of(names: &[Items<u8>], n: u32) -> &[u8]
    ensures { result.now ≡ name_of names.now n }
{
    match names.get(n as usize) {
        Some(name) => name.as_slice(),
        None => &[],
    }
}

fn aims_at(n: u32, aims: &[Aim]) -> usize
    ensures { result ≡ aims_at n aims.now }
{
    aims.iter().filter(|s| s.func == n).count()
}

fn push_around(text: &mut String, before: &str, at: u64, after: &str) -> Result<(), NoMemory>
    ensures { OnOk result (string_bytes text.new ≡ string_bytes text.old ++ (before.now ++ address at ++ after.now)) }
{
    text.push_str(before)?;
    push_address(text, at)?;
    text.push_str(after)?;
    Ok(())
}

fn push_overlap(text: &mut String, func: u32) -> Result<(), NoMemory>
    ensures { OnOk result (string_bytes text.new ≡ string_bytes text.old ++ why_text (Unreadable.Overlap func)) }
{
    write!(text, "function {func} has an address of this one")?;
    Ok(())
}

/// Adds why a function can't be moved.
pub fn push_why(text: &mut String, why: Unreadable) -> Result<(), NoMemory>
    ensures { OnOk result (string_bytes text.new ≡ string_bytes text.old ++ why_text why) }
{
    match why {
        Unreadable::Undecodable(at) => {
            push_around(text, "the word at ", at, " reads as no instruction")
        }
        Unreadable::BranchOut(at) => push_around(text, "branch at ", at, " leaves the function"),
        Unreadable::Misaimed(at) => push_around(text, "jump at ", at, " goes to no multiple of 4"),
        Unreadable::Overlap(func) => push_overlap(text, func),
        Unreadable::NoMemory => {
            text.push_str("out of memory")?;
            Ok(())
        }
    }
}

fn push_still(text: &mut String, why: Unreadable) -> Result<(), NoMemory>
    ensures { OnOk result (string_bytes text.new ≡ string_bytes text.old ++ still_text why) }
{
    text.push_str("not moved: ")?;
    push_why(text, why)?;
    text.push('\n')?;
    Ok(())
}

// How many blocks a function has, and how many places name it.
fn push_counts(text: &mut String, image: &Image, n: u32, blocks: usize) -> Result<(), NoMemory>
    ensures { OnOk result (string_bytes text.new ≡ string_bytes text.old ++ counts_text image.now n blocks) }
{
    let sites = aims_at(n, image.sites());
    let pairs = aims_at(n, image.pairs());
    let slots = aims_at(n, image.slots());
    write!(text, "blocks {blocks} sites {sites}")?;
    writeln!(text, " pairs {pairs} slots {slots}")?;
    Ok(())
}

fn push_head(text: &mut String, n: u32, f: &Func, name: &[u8]) -> Result<(), NoMemory>
    ensures { OnOk result (string_bytes text.new ≡ string_bytes text.old ++ head_text n f.now name.now) }
{
    write!(text, "function {n} ")?;
    push_range(text, f.from, f.to)?;
    text.push(' ')?;
    push_name(text, name)?;
    text.push_str(": ")?;
    Ok(())
}

// What can be moved of a function and sent there, or why it can't be moved.
fn push_moved(
    alloc: Global,
    text: &mut String,
    index: &FuncIndex<'_>,
    n: u32,
) -> Result<(), NoMemory>
    requires { n < length index.now.image.now.funcs }
    ensures { OnOk result (string_bytes text.new ≡ string_bytes text.old ++ moved_text index.now.image.now n (fault_of index.now.image.now n)) }
{
    match index.runs(alloc, n) {
        Ok(runs) => push_counts(text, index.image, n, runs.len()),
        Err(Unreadable::NoMemory) => Err(NoMemory),
        Err(why) => push_still(text, why),
    }
}

/// Adds the line of the function `f`, which has number `n`.
pub(crate) fn push_func(
    alloc: Global,
    text: &mut String,
    index: &FuncIndex<'_>,
    names: &[Items<u8>],
    n: u32,
    f: &Func,
) -> Result<(), NoMemory>
    requires { n < length index.now.image.now.funcs }
    ensures { OnOk result (string_bytes text.new ≡ string_bytes text.old ++ func_line index.now.image.now names.now n f.now) }
{
    push_head(text, n, f, name_of(names, n))?;
    push_moved(alloc, text, index, n)
}

/// Adds the lines of all functions.
#[tactic(auto, using(crate::proofs::Lines::funcs_more, crate::proofs::Lines::funcs_done))]
pub(crate) fn push_funcs(
    alloc: Global,
    text: &mut String,
    index: &FuncIndex<'_>,
    names: &[Items<u8>],
) -> Result<(), NoMemory>
    ensures { OnOk result (string_bytes text.new ≡ string_bytes text.old ++ func_lines index.now.image.now names.now 0 index.now.image.now.funcs) }
{
    index.image.kept();
    let funcs = index.image.funcs();
    for n in 0..funcs.len() {
        push_func(alloc, text, index, names, n as u32, &funcs[n])?;
    }
    Ok(())
}
