//! Calls that move the break, map bytes and change their rights. All ranges are of whole pages.
ghost use Rattle.std.specs.Prelude.{◌≡◌, ℕ, ◌+◌, ◌≤◌, Some, None, if◌then◌else◌};
ghost use Rattle.guest_sys.specs.Limits.{map_end};
ghost use Rattle.guest_sys.specs.State.{pages};
ghost use Rattle.guest_sys.specs.Calls.{Does, brk, munmap, mmap, mprotect, is_mapping};

use crate::MAP_END;
use crate::answers::{Error, answer, failure};
use crate::effect::Effect;
use crate::flags::has;
use crate::state::Sys;
use guest_mem::PAGE;
use guest_mem::store::GuestStore;
use oc_base::fault::NoMemory;
use oc_base::range::Range;
use std::alloc::Global;

/// A number rounded up to whole pages.
fn pages(n: u64) -> u64
    requires { n ≤ map_end }
    ensures { result ≡ pages n }
{
    PAGE * ((n + (PAGE - 1)) / PAGE)
}

/// The pages from `at` on that hold `len` bytes, where they lie among those of mappings.
fn mapping(sys: &Sys, at: u64, len: u64) -> Option<Range>
    ensures { result ≡ (if is_mapping sys.now at (at + pages len) then Some (record { from = at; to = at + pages len }) else None) }
{
    sys.orderly();
    if at < sys.map_top() || at > MAP_END || len > MAP_END {
        return None;
    }
    let to = at + pages(len);
    if to > MAP_END {
        return None;
    }
    Some(Range { from: at, to })
}

/// Moves the break.
#[tactic(auto, unfolding(crate::specs::Calls::brk), using(crate::proofs::PageLaws::holds_whole_links))]
pub(crate) fn brk<M: GuestStore>(
    alloc: Global,
    sys: &mut Sys,
    mem: &mut M,
    to: u64,
) -> Result<Effect, NoMemory>
    ensures { (origin : ℕ → ℕ) → Does origin (λ see readable writable s. brk s to) sys.old sys.new (M.contents mem.old) (M.contents mem.new) result }
{
    sys.orderly();
    if to < sys.break_start() || to > sys.map_top() {
        return Ok(answer(alloc, sys.break_now()));
    }
    let before = pages(sys.break_now());
    let after = pages(to);
    if before < after {
        let gained = Range {
            from: before,
            to: after,
        };
        mem.map(gained, true, true)?;
    } else if after < before {
        let given_up = Range {
            from: after,
            to: before,
        };
        mem.unmap(given_up)?;
    }
    sys.set_break(to);
    Ok(answer(alloc, to))
}

/// Gives pages of mappings up.
#[tactic(auto, unfolding(crate::specs::Calls::munmap), using(crate::proofs::PageLaws::holds_whole_links))]
pub(crate) fn munmap<M: GuestStore>(
    alloc: Global,
    sys: &mut Sys,
    mem: &mut M,
    at: u64,
    len: u64,
) -> Result<Effect, NoMemory>
    ensures { (origin : ℕ → ℕ) → Does origin (λ see readable writable s. munmap s at len) sys.old sys.new (M.contents mem.old) (M.contents mem.new) result }
{
    if at % PAGE != 0 || len == 0 {
        return Ok(failure(alloc, Error::Invalid));
    }
    let Some(range) = mapping(sys, at, len) else {
        return Ok(failure(alloc, Error::Invalid));
    };
    sys.orderly();
    mem.unmap(range)?;
    if at == sys.map_top() {
        sys.set_map_top(range.to);
    }
    Ok(answer(alloc, 0))
}

/// Maps pages below all mappings.
#[tactic(auto, unfolding(crate::specs::Calls::mmap), using(crate::proofs::PageLaws::holds_whole_links))]
pub(crate) fn mmap<M: GuestStore>(
    alloc: Global,
    sys: &mut Sys,
    mem: &mut M,
    len: u64,
    rights: u64,
    flags: u64,
) -> Result<Effect, NoMemory>
    ensures { (origin : ℕ → ℕ) → Does origin (λ see readable writable s. mmap s len rights flags) sys.old sys.new (M.contents mem.old) (M.contents mem.new) result }
{
    if len == 0 || !has(flags, 0x20) || has(flags, 0x10) {
        return Ok(failure(alloc, Error::Invalid));
    }
    if has(rights, 4) {
        return Ok(failure(alloc, Error::Denied));
    }
    sys.orderly();
    let top = sys.map_top();
    if len > MAP_END || pages(sys.break_now()) + pages(len) > top {
        return Ok(failure(alloc, Error::NoRoom));
    }
    let range = Range {
        from: top - pages(len),
        to: top,
    };
    mem.map(range, has(rights, 1), has(rights, 2))?;
    sys.set_map_top(range.from);
    Ok(answer(alloc, range.from))
}

/// Gives pages of mappings other rights.
#[tactic(auto, unfolding(crate::specs::Calls::mprotect))]
pub(crate) fn mprotect<M: GuestStore>(
    alloc: Global,
    sys: &Sys,
    mem: &mut M,
    at: u64,
    len: u64,
    rights: u64,
) -> Result<Effect, NoMemory>
    ensures { (origin : ℕ → ℕ) → Does origin (λ see readable writable s. mprotect s at len rights) sys.now sys.now (M.contents mem.old) (M.contents mem.new) result }
{
    if at % PAGE != 0 {
        return Ok(failure(alloc, Error::Invalid));
    }
    if has(rights, 4) {
        return Ok(failure(alloc, Error::Denied));
    }
    if let Some(range) = mapping(sys, at, len) {
        mem.set_rights(range, has(rights, 1), has(rights, 2))?;
    }
    Ok(answer(alloc, 0))
}
