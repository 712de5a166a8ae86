//! Calls that make harts wait, wake them, or end them.
ghost use Rattle.std.specs.Prelude.{◌≡◌, ◌%◌, IfOk};
ghost use Rattle.guest_mem.specs.Access.{seen};
ghost use Rattle.guest_sys.specs.Waiting.{first_at, others, harts, sent_to};
ghost use Rattle.guest_sys.specs.Calls.{Does, Rests, wait, wake, requeue, futex_call, exit};

use crate::answers::{Error, failure, plain};
use crate::arguments::Arguments;
use crate::effect::{Effect, Reply};
use crate::ranges::{put, span, writable};
use crate::service::{Operation, operation_of};
use crate::state::{Sys, Waiter};
use guest_mem::store::GuestStore;
use link_tags::origins::Origins;
use oc_base::fault::NoMemory;
use oc_base::items::Items;
use rv_isa::instr::Width;
use std::alloc::Global;

/// Waiting harts, divided by whether they are among the first at an address.
#[derive(Debug, Drop)]
struct Parted {
    first: Items<Waiter>,
    others: Items<Waiter>,
}

/// The first `count` that wait at an address, and the others.
fn split(alloc: Global, waiting: &[Waiter], at: u64, count: u64) -> Result<Parted, NoMemory>
    ensures first { IfOk result (λ p. p.first ≡ first_at count at waiting.now) }
    ensures others { IfOk result (λ p. p.others ≡ others count at waiting.now) }
{
    let mut left = count;
    let mut first = Items::new(alloc);
    let mut others = Items::new(alloc);
    for waiter in waiting {
        if left > 0 && waiter.at == at {
            first.push(*waiter)?;
            left -= 1;
        } else {
            others.push(*waiter)?;
        }
    }
    Ok(Parted { first, others })
}

/// The harts that wait.
fn harts(alloc: Global, waiting: &[Waiter]) -> Result<Items<u32>, NoMemory>
    ensures { IfOk result (λ list. list ≡ harts waiting.now) }
{
    let harts = waiting.iter().map(|waiter| waiter.hart).collect(alloc)?;
    Ok(Items::from_vec(harts))
}

/// The same harts, at another address.
fn sent_to(alloc: Global, to: u64, waiting: &[Waiter]) -> Result<Vec<Waiter>, NoMemory>
    ensures { IfOk result (λ v. v.items ≡ sent_to to waiting.now) }
{
    let sent = waiting
        .iter()
        .map(|waiter| Waiter {
            hart: waiter.hart,
            at: to,
        })
        .collect(alloc)?;
    Ok(sent)
}

/// A futex call of a hart.
#[tactic(auto, unfolding(crate::specs::Calls::futex_call, crate::specs::Calls::wake, crate::specs::Calls::requeue), using(crate::proofs::CallLaws::rests_ends))]
pub(crate) fn futex_call<M: GuestStore, O: Origins>(
    alloc: Global,
    sys: &mut Sys,
    mem: &M,
    origins: &O,
    hart: u32,
    a: Arguments,
) -> Result<Effect, NoMemory>
    ensures { Does (O.origin origins.now) (λ see readable writable s. futex_call see readable s hart a.a0 a.a1 a.a2 a.a3 a.a4) sys.old sys.new (M.contents mem.now) (M.contents mem.now) result }
{
    let operation = operation_of(a.a1);
    if operation == Operation::Other {
        return Ok(failure(alloc, Error::NotServed));
    }
    if a.a0 % 4 != 0 {
        return Ok(failure(alloc, Error::Invalid));
    }
    match operation {
        Operation::Wait => wait(alloc, sys, mem, origins, hart, a.a0, a.a2, a.a3),
        Operation::Wake => wake(alloc, sys, a.a0, a.a2),
        Operation::Requeue => requeue(alloc, sys, a.a0, a.a2, a.a3, a.a4),
        Operation::Other => Ok(failure(alloc, Error::NotServed)),
    }
}

/// The hart waits while the word at `at` is `value`.
#[tactic(auto, unfolding(crate::specs::Calls::wait))]
fn wait<M: GuestStore, O: Origins>(
    alloc: Global,
    sys: &mut Sys,
    mem: &M,
    origins: &O,
    hart: u32,
    at: u64,
    value: u64,
    timeout: u64,
) -> Result<Effect, NoMemory>
    requires { at % 4 ≡ 0 }
    ensures { Does (O.origin origins.now) (λ see readable writable s. wait see readable s hart at value timeout) sys.old sys.new (M.contents mem.now) (M.contents mem.now) result }
{
    if timeout != 0 {
        return Ok(failure(alloc, Error::NotServed));
    }
    let Ok(word) = mem.load(at, Width::Wu, origins) else {
        return Ok(failure(alloc, Error::BadAddress));
    };
    if word.number != value % (1 << 32) {
        return Ok(failure(alloc, Error::TryAgain));
    }
    sys.push_waiting(Waiter { hart, at })?;
    Ok(plain(alloc, Reply::Wait { addr: at }))
}

/// Wakes the first `count` that wait at an address.
#[tactic(auto, unfolding(crate::specs::Calls::wake))]
fn wake(alloc: Global, sys: &mut Sys, at: u64, count: u64) -> Result<Effect, NoMemory>
    ensures { Rests (wake sys.old at count) sys.old sys.new result }
{
    let Parted { first, others } = split(alloc, sys.waiting(), at, count % (1 << 32))?;
    let woken = harts(alloc, first.as_slice())?;
    sys.set_waiting(others);
    Ok(Effect {
        reply: Reply::Answer(first.len() as u64),
        woken,
        written: Items::new(alloc),
    })
}

/// Wakes as `wake` does, and sends the first `more` that are left to another address, behind all others.
#[tactic(auto, unfolding(crate::specs::Calls::wake, crate::specs::Calls::requeue))]
fn requeue(
    alloc: Global,
    sys: &mut Sys,
    at: u64,
    count: u64,
    more: u64,
    to: u64,
) -> Result<Effect, NoMemory>
    ensures { Rests (requeue sys.old at count more to) sys.old sys.new result }
{
    let Parted { first, others } = split(alloc, sys.waiting(), at, count % (1 << 32))?;
    let woken = harts(alloc, first.as_slice())?;
    let left = split(alloc, others.as_slice(), at, more % (1 << 32))?;
    let sent = sent_to(alloc, to, left.first.as_slice())?;
    let mut waiting = left.others;
    waiting.extend_from_slice(&sent)?;
    sys.set_waiting(waiting);
    Ok(Effect {
        reply: Reply::Answer(first.len() as u64),
        woken,
        written: Items::new(alloc),
    })
}

/// The hart ends: its clear word becomes zero, where it has one, and the first that waits there is woken.
#[tactic(auto, unfolding(crate::specs::Calls::exit))]
pub(crate) fn exit<M: GuestStore, O: Origins>(
    alloc: Global,
    sys: &mut Sys,
    mem: &mut M,
    origins: &O,
    clear: u64,
) -> Result<Effect, NoMemory>
    ensures { Does (O.origin origins.now) (λ see readable writable s. exit writable s clear) sys.old sys.new (M.contents mem.old) (M.contents mem.new) result }
{
    if clear == 0 || clear % 4 != 0 {
        return Ok(plain(alloc, Reply::EndHart));
    }
    if !writable(mem, clear, 4) {
        return Ok(plain(alloc, Reply::EndHart));
    }
    let Parted { first, others } = split(alloc, sys.waiting(), clear, 1)?;
    let woken = harts(alloc, first.as_slice())?;
    let written = span(alloc, clear, 4)?;
    put(mem, origins, clear, &[0; 4])?;
    sys.set_waiting(others);
    Ok(Effect {
        reply: Reply::EndHart,
        woken,
        written,
    })
}
