//! What is run with no files: a generated guest, and the script that goes with it.

ghost use Rattle.std.specs.Prelude.{◌≡◌, ◌++◌, ◌≤◌, IfOk, OnOk};
ghost use Rattle.play.specs.Generated.{IsGuest, round, guest_events, guest_script};

use elf_make::make::make_elf;
use guest_gen::generate::generate;
use oc_base::fault::NoMemory;
use oc_base::items::Items;
use sched_log::event::Event;
use sched_log::write::write_log;
use std::alloc::Global;

/// How often code is moved.
const ROUNDS: u64 = 20;

/// The file of the guest of `count` thousand rounds.
pub fn guest_file(alloc: Global, count: u32) -> Result<Items<u8>, NoMemory>
    requires least { 1 ≤ count }
    requires most { count ≤ 1000 }
    ensures { IfOk result (IsGuest count) }
{
    let program = generate(alloc, count)?;
    let bytes = make_elf(alloc, &program)?;
    Ok(bytes)
}

// Some turns, a snapshot, and code moved by it.
fn push_round(events: &mut Items<Event>, count: u32) -> Result<(), NoMemory>
    requires { count ≤ 1000 }
    ensures { OnOk result (events.new ≡ events.old ++ round count) }
{
    events.push(Event::Till {
        n: 500 * count as u64,
    })?;
    events.push(Event::Snap)?;
    events.push(Event::Retire)?;
    events.push(Event::Replace)
}

fn guest_events(alloc: Global, count: u32) -> Result<Items<Event>, NoMemory>
    requires { count ≤ 1000 }
    ensures { IfOk result (λ events. events ≡ guest_events count) }
{
    let mut events = Items::new(alloc);
    for _round in 0..ROUNDS {
        push_round(&mut events, count)?;
    }
    events.push(Event::Till {
        n: 100_000 * count as u64,
    })?;
    Ok(events)
}

/// The script of that guest.
#[tactic(auto, unfolding(crate::specs::Generated::guest_script))]
pub fn guest_script(alloc: Global, count: u32) -> Result<Items<u8>, NoMemory>
    requires { count ≤ 1000 }
    ensures { IfOk result (λ text. text ≡ guest_script count) }
{
    let events = guest_events(alloc, count)?;
    write_log(alloc, events.as_slice())
}
