//! The log of a run as it is told.

ghost use Rattle.std.specs.Prelude.{◌≡◌, map};
ghost use Rattle.run_book.specs.Told.{as_told};

use oc_base::items::Items;
use sched_log::event::Event;

// Leaves the plan of an attempt out: it is that of the last snapshot.
fn tell(event: &mut Event)
    ensures { event.new ≡ as_told event.old }
{
    if let Event::Given(_) = event {
        *event = Event::Replace;
    }
}

fn tell_each(events: &mut [Event])
    ensures { events.new ≡ map as_told events.old }
{
    for event in events.iter_mut() {
        tell(event);
    }
}

/// The entries, with each attempt as `Replace`. It takes no memory.
pub fn tell_all(entries: Vec<Event>) -> Items<Event>
    ensures { result ≡ map as_told entries.items }
{
    let mut entries = entries;
    tell_each(entries.as_mut_slice());
    Items::from_vec(entries)
}
