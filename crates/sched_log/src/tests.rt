//! What is written of events. Scripts with what they are read as stand in `script_cases`.

use crate::event::Event;
use crate::write::write_log;
use oc_base::fault::NoMemory;

#[test]
fn events_are_written_as_lines_and_the_end(rt: HostRuntime) -> Result<(), NoMemory> {
    let events = [
        Event::Steps { h: 63, n: 0 },
        Event::Real { h: 0, n: 10 },
        Event::Till {
            n: 18446744073709551615,
        },
        Event::Snap,
        Event::Replace,
        Event::Retire,
    ];
    let text = write_log(rt.alloc(), &events)?;
    assert_eq!(rt;
        text.as_slice(),
        b"steps 63 0\nreal 0 10\ntill 18446744073709551615\nsnap\nreplace\nretire\nend\n".as_slice()
    );
    Ok(())
}
