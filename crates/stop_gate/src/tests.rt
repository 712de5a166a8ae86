//! What a gate tells after harts left and came back.

use crate::fault::StillAway;
use crate::gate::Gate;
use std::process::Abort;

/// Harts that leave, harts that come back, and the least that is then away.
const VISITS: [(&[u32], &[u32], Option<u32>); 5] = [
    (&[], &[], None),
    (&[63, 0], &[], Some(0)),
    (&[63, 0], &[0], Some(63)),
    (&[5, 4, 9], &[4], Some(5)),
    (&[1, 2], &[2, 1], None),
];

fn check_visit(rt: &impl Abort, leave: &[u32], back: &[u32], least: Option<u32>) {
    let mut gate = Gate::new();
    for h in leave {
        if *h < 64 && !gate.is_away(*h) {
            assert!(rt; gate.leave(*h).is_ok());
        }
    }
    for h in back {
        if *h < 64 && gate.is_away(*h) {
            gate.back(*h);
        }
    }
    let wanted = match least {
        Some(h) => Err(StillAway { h }),
        None => Ok(()),
    };
    assert!(rt; gate.stopped() == wanted);
}

#[test]
fn the_least_hart_away_is_named(rt: HostRuntime) {
    for (leave, back, least) in VISITS {
        check_visit(&rt, leave, back, least);
    }
}

#[test]
fn no_hart_leaves_while_a_stop_is_wanted(rt: HostRuntime) {
    let mut gate = Gate::new();
    gate.want();
    assert!(rt; gate.leave(3).is_err());
    assert!(rt; !gate.is_away(3));
    gate.done();
    assert!(rt; gate.leave(3).is_ok());
    assert!(rt; gate.is_away(3));
    assert!(rt; !gate.is_away(64));
}
