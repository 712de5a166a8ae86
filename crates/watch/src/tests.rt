//! What passes see.

use crate::watch::{Counts, Watch};
use oc_base::fault::NoMemory;
use std::process::Abort;

const FIRST: Counts = Counts {
    real: 7,
    done: 1,
    retired: 0,
};

const SECOND: Counts = Counts {
    real: 9,
    done: 2,
    retired: 1,
};

#[test]
fn a_look_after_a_show_gives_what_was_shown(rt: HostRuntime) -> Result<(), NoMemory> {
    let (watch, mut writer) = Watch::new(rt.alloc())?;
    let mut reader = watch.split(&rt, &mut writer);
    watch.show(&rt, &mut writer, FIRST);
    assert!(rt; watch.look(&rt, &mut reader) == FIRST);
    watch.show(&rt, &mut writer, SECOND);
    assert!(rt; watch.look(&rt, &mut reader) == SECOND);
    assert!(rt; watch.look(&rt, &mut writer) == SECOND);
    Ok(())
}

#[test]
fn no_look_goes_back_after_passes_were_joined(rt: HostRuntime) -> Result<(), NoMemory> {
    let (watch, mut writer) = Watch::new(rt.alloc())?;
    let mut early = watch.split(&rt, &mut writer);
    watch.show(&rt, &mut writer, SECOND);
    let mut late = watch.split(&rt, &mut writer);
    assert!(rt; watch.look(&rt, &mut late) == SECOND);
    watch.join(&rt, &mut early, late);
    assert!(rt; watch.look(&rt, &mut early) == SECOND);
    watch.join(&rt, &mut writer, early);
    assert!(rt; watch.look(&rt, &mut writer) == SECOND);
    Ok(())
}
