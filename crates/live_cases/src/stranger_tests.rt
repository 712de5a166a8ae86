//! Harts that come home: what their steps out of the lock rested on still stands, whatever other threads did meanwhile.

ghost use Rattle.std.specs.Prelude.{◌<◌, ◌≤◌};

use crate::calls::{must, program};
use delivered::build::build;
use live_threads::run::run_threads;
use oc_base::pace::NoPace;
use std::alloc::Global;
use std::sync::Wait;
use std::test::Fail;
use std::thread::Threads;

/// How many harts come home as strangers in a run of the guest of one thousand rounds.
fn strangers<R: Threads + Wait + Sync>(
    rt: &R,
    alloc: Global,
    workers: u32,
    every: u64,
) -> Result<u64, Fail>
    requires workers { (0 < workers) × (workers ≤ 16) }
    requires every { (0 < every) × (every ≤ 100_000_000) }
{
    let elf = program(alloc, "generated 1")?;
    let Ok(image) = build(alloc, &elf, None) else {
        return Err(Fail::new("no image"));
    };
    let input = Vec::new(alloc);
    let Ok(ran) = run_threads(
        rt, alloc, image, input, 4096, workers, every, 20_000_000, &NoPace,
    ) else {
        return Err(Fail::new("no memory"));
    };
    Ok(ran.strangers)
}

// Code is moved all along in the first three of them.
#[test]
fn no_hart_comes_home_as_a_stranger(rt: HostRuntime) -> Result<(), Fail> {
    let alloc = rt.alloc();
    let seen = [
        strangers(&rt, alloc, 1, 700)?,
        strangers(&rt, alloc, 2, 700)?,
        strangers(&rt, alloc, 4, 700)?,
        strangers(&rt, alloc, 8, 100_000)?,
    ];
    must(seen == [0, 0, 0, 0], "strangers")
}
