//! Runs a program under a script and writes what the run delivers: `ocolos_play PROGRAM SCRIPT` or `ocolos_play --generate N`, with
//! `--region BASE:SIZE`, `--ring N` and `--report`.
#![tactic(auto)]

use oc_base::real::{RealFiles, StdSink, StdSource};
use play::call::play;
use report::writing::give_up;
use std::process::ExitCode;
use top_call::words::program_words;

fn main(rt: HostRuntime) -> ExitCode {
    let alloc = rt.alloc();
    let mut input = StdSource::new(rt.stdin());
    let mut out = StdSink::new(rt.stdout());
    let mut err = StdSink::new(rt.stderr());
    let Ok(words) = program_words(&rt) else {
        return ExitCode::from(give_up(alloc, &mut err).status);
    };
    let mut files = RealFiles::new(rt);
    let answer = play(alloc, &words, &mut files, &mut input, &mut out, &mut err);
    ExitCode::from(answer.status)
}
