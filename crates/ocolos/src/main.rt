//! Runs a program by threads and writes what the run delivers: `ocolos PROGRAM`, with `--workers W`, `--every N`, `--limit L`,
//! `--region BASE:SIZE`, `--ring N`, `--record FILE` and `--report`.
#![tactic(auto)]

use live::call::live;
use oc_base::pace::NoPace;
use oc_base::real::{RealFiles, StdSink, StdSource};
use report::writing::give_up;
use std::process::ExitCode;
use top_call::words::program_words;

fn main(rt: HostRuntime) -> ExitCode {
    let alloc = rt.alloc();
    let mut input = StdSource::new(rt.stdin());
    let mut out = StdSink::new(rt.stdout());
    let mut err = StdSink::new(rt.stderr());
    let Ok(words) = program_words(&rt) else {
        return ExitCode::from(give_up(alloc, &mut err).status);
    };
    let Ok(runtime) = rt.clone() else {
        return ExitCode::from(give_up(alloc, &mut err).status);
    };
    let mut files = RealFiles::new(runtime);
    let lived = live(
        &rt, alloc, &words, &mut files, &mut input, &mut out, &mut err, &NoPace,
    );
    ExitCode::from(lived.answer.status)
}
