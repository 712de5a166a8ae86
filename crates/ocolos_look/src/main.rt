//! Shows what is to be seen of a program before it runs, or what a run does to it: `ocolos_look PROGRAM`, with `--region BASE:SIZE`,
//! and with `--function NAME` or with `--script SCRIPT`, `--ring N` and `--svg FILE`. `--help` or `--version` alone ask for a text.
#![tactic(auto)]

use look::about::{asked_about, tell};
use look::call::{give_up, look};
use oc_base::real::{RealFiles, StdSink, StdSource};
use std::process::ExitCode;
use top_call::words::program_words;

fn main(rt: HostRuntime) -> ExitCode {
    let alloc = rt.alloc();
    let mut input = StdSource::new(rt.stdin());
    let mut out = StdSink::new(rt.stdout());
    let mut err = StdSink::new(rt.stderr());
    let Ok(words) = program_words(&rt) else {
        return ExitCode::from(give_up(&mut err).status);
    };
    if let Some(text) = asked_about(&words) {
        return ExitCode::from(tell(text, &mut out).status);
    }
    let mut files = RealFiles::new(rt);
    let answer = look(alloc, &words, &mut files, &mut input, &mut out, &mut err);
    ExitCode::from(answer.status)
}
