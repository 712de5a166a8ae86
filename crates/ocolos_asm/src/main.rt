//! Assembles a text, or generates a guest, and writes its file: `ocolos_asm IN OUT` or `ocolos_asm --generate N OUT`.
#![tactic(auto)]

use guest_gen::call::{make, out_of_memory};
use oc_base::real::{RealFiles, StdSink};
use std::process::ExitCode;
use top_call::words::program_words;

fn main(rt: HostRuntime) -> ExitCode {
    let alloc = rt.alloc();
    let mut out = StdSink::new(rt.stdout());
    let mut err = StdSink::new(rt.stderr());
    let Ok(words) = program_words(&rt) else {
        return ExitCode::from(out_of_memory(&mut err).status);
    };
    let mut files = RealFiles::new(rt);
    let made = make(alloc, &words, &mut files, &mut out, &mut err);
    ExitCode::from(made.status)
}
