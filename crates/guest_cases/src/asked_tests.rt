//! Calls over devices that can't fail: with files that are there and that aren't, and with an input past its limit.

use crate::asked::play_surely;
use crate::run_tests::words_of;
use cases::images::file_of;
use cases::rows::split;
use std::alloc::Global;
use std::test::Fail;

/// The status of a call with these words and so many zeros as its input.
fn status(alloc: Global, words: &str, input: &str) -> Result<u8, Fail> {
    let mut files = Vec::new(alloc);
    let script = b"till 100\nend\n".to_vec(alloc)?;
    files.push((
        String::from_str(alloc, "exit.elf")?,
        file_of(alloc, "exit")?,
    ))?;
    files.push((String::from_str(alloc, "script")?, script))?;
    let words = words_of(alloc, words)?;
    let input = vec![in alloc; 0u8; input.parse().unwrap_or(0)]?;
    Ok(play_surely(alloc, &words, files, input).status)
}

// What a row shows, the words, the length of the input, and the status.
const CALLS: &str = "\
a guest runs: exit.elf script | 0 = 0
there are no words:  | 0 = 120
there is no program: none script | 0 = 123
there is no script: exit.elf none | 0 = 124
the input is the longest one: exit.elf script | 16777216 = 0
the input is longer: exit.elf script | 16777217 = 126";

#[test]
fn a_call_whose_devices_cannot_fail_ends_as_asked(rt: HostRuntime) -> Result<(), Fail> {
    for row in CALLS.lines() {
        let (words, input, wanted) = split(row);
        let wanted: u8 = wanted.parse().unwrap_or(255);
        assert_eq!(rt; status(rt.alloc(), words, input)?, wanted, "{row}");
    }
    Ok(())
}
