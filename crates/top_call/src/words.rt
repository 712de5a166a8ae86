//! The words that a program is called with.

use oc_base::fault::NoMemory;
use std::io::ErrorKind;
use std::rt::Env;
use std::{env, io};

fn read_words<R: Env + AllocGlobal>(rt: &R) -> io::Result<Vec<String>> {
    let mut list = Vec::new(rt.alloc());
    for word in env::args(rt)?.skip(1) {
        list.push(word)?;
    }
    Ok(list)
}

/// The words after the program's name. Where one of them isn't UTF-8 there are none, which no top call takes.
pub fn program_words<R: Env + AllocGlobal>(rt: &R) -> Result<Vec<String>, NoMemory> {
    match read_words(rt) {
        Ok(list) => Ok(list),
        Err(error) if error.kind() == ErrorKind::OutOfMemory => Err(NoMemory),
        Err(_) => Ok(Vec::new(rt.alloc())),
    }
}
