//! Tables of what numbers and texts say, a case a line.

use crate::number::number_of;
use crate::statement::{Statement, statements_of};
use oc_base::fault::NoMemory;
use std::alloc::{AllocError, AllocGlobal, Global};
use std::process::Abort;

/// Words, and the number that each writes.
const NUMBERS: &str = "\
0 => 0
007 => 7
-0 => 0
-2048 => -2048
0x1f => 31
0xAb => 171
18446744073709551615 => 18446744073709551615
99999999999999999999999999 => 36893488147419103232
-99999999999999999999999999 => -36893488147419103232
 => none
- => none
0x => none
0X10 => none
-0x10 => none
0xg => none
1a => none
";

fn number_text(alloc: Global, word: &[u8]) -> Result<String, NoMemory> {
    match number_of(word) {
        Some(number) => Ok(format!(in alloc; "{number}")?),
        None => Ok(String::from_str(alloc, "none")?),
    }
}

fn check_number(rt: &(impl Abort + AllocGlobal), row: &str) -> Result<(), NoMemory> {
    if let Some((word, wanted)) = row.split_once(" => ") {
        let found = number_text(rt.alloc(), word.as_bytes())?;
        assert_eq!(rt; found.as_str(), wanted, "{row}");
    }
    Ok(())
}

#[test]
fn numbers_are_decimal_negative_or_hexadecimal(rt: HostRuntime) -> Result<(), NoMemory> {
    for row in NUMBERS.lines() {
        check_number(&rt, row)?;
    }
    Ok(())
}

/// Texts with `/` for a newline, and the line and the number of labels of each statement.
const TEXTS: &str = "\
 =>
/ ; \t;# a comment ; nop/ =>
nop => 1:0
nop;nop//nop => 1:0 1:0 3:0
a: b :c:nop => 1:3
a: => 1:1
1a: nop => 1:0
.ascii \"a;b#c\"; nop # \" => 1:0 1:0
.ascii \"a/nop => 1:0 2:0
jal x1 , a;beq x1,x2,a;.slot a;.byte 1;.dword 2 => 1:0 1:0 1:0 1:0 1:0
call f;.func f;.object o;.entry f => 1:0 1:0 1:0 1:0
";

fn with_newlines(alloc: Global, text: &str) -> Result<Vec<u8>, NoMemory> {
    let mut bytes = text.as_bytes().to_vec(alloc)?;
    for byte in &mut bytes {
        if *byte == b'/' {
            *byte = b'\n';
        }
    }
    Ok(bytes)
}

/// The line and the number of labels of each statement.
fn places(text: &mut String, statements: &[Statement]) -> Result<(), AllocError> {
    for statement in statements {
        write!(text, " {}:{}", statement.line, statement.labels.len())?;
    }
    Ok(())
}

fn check_text(rt: &(impl Abort + AllocGlobal), row: &str) -> Result<(), NoMemory> {
    if let Some((text, wanted)) = row.split_once(" =>") {
        let text = with_newlines(rt.alloc(), text)?;
        if text.len() < 1 << 31 {
            let statements = statements_of(rt.alloc(), &text)?;
            let mut found = String::new(rt.alloc());
            places(&mut found, &statements)?;
            assert_eq!(rt; found.as_str(), wanted, "{row}");
        }
    }
    Ok(())
}

#[test]
fn statements_stand_between_semicolons_and_newlines(rt: HostRuntime) -> Result<(), NoMemory> {
    for row in TEXTS.lines() {
        check_text(&rt, row)?;
    }
    Ok(())
}
