//! The line that a call writes last.

ghost use Rattle.std.specs.Prelude.{◌≡◌, false, IfOk, string_bytes};
ghost use Rattle.std.specs.Fmt.{digits};
ghost use Rattle.report.specs.Answer.{line_of, elf_numbers, image_numbers, script_numbers, elf_line, image_line, script_line};
ghost use Rattle.report.specs.declared.answer.Ended.{Ended};
ghost use Rattle.machine.specs.declared.outcome.Outcome.{Outcome};

use crate::answer::{Ended, ProgramFault};
use elf_read::fault::ElfFault;
use machine::outcome::Outcome;
use oc_base::fault::NoMemory;
use oc_base::items::Items;
use relocs::fault::ImageFault;
use sched_log::fault::ScriptFault;
use std::alloc::{AllocError, Global};

fn hexadecimal(alloc: Global, n: u64) -> Result<String, AllocError>
    ensures { IfOk result (λ text. string_bytes text ≡ digits 16 false n) }
{
    format!(in alloc; "{n:x}")
}

// The number of a fault of the file, and the offset or index that goes with it.
fn elf_numbers(fault: ElfFault) -> (u8, u64)
    ensures { result ≡ elf_numbers fault }
{
    match fault {
        ElfFault::NotElf => (1, 0),
        ElfFault::NotRiscv64Exec => (2, 0),
        ElfFault::Compressed => (3, 0),
        ElfFault::FloatAbi => (4, 0),
        ElfFault::Truncated(offset) => (5, offset),
        ElfFault::BadSegment(index) => (6, u64::from(index)),
        ElfFault::TooLarge => (7, 0),
        ElfFault::NoText => (8, 0),
        ElfFault::NoSymbols => (9, 0),
        ElfFault::NoMemory => (0, 0),
    }
}

// The number of a fault of the image, and its address.
fn image_numbers(fault: ImageFault) -> (u8, u64)
    ensures { result ≡ image_numbers fault }
{
    match fault {
        ImageFault::TextMisaligned(at) => (1, at),
        ImageFault::TextOutside(at) => (2, at),
        ImageFault::EntryOutside(at) => (3, at),
        ImageFault::RegionOverlap(at) => (4, at),
        ImageFault::RegionAimed(at) => (5, at),
        ImageFault::NoMemory => (0, 0),
    }
}

// The number of a line with a fault, and the fault's kind.
fn script_numbers(fault: ScriptFault) -> (u64, u8)
    ensures { result ≡ script_numbers fault }
{
    match fault {
        ScriptFault::Line { line, kind } => (line, kind),
        ScriptFault::NoMemory => (0, 0),
    }
}

fn elf_line(alloc: Global, number: u8, value: u64) -> Result<String, AllocError>
    ensures { IfOk result (λ line. string_bytes line ≡ elf_line (number, value)) }
{
    format!(in alloc; "ocolos: program elf {number} {value}\n")
}

fn image_line(alloc: Global, number: u8, address: u64) -> Result<String, AllocError>
    ensures { IfOk result (λ line. string_bytes line ≡ image_line (number, address)) }
{
    let address = hexadecimal(alloc, address)?;
    format!(in alloc; "ocolos: program image {number} 0x{address}\n")
}

fn script_line(alloc: Global, number: u64, kind: u8) -> Result<String, AllocError>
    ensures { IfOk result (λ line. string_bytes line ≡ script_line (number, kind)) }
{
    format!(in alloc; "ocolos: script line {number} fault {kind}\n")
}

fn program_line(alloc: Global, fault: ProgramFault) -> Result<String, AllocError>
    ensures { IfOk result (λ line. string_bytes line ≡ line_of (Ended.Program fault)) }
{
    match fault {
        ProgramFault::Elf(fault) => {
            let (number, value) = elf_numbers(fault);
            elf_line(alloc, number, value)
        }
        ProgramFault::Image(fault) => {
            let (number, address) = image_numbers(fault);
            image_line(alloc, number, address)
        }
    }
}

fn script_fault_line(alloc: Global, fault: ScriptFault) -> Result<String, AllocError>
    ensures { IfOk result (λ line. string_bytes line ≡ line_of (Ended.Script fault)) }
{
    let (number, kind) = script_numbers(fault);
    script_line(alloc, number, kind)
}

fn trap_line(alloc: Global, cause: u8, pc: u64, value: u64) -> Result<String, AllocError>
    ensures { IfOk result (λ line. string_bytes line ≡ line_of (Ended.Ran (Outcome.Trap cause pc value))) }
{
    let pc = hexadecimal(alloc, pc)?;
    let value = hexadecimal(alloc, value)?;
    format!(in alloc; "ocolos: trap {cause} at 0x{pc} value 0x{value}\n")
}

fn link_use_line(alloc: Global, rule: u8, pc: u64) -> Result<String, AllocError>
    ensures { IfOk result (λ line. string_bytes line ≡ line_of (Ended.Ran (Outcome.LinkUse rule pc))) }
{
    let pc = hexadecimal(alloc, pc)?;
    format!(in alloc; "ocolos: link use {rule} at 0x{pc}\n")
}

fn landing_line(alloc: Global, pc: u64) -> Result<String, AllocError>
    ensures { IfOk result (λ line. string_bytes line ≡ line_of (Ended.Ran (Outcome.Landing pc))) }
{
    let pc = hexadecimal(alloc, pc)?;
    format!(in alloc; "ocolos: landing at 0x{pc}\n")
}

fn outcome_line(alloc: Global, outcome: Outcome) -> Result<String, AllocError>
    ensures { IfOk result (λ line. string_bytes line ≡ line_of (Ended.Ran outcome)) }
{
    match outcome {
        Outcome::Exit(code) => format!(in alloc; "ocolos: exit {code}\n"),
        Outcome::Trap { cause, pc, value } => trap_line(alloc, cause, pc, value),
        Outcome::LinkUse { rule, pc } => link_use_line(alloc, rule, pc),
        Outcome::Landing { pc } => landing_line(alloc, pc),
        Outcome::OutputFull => String::from_str(alloc, "ocolos: output full\n"),
        Outcome::HartsFull => String::from_str(alloc, "ocolos: harts full\n"),
        Outcome::Stalled => String::from_str(alloc, "ocolos: stalled\n"),
        Outcome::Unfinished => String::from_str(alloc, "ocolos: unfinished\n"),
        Outcome::Limit { most } => format!(in alloc; "ocolos: limit {most}\n"),
    }
}

/// The line that a call which ended so writes last, with its newline; none after a fault of writing.
pub fn last_line(alloc: Global, ended: &Ended) -> Result<Items<u8>, NoMemory>
    ensures { IfOk result (λ line. line ≡ line_of ended.now) }
{
    let text = match ended {
        Ended::Ran(outcome) => outcome_line(alloc, *outcome),
        Ended::Program(fault) => program_line(alloc, *fault),
        Ended::Script(fault) => script_fault_line(alloc, *fault),
        Ended::Usage => String::from_str(alloc, "ocolos: usage\n"),
        Ended::ReadFault(name) => {
            let name = name.as_str();
            format!(in alloc; "ocolos: cannot read {name}\n")
        }
        Ended::TooLong(name) => {
            let name = name.as_str();
            format!(in alloc; "ocolos: too long {name}\n")
        }
        Ended::WriteFault => Ok(String::new(alloc)),
        Ended::NoMemory => String::from_str(alloc, "ocolos: out of memory\n"),
    };
    match text {
        Ok(text) => Ok(Items::from_vec(text.into_bytes())),
        Err(_) => Err(NoMemory),
    }
}
