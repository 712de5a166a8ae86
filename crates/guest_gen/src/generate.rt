//! The program of the guest: its words, its data, its names and its relocations.

ghost use Rattle.std.specs.Prelude.{◌≡◌, ◌≤◌, ◌<◌, ◌+◌, ◌*◌, ◌^◌, ℕ, pos, [], ◌∷◌, ◌++◌, length, IfOk, OnOk};
ghost use Rattle.rv_isa.specs.Ranges.{IsImm12};
ghost use Rattle.std.specs.List.{flat_map};
ghost use Rattle.rv_asm.specs.declared.symbol.Named.{Named};
ghost use Rattle.guest_gen.specs.Generated.{IsGenerated, text, funcs, table, slot_bytes, data_of, fixups, fixup_of_slot};

use crate::guest::{adder, start, worker};
use oc_base::fault::NoMemory;
use oc_base::items::Items;
use rv_asm::code::Code;
use rv_asm::emit::words_of;
use rv_asm::program::Program;
use rv_asm::symbol::{Fixup, Named};
use std::alloc::Global;

/// Where text begins.
pub const TEXT: u64 = 0x10000;

/// Where data begins.
pub const DATA: u64 = 0x11000;

/// Where the newline is.
const NEWLINE_AT: u64 = 0x11098;

// Adds a function behind the code that is there. Answers where it ends.
fn push_function(
    alloc: Global,
    name: &[u8],
    from: u64,
    body: &[Code],
    code: &mut Vec<Code>,
    funcs: &mut Vec<Named>,
) -> Result<u64, NoMemory>
    requires { from + 4 * length body.now < 2 ^ 32 }
    ensures to { IfOk result (λ to. to ≡ from + 4 * length body.now) }
    ensures code { OnOk result (code.new.items ≡ code.old.items ++ body.now) }
    ensures funcs { OnOk result (funcs.new.items ≡ funcs.old.items ++ record { name = name.now; from = from; to = from + 4 * length body.now } ∷ []) }
{
    let to = from + 4 * body.len() as u64;
    let name = Items::from_slice(alloc, name)?;
    funcs.push(Named { name, from, to })?;
    code.extend_from_slice(body)?;
    Ok(to)
}

// The code of all functions, and their names and places.
fn functions(alloc: Global, n: u32) -> Result<(Vec<Code>, Vec<Named>), NoMemory>
    requires { n ≤ 1000 }
    ensures code { IfOk result (λ made. made.0.items ≡ text n) }
    ensures funcs { IfOk result (λ made. made.1.items ≡ funcs n) }
{
    let mut code = Vec::new(alloc);
    let mut funcs = Vec::new(alloc);
    let at = push_function(alloc, b"start", TEXT, &start(alloc)?, &mut code, &mut funcs)?;
    let at = push_function(
        alloc,
        b"worker",
        at,
        &worker(n as i32),
        &mut code,
        &mut funcs,
    )?;
    let at = push_function(alloc, b"w0", at, &adder(1), &mut code, &mut funcs)?;
    let at = push_function(alloc, b"w1", at, &adder(2), &mut code, &mut funcs)?;
    let at = push_function(alloc, b"w2", at, &adder(3), &mut code, &mut funcs)?;
    let at = push_function(alloc, b"w3", at, &adder(4), &mut code, &mut funcs)?;
    let at = push_function(alloc, b"w4", at, &adder(5), &mut code, &mut funcs)?;
    let at = push_function(alloc, b"w5", at, &adder(6), &mut code, &mut funcs)?;
    let at = push_function(alloc, b"w6", at, &adder(7), &mut code, &mut funcs)?;
    push_function(alloc, b"w7", at, &adder(8), &mut code, &mut funcs)?;
    Ok((code, funcs))
}

fn push_slots(funcs: &[Named], bytes: &mut Vec<u8>) -> Result<(), NoMemory>
    ensures { OnOk result (bytes.new.items ≡ bytes.old.items ++ flat_map slot_bytes funcs.now) }
{
    for f in funcs {
        bytes.extend_from_slice(&f.from.to_le_bytes())?;
    }
    Ok(())
}

// The table of the functions from the third on, and what comes after it.
fn data(alloc: Global, funcs: &[Named]) -> Result<Vec<u8>, NoMemory>
    requires { 2 ≤ length funcs.now }
    ensures { IfOk result (λ bytes. bytes.items ≡ data_of funcs.now) }
{
    let mut bytes = Vec::new(alloc);
    push_slots(&funcs[2..], &mut bytes)?;
    bytes.extend_from_slice(&[0; 64])?;
    bytes.extend_from_slice(&NEWLINE_AT.to_le_bytes())?;
    bytes.extend_from_slice(&1u64.to_le_bytes())?;
    bytes.extend_from_slice(&[0; 8])?;
    bytes.push(b'\n')?;
    Ok(bytes)
}

fn fixup_of_slot(k: u32) -> Fixup
    requires { k < 8 }
    ensures { result ≡ fixup_of_slot k }
{
    Fixup {
        at: DATA + 8 * u64::from(k),
        kind: 2,
        func: k + 2,
    }
}

// The call of `worker`, and the slots of the table.
fn fixups() -> [Fixup; 9]
    ensures { result ≡ fixups }
{
    let call = Fixup {
        at: TEXT + 4 * 65,
        kind: 17,
        func: 1,
    };
    [
        call,
        fixup_of_slot(0),
        fixup_of_slot(1),
        fixup_of_slot(2),
        fixup_of_slot(3),
        fixup_of_slot(4),
        fixup_of_slot(5),
        fixup_of_slot(6),
        fixup_of_slot(7),
    ]
}

fn table(alloc: Global) -> Result<Named, NoMemory>
    ensures { IfOk result (λ made. made ≡ table) }
{
    let name = Items::from_slice(alloc, b"_ZTV4Work")?;
    Ok(Named {
        name,
        from: DATA,
        to: DATA + 64,
    })
}

/// The guest of `n` thousand rounds, with `n` from 1 to 1000: a program of threads that writes 18000 `n`.
///
/// The first thread asks the system what a C library asks at its start, gives each of four threads a mapping as its stack,
/// waits until they have ended, and writes what they have counted. Each of them calls the functions of a table in turn,
/// which add 1 to 8 to the counter.
pub fn generate(alloc: Global, n: u32) -> Result<Program, NoMemory>
    requires least { 1 ≤ n }
    requires most { n ≤ 1000 }
    ensures { IfOk result (IsGenerated n) }
{
    let (code, funcs) = functions(alloc, n)?;
    let text = Items::from_vec(words_of(alloc, &code)?);
    let bytes = Items::from_vec(data(alloc, &funcs)?);
    let mut objects = Vec::new(alloc);
    objects.push(table(alloc)?)?;
    let objects = Items::from_vec(objects);
    let fixups = Items::from_slice(alloc, &fixups())?;
    let funcs = Items::from_vec(funcs);
    Ok(Program {
        text,
        bytes,
        entry: TEXT,
        funcs,
        objects,
        fixups,
    })
}
