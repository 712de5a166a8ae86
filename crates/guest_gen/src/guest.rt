//! The guest: what each of its functions does, instruction by instruction.
//!
//! A distance counts bytes from the branch or jump itself, 4 for an instruction.

ghost use Rattle.std.specs.Prelude.{◌≡◌, IfOk};
ghost use Rattle.rv_isa.specs.Ranges.{IsImm12};
ghost use Rattle.guest_gen.specs.Guest as is;

use crate::instruction::Register::{
    A0, A1, A2, A3, A4, A5, A7, Ra, S0, S1, S2, S3, Sp, T0, T1, T2, Zero,
};
use crate::instruction::{
    addi, alu, amoadd, andi, branch, ecall, jal, jalr, li, load, lui, mv, ret, sb, sd, slli,
};
use oc_base::fault::NoMemory;
use rv_asm::code::Code;
use rv_isa::instr::{AluOp, Cond, Width};
use std::alloc::Global;

// The numbers of the system calls.
pub const IOCTL: i32 = 29;

pub const WRITEV: i32 = 66;

pub const EXIT: i32 = 93;

pub const EXIT_GROUP: i32 = 94;

pub const SET_TID_ADDRESS: i32 = 96;

pub const FUTEX: i32 = 98;

pub const BRK: i32 = 214;

pub const CLONE: i32 = 220;

pub const MMAP: i32 = 222;

/// The page of data: data begins at 4096 times this number.
pub const DATA_PAGE: i32 = 17;

// What stands in data, from its beginning. First comes the table of eight functions.

/// The words of the four threads, 8 bytes apart.
pub const THREADS: i32 = 64;

/// The word of the first thread, behind those of the others.
pub const FIRST_THREAD: i32 = 96;

/// What the threads count.
pub const COUNTER: i32 = 104;

/// The address and the length of the digits, and those of the newline.
pub const PARTS: i32 = 112;

/// The newline, behind room for eight digits.
pub const NEWLINE: i32 = 152;

/// What a C library asks at its start. Then s2 is the word of the first of the four threads, and s3 where they end.
fn begin() -> [Code; 13]
    ensures { result ≡ is.begin }
{
    [
        lui(S0, DATA_PAGE),
        addi(A0, S0, FIRST_THREAD),
        li(A7, SET_TID_ADDRESS),
        ecall(),
        li(A0, 1),
        li(A1, 0),
        li(A7, IOCTL),
        ecall(),
        li(A0, 0),
        li(A7, BRK),
        ecall(),
        addi(S2, S0, THREADS),
        addi(S3, S0, FIRST_THREAD),
    ]
}

/// Makes a thread for each word, with a mapping of 65536 bytes as its stack.
fn make_threads() -> [Code; 20]
    ensures { result ≡ is.make_threads }
{
    [
        li(A0, 0),
        lui(A1, 16),
        li(A2, 3),
        li(A3, 0x22),
        li(A4, -1),
        li(A5, 0),
        li(A7, MMAP),
        ecall(),
        mv(A3, A0),
        lui(A1, 16),
        alu(AluOp::Add, A1, A0, A1),
        lui(A0, 0x7D1),
        addi(A0, A0, -0x100),
        mv(A2, S2),
        mv(A4, S2),
        li(A7, CLONE),
        ecall(),
        branch(Cond::Eq, A0, Zero, 4 * 35),
        addi(S2, S2, 8),
        branch(Cond::Ne, S2, S3, -4 * 19),
    ]
}

/// Waits until each word is 0.
fn wait_for_threads() -> [Code; 11]
    ensures { result ≡ is.wait_for_threads }
{
    [
        addi(S2, S0, THREADS),
        load(Width::W, A2, 0, S2),
        branch(Cond::Eq, A2, Zero, 4 * 7),
        mv(A0, S2),
        li(A1, 0),
        li(A3, 0),
        li(A7, FUTEX),
        ecall(),
        jal(Zero, -4 * 7),
        addi(S2, S2, 8),
        branch(Cond::Ne, S2, S3, -4 * 9),
    ]
}

/// Writes the counter's digits before the newline, the last first, and says in the first part where they are.
fn make_digits() -> [Code; 13]
    ensures { result ≡ is.make_digits }
{
    [
        load(Width::D, T0, COUNTER, S0),
        addi(T1, S0, NEWLINE),
        li(T2, 10),
        addi(T1, T1, -1),
        alu(AluOp::Remu, A0, T0, T2),
        alu(AluOp::Divu, T0, T0, T2),
        addi(A0, A0, 48),
        sb(A0, 0, T1),
        branch(Cond::Ne, T0, Zero, -4 * 5),
        sd(T1, PARTS, S0),
        addi(A0, S0, NEWLINE),
        alu(AluOp::Sub, A0, A0, T1),
        sd(A0, PARTS + 8, S0),
    ]
}

/// Writes both parts and ends the run.
fn write_and_end() -> [Code; 8]
    ensures { result ≡ is.write_and_end }
{
    [
        li(A0, 1),
        addi(A1, S0, PARTS),
        li(A2, 2),
        li(A7, WRITEV),
        ecall(),
        li(A0, 0),
        li(A7, EXIT_GROUP),
        ecall(),
    ]
}

/// What a thread does: it calls `worker`, which stands next, and ends.
fn be_thread() -> [Code; 4]
    ensures { result ≡ is.be_thread }
{
    [jal(Ra, 4 * 4), li(A0, 0), li(A7, EXIT), ecall()]
}

/// What the first thread does, and from its end on what each of the others does.
pub fn start(alloc: Global) -> Result<Vec<Code>, NoMemory>
    ensures { IfOk result (λ code. code.items ≡ is.start) }
{
    let mut code = Vec::from_slice(alloc, &begin())?;
    code.extend_from_slice(&make_threads())?;
    code.extend_from_slice(&wait_for_threads())?;
    code.extend_from_slice(&make_digits())?;
    code.extend_from_slice(&write_and_end())?;
    code.extend_from_slice(&be_thread())?;
    Ok(code)
}

/// Calls the functions of the table in turn, in 1000 `n` rounds.
pub fn worker(n: i32) -> [Code; 17]
    requires { IsImm12 n }
    ensures { result ≡ is.worker n }
{
    [
        addi(Sp, Sp, -16),
        sd(Ra, 0, Sp),
        lui(S0, DATA_PAGE),
        li(T0, 1000),
        li(S2, n),
        alu(AluOp::Mul, S2, T0, S2),
        li(S1, 0),
        andi(T0, S1, 7),
        slli(T0, T0, 3),
        alu(AluOp::Add, T0, S0, T0),
        load(Width::D, T1, 0, T0),
        jalr(Ra, T1),
        addi(S1, S1, 1),
        branch(Cond::Ne, S1, S2, -4 * 6),
        load(Width::D, Ra, 0, Sp),
        addi(Sp, Sp, 16),
        ret(),
    ]
}

/// A function of the table: it adds so much to the counter.
pub fn adder(amount: i32) -> [Code; 5]
    requires { IsImm12 amount }
    ensures { result ≡ is.adder amount }
{
    [
        li(T0, amount),
        lui(T1, DATA_PAGE),
        addi(T1, T1, COUNTER),
        amoadd(T0, T1),
        ret(),
    ]
}
