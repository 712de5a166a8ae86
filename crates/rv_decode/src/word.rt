//! The fields and the immediates of a word.
ghost use Rattle.std.specs.Prelude.{◌≡◌, ◌<◌, ◌≤◌, ◌+◌, ◌-◌, ◌*◌, ◌^◌, pos, ◌-ℤ◌};
ghost use Rattle.rv_isa.specs.Word.{bits, opcode, rd_of, funct3, rs1_of, rs2_of, funct7, imm_i, imm_s, imm_b, imm_u, imm_j};
ghost use Rattle.rv_isa.specs.Reads.{order_of};

use rv_isa::fields::{Imm12, Imm20, OffB, OffJ, Reg, Shift};
use rv_isa::instr::Order;

/// Bits `hi` down to `lo`, fewer than 32 of them.
#[inline]
pub fn bits(w: u32, hi: u32, lo: u32) -> u32
    requires order { lo ≤ hi }
    requires part { hi < 31 + lo }
    requires top { hi < 32 }
    ensures { result ≡ bits w hi lo }
{
    (w >> lo) & ((1 << (hi - lo + 1)) - 1)
}

/// A number below `2 * half` as two's complement: the upper half stands for the negative numbers.
#[inline]
fn signed(n: u32, half: u32) -> i32
    requires most { half ≤ 2 ^ 20 }
    requires small { n < 2 * half }
    ensures low { n < half → result ≡ pos n }
    ensures high { half ≤ n → result ≡ pos n -ℤ pos (2 * half) }
{
    if n < half {
        n as i32
    } else {
        n as i32 - (2 * half) as i32
    }
}

#[inline]
pub fn opcode(w: u32) -> u32
    ensures { result ≡ opcode w }
{
    bits(w, 6, 0)
}

#[inline]
pub fn funct3(w: u32) -> u32
    ensures { result ≡ funct3 w }
{
    bits(w, 14, 12)
}

#[inline]
pub fn funct7(w: u32) -> u32
    ensures { result ≡ funct7 w }
{
    bits(w, 31, 25)
}

#[inline]
pub fn rd(w: u32) -> Reg
    ensures { result ≡ rd_of w }
{
    Reg::new(bits(w, 11, 7) as u8).unwrap()
}

#[inline]
pub fn rs1(w: u32) -> Reg
    ensures { result ≡ rs1_of w }
{
    Reg::new(bits(w, 19, 15) as u8).unwrap()
}

#[inline]
pub fn rs2(w: u32) -> Reg
    ensures { result ≡ rs2_of w }
{
    Reg::new(bits(w, 24, 20) as u8).unwrap()
}

/// A shift amount of 6 bits.
#[inline]
pub fn shift(w: u32) -> Shift
    ensures { result ≡ bits w 25 20 }
{
    Shift::new(bits(w, 25, 20) as i32).unwrap()
}

/// A shift amount of 5 bits.
#[inline]
pub fn shift_w(w: u32) -> Shift
    ensures { result ≡ bits w 24 20 }
{
    Shift::new(bits(w, 24, 20) as i32).unwrap()
}

#[inline]
pub fn order(w: u32) -> Order
    ensures { result ≡ order_of w }
{
    Order {
        aq: bits(w, 26, 26) == 1,
        rl: bits(w, 25, 25) == 1,
    }
}

#[inline]
pub fn imm_i(w: u32) -> Imm12
    ensures { result ≡ imm_i w }
{
    Imm12::new(signed(bits(w, 31, 20), 1 << 11)).unwrap()
}

/// The pieces of the immediate of an S instruction, put together.
#[inline]
fn pieces_s(w: u32) -> u32
    ensures sum { result ≡ bits w 31 25 * 2 ^ 5 + bits w 11 7 }
    ensures small { result < 2 ^ 12 }
{
    bits(w, 11, 7) | (bits(w, 31, 25) << 5)
}

#[inline]
pub fn imm_s(w: u32) -> Imm12
    ensures { result ≡ imm_s w }
{
    Imm12::new(signed(pieces_s(w), 1 << 11)).unwrap()
}

#[inline]
pub fn imm_u(w: u32) -> Imm20
    ensures { result ≡ imm_u w }
{
    Imm20::new(bits(w, 31, 12) as i32).unwrap()
}

/// The pieces of the immediate of a B instruction, put together.
#[inline]
fn pieces_b(w: u32) -> u32
    ensures sum { result ≡ bits w 31 31 * 2 ^ 12 + bits w 7 7 * 2 ^ 11 + bits w 30 25 * 2 ^ 5 + bits w 11 8 * 2 ^ 1 }
    ensures small { result < 2 ^ 13 }
{
    (bits(w, 11, 8) << 1) | (bits(w, 30, 25) << 5) | (bits(w, 7, 7) << 11) | (bits(w, 31, 31) << 12)
}

#[inline]
pub fn imm_b(w: u32) -> OffB
    ensures { result ≡ imm_b w }
{
    OffB::new(signed(pieces_b(w), 1 << 12)).unwrap()
}

/// The pieces of the immediate of a J instruction, put together.
#[inline]
fn pieces_j(w: u32) -> u32
    ensures sum { result ≡ bits w 31 31 * 2 ^ 20 + bits w 19 12 * 2 ^ 12 + bits w 20 20 * 2 ^ 11 + bits w 30 21 * 2 ^ 1 }
    ensures small { result < 2 ^ 21 }
{
    (bits(w, 30, 21) << 1)
        | (bits(w, 20, 20) << 11)
        | (bits(w, 19, 12) << 12)
        | (bits(w, 31, 31) << 20)
}

#[inline]
pub fn imm_j(w: u32) -> OffJ
    ensures { result ≡ imm_j w }
{
    OffJ::new(signed(pieces_j(w), 1 << 20)).unwrap()
}
