//! The encoder: from an instruction to its word, and to the word of a jump or branch between two addresses.
#![tactic(auto)]

ghost use Rattle.std.specs.Prelude.{◌≡◌, ℕ, ◌<◌, ◌^◌, pos, ◌-ℤ◌, IsSome, IfSome, IsOk, IfOk, ◌↔◌, FitsSigned};
ghost use Rattle.std.specs.Int.{w32};
ghost use Rattle.rv_isa.specs.Instr.{HasWord};
ghost use Rattle.rv_isa.specs.Ranges.{IsOffB, IsOffJ};
ghost use Rattle.rv_isa.specs.Reads.{Reads};
ghost use Rattle.rv_isa.specs.declared.instr.Instr.{Instr};

mod formats;
pub mod laws;
mod tables;
mod word;

use rv_isa::fields::{OffB, OffJ, Reg};
use rv_isa::instr::{Cond, Instr};
use word::word;

/// A JAL goes back by at most so many bytes, and ahead by 2 less.
pub const JAL_REACH: u64 = 1 << 20;

/// A branch goes back by at most so many bytes, and ahead by 2 less.
pub const BRANCH_REACH: u64 = 1 << 12;

/// What a LUI or an AUIPC adds for each unit of its upper bits.
pub const HIGH_UNIT: u64 = 1 << 12;

/// How many values the upper bits of a LUI or an AUIPC have.
pub const HIGH_COUNT: u64 = 1 << 20;

/// A signed number of 12 bits goes from `-LOW_HALF` to `LOW_HALF - 1`.
pub const LOW_HALF: u64 = 1 << 11;

/// A jump or branch can't go that far, or not to an odd distance.
#[derive(Clone, Copy, Debug, PartialEq, Eq)]
pub struct OutOfReach;

/// The word of an instruction that has one, as `Instr::new_ok` tells. No other word of 32 bits reads as it.
#[tactic(auto, using(crate::proofs::OneWord::one_word))]
pub fn encode(i: &Instr) -> u32
    requires { HasWord i.now }
    ensures reads { Reads result i.now }
    ensures only { (w : ℕ) → w < 2 ^ 32 → Reads w i.now → w ≡ result }
{
    word(i)
}

/// The word of a JAL at address `at` that goes to `to`.
///
/// The distance `to - at` is that of two numbers without a bound, so it doesn't wrap: from one end of the address space
/// the other end is out of reach.
pub fn jal_to(rd: Reg, at: u64, to: u64) -> Result<u32, OutOfReach>
    ensures ok { IfOk result (λ w. Reads w (Instr.Jal rd (pos to -ℤ pos at))) }
    ensures reach { IsOk result ↔ IsOffJ (pos to -ℤ pos at) }
{
    let far = distance(at, to).ok_or(OutOfReach)?;
    let off = OffJ::new(far).ok_or(OutOfReach)?;
    Ok(word(&Instr::Jal { rd, off }))
}

/// The word of a branch at address `at` that goes to `to`. The distance is that of `jal_to`.
pub fn branch_to(cond: Cond, rs1: Reg, rs2: Reg, at: u64, to: u64) -> Result<u32, OutOfReach>
    ensures ok { IfOk result (λ w. Reads w (Instr.Branch cond rs1 rs2 (pos to -ℤ pos at))) }
    ensures reach { IsOk result ↔ IsOffB (pos to -ℤ pos at) }
{
    let far = distance(at, to).ok_or(OutOfReach)?;
    let off = OffB::new(far).ok_or(OutOfReach)?;
    Ok(word(&Instr::Branch {
        cond,
        rs1,
        rs2,
        off,
    }))
}

/// How far `to` is from `at`, where an `i32` can say it.
fn distance(at: u64, to: u64) -> Option<i32>
    ensures some { IsSome result ↔ FitsSigned w32 (pos to -ℤ pos at) }
    ensures value { IfSome result (λ far. far ≡ pos to -ℤ pos at) }
{
    i32::try_from(i128::from(to) - i128::from(at)).ok()
}

#[cfg(test)]
mod tests;
