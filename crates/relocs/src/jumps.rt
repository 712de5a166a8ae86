//! Where the words that jump go.

ghost use Rattle.std.specs.Prelude.{◌≡◌, ◌<◌, ◌^◌, IfSome};
ghost use Rattle.image.specs.Jumps.{jal_goes_to, goes_to, jal_target, direct_target, far_target, high_of, low_of, sum_of};

use image::targets::{made_by, target};
use rv_decode::decode;
use rv_isa::instr::Instr;

/// Where an instruction goes that is a JAL.
fn jal_goes_to(at: u64, i: &Instr) -> Option<u64>
    ensures { result ≡ jal_goes_to at i.now }
{
    match i {
        Instr::Jal { off, .. } => Some(target(at, off.get())),
        _ => None,
    }
}

/// Where an instruction goes that is a JAL or a branch.
fn goes_to(at: u64, i: &Instr) -> Option<u64>
    ensures { result ≡ goes_to at i.now }
{
    match i {
        Instr::Jal { off, .. } => Some(target(at, off.get())),
        Instr::Branch { off, .. } => Some(target(at, off.get())),
        _ => None,
    }
}

/// The register and the upper bits of an AUIPC.
fn high_of(i: &Instr) -> Option<(u8, u32)>
    ensures is { result ≡ high_of i.now }
    ensures range { IfSome result (λ h. h.1 < 2 ^ 20) }
{
    match i {
        Instr::Auipc { rd, imm } => Some((rd.get(), imm.get() as u32)),
        _ => None,
    }
}

/// The register and the distance of a JALR.
fn low_of(i: &Instr) -> Option<(u8, i32)>
    ensures { result ≡ low_of i.now }
{
    match i {
        Instr::Jalr { rs1, off, .. } => Some((rs1.get(), off.get())),
        _ => None,
    }
}

/// Where a word goes that reads as a JAL.
#[tactic(auto, unfolding(image::specs::Jumps::jal_target))]
pub fn jal_target(word: u32, at: u64) -> Option<u64>
    ensures { result ≡ jal_target word at }
{
    let i = decode(word)?;
    jal_goes_to(at, &i)
}

/// Where a word goes that reads as a JAL or a branch.
#[tactic(auto, unfolding(image::specs::Jumps::direct_target))]
pub fn direct_target(word: u32, at: u64) -> Option<u64>
    ensures { result ≡ direct_target word at }
{
    let i = decode(word)?;
    goes_to(at, &i)
}

/// Where a word and the one after it go that read as an AUIPC and a JALR by its register, which isn't x0.
#[tactic(auto, unfolding(image::specs::Jumps::far_target))]
pub fn far_target(first: u32, second: u32, at: u64) -> Option<u64>
    ensures { result ≡ far_target first second at }
{
    let i = decode(first)?;
    let high = high_of(&i)?;
    let j = decode(second)?;
    let low = low_of(&j)?;
    sum_of(at, high, low)
}

/// The sum that a JALR by the register of an AUIPC makes.
fn sum_of(at: u64, high: (u8, u32), low: (u8, i32)) -> Option<u64>
    requires { high.1 < 2 ^ 20 }
    ensures { result ≡ sum_of at high low }
{
    if high.0 != 0 && low.0 == high.0 {
        Some(target(made_by(at, high.1 as u64), low.1))
    } else {
        None
    }
}
