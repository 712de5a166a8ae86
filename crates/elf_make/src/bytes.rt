//! Numbers and parts at the end of a file.

ghost use Rattle.std.specs.Prelude.{◌≡◌, ◌+◌, ◌-◌, ◌≤◌, ◌<◌, ◌++◌, length, replicate, IfOk, OnOk};
ghost use Rattle.rv_asm.specs.Emission.{round_up};
ghost use Rattle.elf_make.specs.Bytes.{number, placed};

use crate::rows::Place;
use oc_base::fault::NoMemory;

#[tactic(auto, unfolding(crate::specs::Bytes::number))]
pub(crate) fn push_u16(out: &mut Vec<u8>, n: u16) -> Result<(), NoMemory>
    ensures { OnOk result (out.new.items ≡ out.old.items ++ number 2 n) }
{
    out.extend_from_slice(&n.to_le_bytes())?;
    Ok(())
}

#[tactic(auto, unfolding(crate::specs::Bytes::number))]
pub(crate) fn push_u32(out: &mut Vec<u8>, n: u32) -> Result<(), NoMemory>
    ensures { OnOk result (out.new.items ≡ out.old.items ++ number 4 n) }
{
    out.extend_from_slice(&n.to_le_bytes())?;
    Ok(())
}

#[tactic(auto, unfolding(crate::specs::Bytes::number))]
pub(crate) fn push_u64(out: &mut Vec<u8>, n: u64) -> Result<(), NoMemory>
    ensures { OnOk result (out.new.items ≡ out.old.items ++ number 8 n) }
{
    out.extend_from_slice(&n.to_le_bytes())?;
    Ok(())
}

#[tactic(auto, unfolding(crate::specs::Bytes::number))]
pub(crate) fn push_u8(out: &mut Vec<u8>, n: u8) -> Result<(), NoMemory>
    ensures { OnOk result (out.new.items ≡ out.old.items ++ number 1 n) }
{
    out.push(n)?;
    Ok(())
}

/// Adds zeros up to a place, unless the file reaches it.
pub(crate) fn fill(file: &mut Vec<u8>, at: usize) -> Result<(), NoMemory>
    ensures { OnOk result (file.new.items ≡ file.old.items ++ replicate (at - length file.old.items) 0) }
{
    let count = at.saturating_sub(file.len());
    for _i in 0..count {
        file.push(0)?;
    }
    Ok(())
}

/// Adds a part at its place.
pub(crate) fn place(file: &mut Vec<u8>, at: usize, part: &[u8]) -> Result<(), NoMemory>
    requires { length file.old.items ≤ at }
    ensures part { OnOk result (file.new.items ≡ placed file.old.items at part.now) }
    ensures len { OnOk result (length file.new.items ≡ at + length part.now) }
{
    fill(file, at)?;
    file.extend_from_slice(part)?;
    Ok(())
}

/// Adds a part at the next multiple of 8, and answers its place.
pub(crate) fn place_next(file: &mut Vec<u8>, part: &[u8]) -> Result<Place, NoMemory>
    ensures at { IfOk result (λ place. place.offset ≡ round_up 8 (length file.old.items)) }
    ensures size { IfOk result (λ place. place.size ≡ length part.now) }
    ensures part { OnOk result (file.new.items ≡ placed file.old.items (round_up 8 (length file.old.items)) part.now) }
    ensures len { OnOk result (length file.new.items ≡ round_up 8 (length file.old.items) + length part.now) }
{
    let at = (file.len() + 7) / 8 * 8;
    place(file, at, part)?;
    Ok(Place {
        offset: at as u64,
        size: part.len() as u64,
    })
}
