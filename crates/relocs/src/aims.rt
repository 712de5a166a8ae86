//! Places that relocations name, as a list.

ghost use Rattle.std.specs.Prelude.{◌≡◌, ℕ, ◌==◌, ◌&&◌, Bool, Option, map, if◌then◌else◌, IfOk, OnOk};
ghost use Rattle.std.specs.Option.{option_or};
ghost use Rattle.std.specs.Ordering.{nat_cmp};
ghost use Rattle.std.specs.BTreeMap.{get, IsOrdered};
ghost use Rattle.elf_read.specs.declared.tables.Reloc.{Reloc as RelocData};
ghost use Rattle.finite.specs.Lists.{Lists};
ghost use Rattle.relocs.specs.Named.{aim_at, aim_entry};

use elf_read::tables::Reloc;
use image::ranges::Aim;
use oc_base::fault::NoMemory;
use std::alloc::Global;
use std::collections::BTreeMap;

/// Which relocations name a place, and what a place aims at.
pub trait Rule {
    ghost takes: { Self → RelocData → Bool };

    ghost aim: { Self → ℕ → Option ℕ };

    fn takes(&self, r: &Reloc) -> bool
        ensures { result ≡ takes self.now r.now };

    fn aim(&self, at: u64) -> Option<u32>
        ensures { result ≡ aim self.now at };
}

fn note<R: Rule>(aims: &mut BTreeMap<u64, u32>, rule: &R, r: &Reloc) -> Result<(), NoMemory>
    ensures { OnOk result ((q : ℕ) → get nat_cmp aims.new q
        ≡ (if R.takes rule.now r.now && r.now.at == q then option_or (R.aim rule.now q) (get nat_cmp aims.old q) else get nat_cmp aims.old q)) }
{
    if rule.takes(r)
        && let Some(func) = rule.aim(r.at)
    {
        aims.insert(r.at, func)?;
    }
    Ok(())
}

fn gather<R: Rule>(
    alloc: Global,
    rule: &R,
    relocs: &[Reloc],
) -> Result<BTreeMap<u64, u32>, NoMemory>
    ensures { IfOk result (λ m. (q : ℕ) → get nat_cmp m q ≡ aim_at (R.takes rule.now) (R.aim rule.now) relocs.now q) }
{
    let mut aims = BTreeMap::new(alloc);
    for r in relocs {
        note(&mut aims, rule, r)?;
    }
    Ok(aims)
}

fn listed(alloc: Global, aims: &BTreeMap<u64, u32>) -> Result<Vec<Aim>, NoMemory>
    ensures entries { IfOk result (λ v. map aim_entry v.items ≡ aims.now.entries) }
    ensures ordered { IsOrdered nat_cmp aims.now }
{
    let mut all = Vec::with_capacity(alloc, aims.len())?;
    for (at, func) in aims {
        all.push(Aim {
            at: *at,
            func: *func,
        })?;
    }
    Ok(all)
}

/// The places that a rule names: each address once, ascending.
pub fn aims<R: Rule>(alloc: Global, rule: &R, relocs: &[Reloc]) -> Result<Vec<Aim>, NoMemory>
    ensures { IfOk result (λ v. Lists (aim_at (R.takes rule.now) (R.aim rule.now) relocs.now) (map aim_entry v.items)) }
{
    let aims = gather(alloc, rule, relocs)?;
    let all = listed(alloc, &aims)?;
    Ok(all)
}
