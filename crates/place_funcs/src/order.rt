//! Groups in their last order.

ghost use Rattle.std.specs.Prelude.{◌≡◌, ◌<◌, ◌≤◌, [], All, length, IfOk, OnOk};
ghost use Rattle.std.specs.List.{flat_map};
ghost use Rattle.branch_ring.specs.Profiles.{IsKept};
ghost use Rattle.place_funcs.specs.Edges.{count};
ghost use Rattle.place_funcs.specs.Grouping.{group_of, in_rank, ranks};

use crate::count::count_of;
use crate::groups::Groups;
use branch_ring::counted::Counted;
use image::ranges::Func;
use oc_base::fault::NoMemory;
use oc_base::items::Items;
use std::alloc::Global;
use std::collections::BTreeMap;

/// Groups by how seldom the profile goes from them, and then by name.
type Ranked = BTreeMap<(u64, u32), Items<u32>>;

/// Puts a group at its place.
fn put_in(
    alloc: Global,
    ranked: &mut Ranked,
    funcs: &[Func],
    profile: &[Counted],
    name: u32,
    group: Items<u32>,
) -> Result<(), NoMemory>
    requires ordered { All (λ g. g.from ≤ g.to) funcs.now }
    requires kept { IsKept profile.now }
    requires there { All (λ f. f < length funcs.now) group }
    ensures { OnOk result (ranked.new.entries ≡ in_rank (count funcs.now profile.now) ranked.old.entries (name, group)) }
{
    let count = count_of(alloc, funcs, profile, group.as_slice())?;
    ranked.insert((u64::MAX - count, name), group)?;
    Ok(())
}

fn ranked(
    alloc: Global,
    funcs: &[Func],
    profile: &[Counted],
    groups: Groups,
) -> Result<Ranked, NoMemory>
    requires ordered { All (λ g. g.from ≤ g.to) funcs.now }
    requires kept { IsKept profile.now }
    requires there { All (λ e. All (λ f. f < length funcs.now) e.1) groups.entries }
    ensures { IfOk result (λ m. m.entries ≡ ranks (count funcs.now profile.now) [] groups.entries) }
{
    let mut ranked = BTreeMap::new(alloc);
    for (name, group) in groups {
        put_in(alloc, &mut ranked, funcs, profile, name, group)?;
    }
    Ok(ranked)
}

fn in_a_row(alloc: Global, ranked: &Ranked) -> Result<Vec<u32>, NoMemory>
    ensures { IfOk result (λ v. v.items ≡ flat_map group_of ranked.now.entries) }
{
    let mut order = Vec::new(alloc);
    for (_, group) in ranked {
        order.extend_from_slice(group.as_slice())?;
    }
    Ok(order)
}

/// The functions of groups, where the groups come by how often the profile goes from them.
pub fn in_order(
    alloc: Global,
    funcs: &[Func],
    profile: &[Counted],
    groups: Groups,
) -> Result<Vec<u32>, NoMemory>
    requires ordered { All (λ g. g.from ≤ g.to) funcs.now }
    requires kept { IsKept profile.now }
    requires there { All (λ e. All (λ f. f < length funcs.now) e.1) groups.entries }
    ensures { IfOk result (λ v. v.items ≡ flat_map group_of (ranks (count funcs.now profile.now) [] groups.entries)) }
{
    let ranked = ranked(alloc, funcs, profile, groups)?;
    in_a_row(alloc, &ranked)
}
