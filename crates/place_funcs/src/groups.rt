//! Groups by their names, and their merges.

ghost use Rattle.std.specs.Prelude.{◌≡◌, ◌≢◌, ◌+◌, ◌<◌, ◌^◌, ℕ, map, AllPairs, IsSome, None, IfOk, OnOk};
ghost use Rattle.std.specs.Ordering.{nat_cmp};
ghost use Rattle.std.specs.BTreeMap.{btree_map_len, get, insert_entry};
ghost use Rattle.place_funcs.specs.Groups.{alone, joined};
ghost use Rattle.place_funcs.specs.Links.{link_at, links_after, AreSmall, IsQueued};
ghost use Rattle.place_funcs.specs.Grouping.{group_at, merged, named};

use crate::join::join;
use crate::merge::merge_links;
use crate::table::{Nearest, Table};
use oc_base::fault::NoMemory;
use oc_base::items::Items;
use std::alloc::Global;
use std::collections::BTreeMap;

pub type Groups = BTreeMap<u32, Items<u32>>;

/// Puts a group of one function after the others.
fn push_single(alloc: Global, groups: &mut Groups, function: u32) -> Result<(), NoMemory>
    ensures { OnOk result (groups.new.entries ≡ insert_entry nat_cmp groups.old.entries function (alone function)) }
{
    let group = Items::from_slice(alloc, &[function])?;
    groups.insert(function, group)?;
    Ok(())
}

/// Each function as a group.
pub fn singles(alloc: Global, functions: &[u32]) -> Result<Groups, NoMemory>
    requires { AllPairs (λ f g. f < g) functions.now }
    ensures { IfOk result (λ m. m.entries ≡ map named (map alone functions.now)) }
{
    let mut groups = BTreeMap::new(alloc);
    for f in functions {
        push_single(alloc, &mut groups, *f)?;
    }
    Ok(groups)
}

/// The two groups of a link as one.
fn joined(alloc: Global, groups: &Groups, nearest: &Nearest) -> Result<Items<u32>, NoMemory>
    requires first { IsSome (get nat_cmp groups.now nearest.now.first) }
    requires second { IsSome (get nat_cmp groups.now nearest.now.second) }
    ensures { IfOk result (λ v. v ≡ joined nearest.now.link.f nearest.now.link.g (group_at groups.now.entries nearest.now.first) (group_at groups.now.entries nearest.now.second)) }
{
    let first = &groups[&nearest.first];
    let second = &groups[&nearest.second];
    let all = join(
        alloc,
        nearest.link.f,
        nearest.link.g,
        first.as_slice(),
        second.as_slice(),
    )?;
    Ok(Items::from_vec(all))
}

/// Merges the two groups of a link.
fn merge_groups(alloc: Global, groups: &mut Groups, nearest: &Nearest) -> Result<(), NoMemory>
    requires first { IsSome (get nat_cmp groups.old nearest.now.first) }
    requires second { IsSome (get nat_cmp groups.old nearest.now.second) }
    requires apart { nearest.now.first ≢ nearest.now.second }
    ensures entries { OnOk result (groups.new.entries ≡ merged nearest.now groups.old.entries) }
    ensures fewer { OnOk result (btree_map_len groups.new < btree_map_len groups.old) }
{
    let group = joined(alloc, groups, nearest)?;
    groups.remove(&nearest.second);
    groups.insert(nearest.first, group)?;
    Ok(())
}

/// Merges the two groups of a link, and their links.
pub fn merge(
    alloc: Global,
    table: &mut Table,
    groups: &mut Groups,
    nearest: &Nearest,
) -> Result<(), NoMemory>
    requires first { IsSome (get nat_cmp groups.old nearest.now.first) }
    requires second { IsSome (get nat_cmp groups.old nearest.now.second) }
    requires below { nearest.now.second + 1 < 2 ^ 32 }
    requires apart { nearest.now.first ≢ nearest.now.second }
    requires none { (x : ℕ) → link_at table.old.links x x ≡ None }
    requires even { (x y : ℕ) → IsSome (link_at table.old.links x y) → IsSome (link_at table.old.links y x) }
    requires small { AreSmall (link_at table.old.links) }
    requires small_after { AreSmall (links_after (link_at table.old.links) nearest.now.first nearest.now.second) }
    requires queued { IsQueued table.old }
    ensures entries { OnOk result (groups.new.entries ≡ merged nearest.now groups.old.entries) }
    ensures fewer { OnOk result (btree_map_len groups.new < btree_map_len groups.old) }
    ensures links { OnOk result ((p q : ℕ) → link_at table.new.links p q ≡ links_after (link_at table.old.links) nearest.now.first nearest.now.second p q) }
    ensures queued { OnOk result (IsQueued table.new) }
{
    merge_groups(alloc, groups, nearest)?;
    merge_links(alloc, table, nearest.first, nearest.second)
}
