//! The links of one group go over to another.

ghost use Rattle.std.specs.Prelude.{◌≡◌, ◌≢◌, ◌+◌, ◌<◌, ◌^◌, ℕ, map, IsSome, None, IfOk, OnOk};
ghost use Rattle.place_funcs.specs.Links.{link_at, links_after, links_of, moved, names_cmp, second_name, AreSmall, IsQueued};
ghost use Rattle.std.specs.BTreeMap.{IsOrdered};

use crate::link::Link;
use crate::table::{Table, add, take};
use oc_base::fault::NoMemory;
use std::alloc::Global;
use std::collections::BTreeMap;

/// The names to which a group has a link.
fn neighbours(
    alloc: Global,
    links: &BTreeMap<(u32, u32), Link>,
    name: u32,
) -> Result<Vec<u32>, NoMemory>
    requires below { name + 1 < 2 ^ 32 }
    ensures names { IfOk result (λ v. v.items ≡ map second_name (links_of name links.now.entries)) }
    ensures ordered { IsOrdered names_cmp links.now }
{
    let mut names = Vec::new(alloc);
    for (pair, _) in links.range((name, 0)..(name + 1, 0)) {
        names.push(pair.1)?;
    }
    Ok(names)
}

/// Moves the links between `b` and `y` to `a` and `y`.
fn move_links(table: &mut Table, a: u32, b: u32, y: u32) -> Result<(), NoMemory>
    requires apart { (a ≢ b) × (y ≢ b) × (y ≢ a) }
    requires small { AreSmall (link_at table.old.links) }
    requires queued { IsQueued table.old }
    ensures links { OnOk result ((p q : ℕ) → link_at table.new.links p q ≡ moved (link_at table.old.links) a b y p q) }
    ensures queued { OnOk result (IsQueued table.new) }
{
    let there = take(table, b, y);
    let back = take(table, y, b);
    add(table, a, y, there)?;
    add(table, y, a, back)
}

/// Moves all links of `b` to `a`, but for that between the two, which is taken out.
pub fn merge_links(alloc: Global, table: &mut Table, a: u32, b: u32) -> Result<(), NoMemory>
    requires below { b + 1 < 2 ^ 32 }
    requires apart { a ≢ b }
    requires none { (x : ℕ) → link_at table.old.links x x ≡ None }
    requires even { (x y : ℕ) → IsSome (link_at table.old.links x y) → IsSome (link_at table.old.links y x) }
    requires small { AreSmall (link_at table.old.links) }
    requires small_after { AreSmall (links_after (link_at table.old.links) a b) }
    requires queued { IsQueued table.old }
    ensures links { OnOk result ((p q : ℕ) → link_at table.new.links p q ≡ links_after (link_at table.old.links) a b p q) }
    ensures queued { OnOk result (IsQueued table.new) }
{
    take(table, a, b);
    take(table, b, a);
    let names = neighbours(alloc, &table.links, b)?;
    for y in &names {
        move_links(table, a, b, *y)?;
    }
    Ok(())
}
