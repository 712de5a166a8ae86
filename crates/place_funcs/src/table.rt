//! The links of groups by the names of both, and a queue of those that are merged next.

ghost use Rattle.std.specs.Prelude.{◌≡◌, ℕ, ◌+◌, ◌<◌, ◌^◌, Bool, not, ◌==◌, ◌&&◌, ◌||◌, Some, None, IfSome, IfNone, OnOk, if◌then◌else◌};
ghost use Rattle.place_funcs.specs.Links.{both, has_place, link_at, waits, AreSmall, IsFirst, IsQueued};

use crate::link::{Link, sum};
use oc_base::fault::NoMemory;
use std::alloc::Global;
use std::collections::{BTreeMap, BTreeSet};

type Links = BTreeMap<(u32, u32), Link>;

type Queue = BTreeSet<(u128, u32, u32)>;

/// A link is kept under both orders of its two names, with the heaviest edge from the first group to the second. In the
/// queue it stands once, under the smaller name first, and the heaviest link is at the front.
#[derive(Drop)]
pub struct Table {
    pub links: Links,
    pub queue: Queue,
}

/// The link at the front of the queue.
#[derive(Drop)]
pub struct Nearest {
    pub first: u32,
    pub second: u32,
    pub link: Link,
}

/// Takes two groups out of the queue.
fn leave(queue: &mut Queue, x: u32, y: u32, link: Option<Link>)
    ensures { (r p q : ℕ) → has_place queue.new r p q ≡ (has_place queue.old r p q && not ((p == x) && ((q == y) && waits x y link r))) }
{
    let Some(link) = link else {
        return;
    };
    if x < y {
        queue.remove(&(u128::MAX - link.weight, x, y));
    }
}

/// Puts two groups into the queue.
fn enter(queue: &mut Queue, x: u32, y: u32, link: Link) -> Result<(), NoMemory>
    ensures { OnOk result ((r p q : ℕ) → has_place queue.new r p q ≡ (has_place queue.old r p q || ((p == x) && ((q == y) && waits x y (Some link) r)))) }
{
    if x < y {
        queue.insert((u128::MAX - link.weight, x, y))?;
    }
    Ok(())
}

/// An empty table.
pub fn empty(alloc: Global) -> Table
    ensures none { (p q : ℕ) → link_at result.links p q ≡ None }
    ensures queued { IsQueued result }
{
    Table {
        links: BTreeMap::new(alloc),
        queue: BTreeSet::new(alloc),
    }
}

fn link_of(links: &Links, x: u32, y: u32) -> Option<Link>
    ensures { result ≡ link_at links.now x y }
{
    links.get(&(x, y)).copied()
}

/// Takes a link out.
pub fn take(table: &mut Table, x: u32, y: u32) -> Option<Link>
    requires queued { IsQueued table.old }
    ensures value { result ≡ link_at table.old.links x y }
    ensures links { (p q : ℕ) → link_at table.new.links p q ≡ (if (p == x) && (q == y) then None else link_at table.old.links p q) }
    ensures queued { IsQueued table.new }
{
    let link = link_of(&table.links, x, y);
    leave(&mut table.queue, x, y, link);
    table.links.remove(&(x, y));
    link
}

/// Puts a link in the place of what is there.
pub fn put(table: &mut Table, x: u32, y: u32, link: Link) -> Result<(), NoMemory>
    requires queued { IsQueued table.old }
    ensures links { OnOk result ((p q : ℕ) → link_at table.new.links p q ≡ (if (p == x) && (q == y) then Some link else link_at table.old.links p q)) }
    ensures queued { OnOk result (IsQueued table.new) }
{
    take(table, x, y);
    enter(&mut table.queue, x, y, link)?;
    table.links.insert((x, y), link)?;
    Ok(())
}

/// The link, with what is there.
fn with(links: &Links, x: u32, y: u32, link: Link) -> Link
    requires { IfSome (link_at links.now x y) (λ l. l.weight + link.weight < 2 ^ 128) }
    ensures { Some result ≡ both (link_at links.now x y) (Some link) }
{
    match link_of(links, x, y) {
        Some(old) => sum(old, link),
        None => link,
    }
}

/// Adds a link to what is there.
pub fn add(table: &mut Table, x: u32, y: u32, link: Option<Link>) -> Result<(), NoMemory>
    requires queued { IsQueued table.old }
    requires small { IfSome (link_at table.old.links x y) (λ l. IfSome link (λ m. l.weight + m.weight < 2 ^ 128)) }
    ensures links { OnOk result ((p q : ℕ) → link_at table.new.links p q ≡ (if (p == x) && (q == y) then both (link_at table.old.links x y) link else link_at table.old.links p q)) }
    ensures queued { OnOk result (IsQueued table.new) }
{
    let Some(more) = link else {
        return Ok(());
    };
    let all = with(&table.links, x, y, more);
    put(table, x, y, all)
}

/// The link that comes before all others.
pub fn front(table: &Table) -> Option<Nearest>
    requires queued { IsQueued table.now }
    requires small { AreSmall (link_at table.now.links) }
    ensures first { IfSome result (λ n. IsFirst (link_at table.now.links) n.first n.second n.link) }
    ensures none { IfNone result ((p q : ℕ) → p < q → link_at table.now.links p q ≡ None) }
{
    let Some(place) = table.queue.first() else {
        return None;
    };
    let (_, first, second) = *place;
    let link = table.links[&(first, second)];
    Some(Nearest {
        first,
        second,
        link,
    })
}
