//! A profile as counts on blocks and on edges between them.

ghost use Rattle.std.specs.Prelude.{◌≡◌, ◌+◌, ◌<◌, ◌==◌, ◌^◌, ◌++◌, ℕ, codes, flat_map, map, sum_by, string_bytes, unwrap_or, IfOk, OnOk, if◌then◌else◌};
ghost use Rattle.std.specs.Fmt.{decimal};
ghost use Rattle.std.specs.Ordering.{nat_cmp};
ghost use Rattle.std.specs.BTreeMap.{get};
ghost use Rattle.branch_ring.specs.Profiles.{counted, count_of as count, IsKept};
ghost use Rattle.seen.specs.Profiles.{entered, ran_text, ran_line, edge_text, edge_line, profile_head, profile_text};
ghost use Rattle.seen.specs.Entering.{entered_at};

use crate::spot::{Places, Spot, push_block, push_place};
use branch_ring::profile::Profile;
use looking::func::name_of;
use looking::piece::push_name;
use oc_base::fault::NoMemory;
use oc_base::items::Items;
use std::alloc::Global;
use std::collections::BTreeMap;
use std::fmt::Write;

fn count_at(counts: &BTreeMap<u64, u64>, at: u64) -> u64
    ensures { result ≡ entered_at counts.now at }
{
    match counts.get(&at) {
        Some(count) => *count,
        None => 0,
    }
}

fn add(counts: &mut BTreeMap<u64, u64>, to: u64, count: u64) -> Result<(), NoMemory>
    requires { entered_at counts.old to + count < 2 ^ 64 }
    ensures { OnOk result ((a : ℕ) → entered_at counts.new a ≡ entered_at counts.old a + (if to == a then count else 0)) }
{
    let known = count_at(counts, to);
    counts.insert(to, known + count)?;
    Ok(())
}

// How often each address was entered.
fn counts_of(alloc: Global, rows: &[(u64, u64, u64)]) -> Result<BTreeMap<u64, u64>, NoMemory>
    requires { IsKept (map counted rows.now) }
    ensures { IfOk result (λ counts. (a : ℕ) → entered_at counts a ≡ entered (map counted rows.now) a) }
{
    let mut counts = BTreeMap::new(alloc);
    for row in rows {
        add(&mut counts, row.1, row.2)?;
    }
    Ok(counts)
}

// How often each address was entered by a profile.
#[derive(Drop)]
pub(crate) struct Entries<'a> {
    pub(crate) profile: &'a Profile,
    counts: BTreeMap<u64, u64>,
    ghost counted: { (a : ℕ) → entered_at counts a ≡ entered profile.now a },
}

impl Entries<'_> {
    pub(crate) fn of<'a>(alloc: Global, profile: &'a Profile) -> Result<Entries<'a>, NoMemory>
        ensures { IfOk result (λ entries. entries.profile.now ≡ profile.now) }
    {
        profile.kept();
        let counts = counts_of(alloc, profile.counts())?;
        Ok(Entries { profile, counts })
    }

    pub(crate) fn at(&self, a: u64) -> u64
        ensures { result ≡ entered self.now.profile.now a }
    {
        count_at(&self.counts, a)
    }
}

// The line of a block that was entered so often, if it was.
fn push_ran(text: &mut String, names: &[Items<u8>], s: Spot, count: u64) -> Result<(), NoMemory>
    ensures { OnOk result (string_bytes text.new ≡ string_bytes text.old ++ ran_text names.now s count) }
{
    if count == 0 {
        return Ok(());
    }
    text.push_str("ran ")?;
    push_block(text, s)?;
    text.push(' ')?;
    push_name(text, name_of(names, s.func))?;
    writeln!(text, " {count}")?;
    Ok(())
}

fn push_all_ran(
    text: &mut String,
    names: &[Items<u8>],
    spots: &[Spot],
    entries: &Entries<'_>,
) -> Result<(), NoMemory>
    ensures { OnOk result (string_bytes text.new ≡ string_bytes text.old ++ flat_map (ran_line entries.now.profile.now names.now) spots.now) }
{
    for s in spots {
        push_ran(text, names, *s, entries.at(s.from))?;
    }
    Ok(())
}

fn push_edge(
    text: &mut String,
    places: &Places,
    from: u64,
    to: u64,
    count: u64,
) -> Result<(), NoMemory>
    ensures { OnOk result (string_bytes text.new ≡ string_bytes text.old ++ edge_text places.now.list from to count) }
{
    text.push_str("edge ")?;
    push_place(text, places, from)?;
    text.push(' ')?;
    push_place(text, places, to)?;
    writeln!(text, " {count}")?;
    Ok(())
}

fn push_rows(text: &mut String, places: &Places, rows: &[(u64, u64, u64)]) -> Result<(), NoMemory>
    ensures { OnOk result (string_bytes text.new ≡ string_bytes text.old ++ flat_map (λ row. edge_line places.now.list (counted row)) rows.now) }
{
    for (from, to, count) in rows {
        push_edge(text, places, *from, *to, *count)?;
    }
    Ok(())
}

fn push_edges(text: &mut String, places: &Places, profile: &Profile) -> Result<(), NoMemory>
    ensures { OnOk result (string_bytes text.new ≡ string_bytes text.old ++ flat_map (edge_line places.now.list) profile.now) }
{
    push_rows(text, places, profile.counts())?;
    Ok(())
}

#[tactic(auto, using(crate::proofs::Entered::total_more, crate::proofs::Entered::total_fits, crate::proofs::Entered::total_done))]
fn total(rows: &[(u64, u64, u64)]) -> u64
    requires { IsKept (map counted rows.now) }
    ensures { result ≡ sum_by count (map counted rows.now) }
{
    let mut total = 0;
    for row in rows {
        total += row.2;
    }
    total
}

// How many transfers a profile counts.
fn transfers_of(profile: &Profile) -> u64
    ensures { result ≡ sum_by count profile.now }
{
    profile.kept();
    total(profile.counts())
}

fn push_head(text: &mut String, transfers: u64) -> Result<(), NoMemory>
    ensures { OnOk result (string_bytes text.new ≡ string_bytes text.old ++ profile_head transfers) }
{
    writeln!(text, "profile {transfers} transfers")?;
    Ok(())
}

/// Adds the profile of a snapshot: how often each block was entered, and how often each transfer was made.
#[tactic(auto, unfolding(crate::specs::Profiles::profile_text))]
pub fn push_profile(
    alloc: Global,
    text: &mut String,
    places: &Places,
    names: &[Items<u8>],
    profile: &Profile,
) -> Result<(), NoMemory>
    ensures { OnOk result (string_bytes text.new ≡ string_bytes text.old ++ profile_text places.now.list names.now profile.now) }
{
    let entries = Entries::of(alloc, profile)?;
    push_head(text, transfers_of(profile))?;
    push_all_ran(text, names, places.list.as_slice(), &entries)?;
    push_edges(text, places, profile)
}
