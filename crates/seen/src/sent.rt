//! Calls of text that go elsewhere now.

ghost use Rattle.std.specs.Prelude.{◌≡◌, ◌+◌, ◌<◌, ◌^◌, ◌++◌, All, flat_map, string_bytes, OnOk};
ghost use Rattle.world.specs.Worlds.{code_of};
ghost use Rattle.seen.specs.Sent.{changed, leads_now, call_text, sent_text, sent_line};

use crate::refused::push_named;
use image::ranges::Aim;
use looking::piece::push_address;
use oc_base::fault::NoMemory;
use oc_base::items::Items;
use relocs::jumps::direct_target;
use world::world::World;

// The word at an address, where it isn't the original one.
fn changed(world: &World, recent: &mut usize, at: u64) -> Option<u32>
    ensures { result ≡ changed world.now.image (code_of world.now) at }
{
    let now = world.look(recent, at).word?;
    if Some(now) == world.image().word(at) {
        return None;
    }
    Some(now)
}

// Where the word at an address leads, where it isn't the original one.
fn leads_now(world: &World, recent: &mut usize, at: u64) -> Option<u64>
    ensures { result ≡ leads_now world.now.image (code_of world.now) at }
{
    let now = changed(world, recent, at)?;
    direct_target(now, at)
}

fn push_call(
    text: &mut String,
    names: &[Items<u8>],
    kind: &str,
    call: Aim,
    to: u64,
) -> Result<(), NoMemory>
    ensures { OnOk result (string_bytes text.new ≡ string_bytes text.old ++ call_text names.now kind.now call to) }
{
    text.push_str(kind)?;
    text.push(' ')?;
    push_address(text, call.at)?;
    text.push_str(": ")?;
    push_named(text, names, call.func)?;
    text.push_str(" at ")?;
    push_address(text, to)?;
    text.push('\n')?;
    Ok(())
}

// The line of a call whose word stands this far past its place, if that leads elsewhere now.
fn push_sent(
    text: &mut String,
    world: &World,
    recent: &mut usize,
    names: &[Items<u8>],
    kind: &str,
    past: u64,
    call: Aim,
) -> Result<(), NoMemory>
    requires { call.at + past < 2 ^ 64 }
    ensures { OnOk result (string_bytes text.new ≡ string_bytes text.old ++ sent_line world.now.image (code_of world.now) names.now kind.now past call) }
{
    match leads_now(world, recent, call.at + past) {
        Some(to) => push_call(text, names, kind, call, to),
        None => Ok(()),
    }
}

/// Adds a line for each of these calls, whose words stand this far past their places, that leads elsewhere now.
pub fn push_calls(
    text: &mut String,
    world: &World,
    names: &[Items<u8>],
    kind: &str,
    past: u64,
    calls: &[Aim],
) -> Result<(), NoMemory>
    requires { All (λ s. s.at + past < 2 ^ 64) calls.now }
    ensures { OnOk result (string_bytes text.new ≡ string_bytes text.old ++ flat_map (sent_line world.now.image (code_of world.now) names.now kind.now past) calls.now) }
{
    let mut recent = 0;
    for call in calls {
        push_sent(text, world, &mut recent, names, kind, past, *call)?;
    }
    Ok(())
}

/// Adds a line for each site, and for each pair, that leads elsewhere now.
#[tactic(auto, unfolding(crate::specs::Sent::sent_text))]
pub fn push_all_sent(text: &mut String, world: &World, names: &[Items<u8>]) -> Result<(), NoMemory>
    ensures { OnOk result (string_bytes text.new ≡ string_bytes text.old ++ sent_text world.now.image (code_of world.now) names.now) }
{
    let image = world.image();
    image.kept();
    push_calls(text, world, names, "site", 0, image.sites())?;
    push_calls(text, world, names, "pair", 4, image.pairs())
}
