//! What a step fetches, and the step on it.

ghost use Rattle.std.specs.Prelude.{◌≡◌, ◌<◌, Some, None, IfOk, OnOk, OnErr, length, true, false, if◌then◌else◌};
ghost use Rattle.std.specs.Option.{option_map, option_and_then};
ghost use Rattle.rv_isa.specs.Decoded.{decoded};
ghost use Rattle.layout.specs.Points.{live_at};
ghost use Rattle.layout.specs.Rows.{Renders};
ghost use Rattle.machine.specs.Harts.{is_live, hart_in};
ghost use Rattle.machine.specs.Steps.{can_step};
ghost use Rattle.machine.specs.Transfers.{transfer_with};
ghost use Rattle.sim_laws.specs.Origins.{origin};
ghost use Rattle.sim_laws.specs.Steps.{replaced_step, replaced_transfer, stepped, is_layout};
ghost use Rattle.world.specs.Runs.{is_over};
ghost use Rattle.world.specs.Worlds.{code_in};
ghost use Rattle.world.specs.Finding.{AreFound};
ghost use Rattle.world.specs.Fetching.{both, word_as, is_address, fetched_as, fetched_of, fetched_at, word_of, is_layout_fetch, led_by};

use crate::points::{Lives, Points, is_in, live_both};
use image::picture::Image;
use image::targets::{made_by, target};
use layout::point::Point;
use link_tags::value::Value;
use machine::machine::Machine;
use oc_base::fault::NoMemory;
use patcher::text::TextNow;
use rv_decode::decode;
use rv_isa::fields::Reg;
use rv_isa::instr::Instr;
use sim_laws::stepped::Stepped;

/// What a step fetches.
#[derive(Clone, Copy)]
pub enum Fetched {
    /// No word.
    Nothing,
    Word(u32),
    /// A word on which the step is one of layouts alone.
    Layout,
}

/// Whether an instruction is an AUIPC that writes a register.
fn writes_address(i: &Instr) -> bool
    ensures { result ≡ is_address (Some i.now) }
{
    match *i {
        Instr::Auipc { rd, .. } => rd.get() != 0,
        _ => false,
    }
}

/// Whether a word is one.
fn is_address(word: u32) -> bool
    ensures { result ≡ is_address (decoded word) }
{
    let Some(i) = decode(word) else {
        return false;
    };
    writes_address(&i)
}

/// What a word of a layout is fetched as. The original word isn't looked at: where a word of a layout is an AUIPC that writes a
/// register, it is the first of the two for an AUIPC that was moved.
fn fetched_as(word: u32, point: Point) -> Fetched
    ensures { result ≡ fetched_as word point }
{
    match point {
        Point::Start(_) if is_address(word) => Fetched::Layout,
        Point::Start(_) => Fetched::Word(word),
        Point::Hop(_) => Fetched::Layout,
        Point::Mid(_) => Fetched::Word(word),
    }
}

/// What is fetched in the region.
// kept out of the loops of steps, in which most words come from text
#[inline(never)]
fn live_fetched(lives: &Lives, recent: &mut usize, at: u64) -> Fetched
    requires { AreFound lives.now }
    ensures { result ≡ fetched_of (option_map both (live_at lives.now.layouts.items at)) }
{
    match live_both(lives, recent, at) {
        Some((word, point)) => fetched_as(word, point),
        None => Fetched::Nothing,
    }
}

fn word_as(word: Option<u32>) -> Fetched
    ensures { result ≡ word_as word }
{
    match word {
        Some(word) => Fetched::Word(word),
        None => Fetched::Nothing,
    }
}

/// What is fetched at an address.
#[inline(always)]
#[tactic(auto, using(crate::proofs::Fetching::fetched_in_region, crate::proofs::Fetching::fetched_in_text))]
fn fetch(image: &Image, text: &TextNow, lives: &Lives, recent: &mut usize, at: u64) -> Fetched
    requires renders { Renders (code_in image.now text.now lives.now.layouts.items) }
    requires found { AreFound lives.now }
    ensures { result ≡ fetched_at (code_in image.now text.now lives.now.layouts.items) at }
{
    image.kept();
    if is_in(image.region(), at) {
        return live_fetched(lives, recent, at);
    }
    word_as(text.word(at))
}

fn word_of(fetched: Fetched) -> Option<u32>
    ensures { result ≡ word_of fetched }
{
    match fetched {
        Fetched::Word(word) => Some(word),
        Fetched::Nothing | Fetched::Layout => None,
    }
}

fn is_layout_fetch(fetched: Fetched) -> bool
    ensures { result ≡ is_layout_fetch fetched }
{
    matches!(fetched, Fetched::Layout)
}

/// Makes the step of a live hart of a run that goes on, on the word that was fetched for it, and gives the transfer that it made, if it
/// made one.
#[inline(always)]
fn step_live(
    machine: &mut Machine,
    image: &Image,
    text: &TextNow,
    lives: &Lives,
    recent: usize,
    h: u32,
    word: Option<u32>,
) -> Result<Option<(u64, u64)>, NoMemory>
    requires found { AreFound lives.now }
    requires can { can_step h machine.old ≡ true }
    requires word { word ≡ (code_in image.now text.now lives.now.layouts.items).word (hart_in machine.old.harts h).pc }
    ensures ok { OnOk result (machine.new ≡ replaced_step image.now (code_in image.now text.now lives.now.layouts.items) h machine.old) }
    ensures transfer { IfOk result (λ made. made ≡ transfer_with (code_in image.now text.now lives.now.layouts.items).word (origin (code_in image.now text.now lives.now.layouts.items)) image.now h machine.old) }
    ensures err { OnErr result (machine.new ≡ machine.old) }
{
    let _ = text;
    let points = Points {
        lives,
        region: image.region(),
        recent,
    };
    let Ok(ran) = machine.step_fetched(image, &points, h, word) else {
        return Err(NoMemory);
    };
    Ok(ran.transfer)
}

/// What a step was, and the transfer that it made, if it made one.
#[derive(Clone, Copy)]
pub struct Made {
    pub kind: Stepped,
    pub transfer: Option<(u64, u64)>,
}

/// Makes the step of hart `h` where it isn't one of layouts alone, and says what it is and which transfer it made.
#[inline(always)]
#[tactic(auto, unfolding(sim_laws::specs::Steps::stepped, sim_laws::specs::Steps::replaced_step, machine::specs::Steps::step_with), using(machine::proofs::HartLists::live_made))]
pub fn other_step_in(
    machine: &mut Machine,
    image: &Image,
    text: &TextNow,
    lives: &Lives,
    recent: &mut usize,
    h: u32,
) -> Result<Made, NoMemory>
    requires renders { Renders (code_in image.now text.now lives.now.layouts.items) }
    requires found { AreFound lives.now }
    ensures kind { IfOk result (λ made. made.kind ≡ stepped (code_in image.now text.now lives.now.layouts.items) h machine.old) }
    ensures transfer { IfOk result (λ made. made.transfer ≡ replaced_transfer image.now (code_in image.now text.now lives.now.layouts.items) h machine.old) }
    ensures step { OnOk result (machine.new ≡ (if is_layout (stepped (code_in image.now text.now lives.now.layouts.items) h machine.old) then machine.old else replaced_step image.now (code_in image.now text.now lives.now.layouts.items) h machine.old)) }
    ensures err { OnErr result (machine.new ≡ machine.old) }
{
    if machine.outcome().is_some() {
        return Ok(Made {
            kind: Stepped::Over,
            transfer: None,
        });
    }
    if !machine.is_live(h) {
        return Ok(Made {
            kind: Stepped::Real,
            transfer: None,
        });
    }
    let fetched = fetch(image, text, lives, recent, machine.hart(h).pc);
    if is_layout_fetch(fetched) {
        return Ok(Made {
            kind: Stepped::Layout,
            transfer: None,
        });
    }
    let Ok(transfer) = step_live(machine, image, text, lives, *recent, h, word_of(fetched)) else {
        return Err(NoMemory);
    };
    Ok(Made {
        kind: Stepped::Real,
        transfer,
    })
}

/// What a step of layouts alone writes to a hart: one register and pc.
#[derive(Clone, Copy)]
pub struct Led {
    pub rd: Reg,
    pub value: Value,
    pub pc: u64,
}

/// What stood before a step of layouts alone: what it writes, and the count of such steps.
#[derive(Clone, Copy)]
pub struct Before {
    pub led: Led,
    pub layout: u64,
}

/// No register, and this pc.
fn led_to(pc: u64) -> Led
    ensures { result ≡ led_by None pc }
{
    Led {
        rd: Reg::new(0).unwrap(),
        value: Value::plain(0),
        pc,
    }
}

/// What a step of layouts alone at `pc` writes, by its instruction: an AUIPC, or a JAL that keeps no link.
fn led_on(i: &Instr, pc: u64) -> Led
    ensures { result ≡ led_by (Some i.now) pc }
{
    match *i {
        Instr::Auipc { rd, imm } => Led {
            rd,
            value: Value::plain(made_by(pc, imm.get() as u64)),
            pc: pc.wrapping_add(4),
        },
        Instr::Jal { off, .. } => led_to(target(pc, off.get())),
        _ => led_to(pc),
    }
}

/// What it writes, by its word.
pub fn led_by(word: Option<u32>, pc: u64) -> Led
    ensures { result ≡ led_by (option_and_then decoded word) pc }
{
    let Some(word) = word else {
        return led_to(pc);
    };
    let Some(i) = decode(word) else {
        return led_to(pc);
    };
    led_on(&i, pc)
}

/// Whether a step was one of layouts alone.
pub fn is_layout(kind: Stepped) -> bool
    ensures { result ≡ is_layout kind }
{
    matches!(kind, Stepped::Layout)
}

/// Whether a run had ended before a step.
pub fn is_over(kind: Stepped) -> bool
    ensures { result ≡ is_over kind }
{
    matches!(kind, Stepped::Over)
}
