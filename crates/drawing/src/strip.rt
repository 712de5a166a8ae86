//! Strips of a picture, along which addresses lie.

ghost use Rattle.std.specs.Prelude.{◌≡◌, ◌≤◌, ◌-◌, ◌^◌};
ghost use Rattle.std.specs.List.{fold};
ghost use Rattle.drawing.specs.Marks.{share_of, along, wide, middle};
ghost use Rattle.drawing.specs.Picture.{lowest, highest, strip_over, span_of, text_strip, layout_strip};

use crate::parts::{Block, Function, Layout};

/// The addresses from `from` up to, but not with, `to`, on a strip whose upper edge is at `top`.
#[derive(Clone, Copy, Debug, PartialEq, Eq)]
pub struct Strip {
    pub from: u64,
    pub to: u64,
    pub top: u128,
}

#[tactic(auto, unfolding(crate::specs::Marks::share_of), using(crate::proofs::Shares::share_small))]
fn share_of(part: u64, whole: u64) -> u64
    requires { part ≤ whole }
    ensures value { result ≡ share_of part whole }
    ensures small { result ≤ 1200 }
{
    if whole == 0 {
        return 0;
    }
    (part as u128 * 1200 / whole as u128) as u64
}

/// Where an address is.
pub(crate) fn along(s: Strip, at: u64) -> u64
    ensures value { result ≡ along s at }
    ensures small { result ≤ 1220 }
{
    let span = s.to.saturating_sub(s.from);
    20 + share_of(at.saturating_sub(s.from).min(span), span)
}

/// The width of a range.
pub(crate) fn wide(s: Strip, from: u64, to: u64) -> u64
    ensures value { result ≡ wide s from to }
    ensures small { result ≤ 1220 }
{
    along(s, to).saturating_sub(along(s, from)).max(1)
}

/// The middle of a range.
pub(crate) fn middle(s: Strip, from: u64, to: u64) -> u64
    ensures { result ≡ middle s from to }
{
    along(s, from) + wide(s, from, to) / 2
}

fn lowest(low: u64, blocks: &[Block]) -> u64
    ensures { result ≡ lowest low blocks.now }
{
    let mut lowest = low;
    for b in blocks {
        lowest = lowest.min(b.from);
    }
    lowest
}

fn highest(high: u64, blocks: &[Block]) -> u64
    ensures { result ≡ highest high blocks.now }
{
    let mut highest = high;
    for b in blocks {
        highest = highest.max(b.to);
    }
    highest
}

fn lowest_of(functions: &[Function]) -> u64
    ensures { result ≡ fold (λ n f. lowest n f.blocks) (2 ^ 64 - 1) functions.now }
{
    let mut low = u64::MAX;
    for f in functions {
        low = lowest(low, f.blocks.as_slice());
    }
    low
}

fn highest_of(functions: &[Function]) -> u64
    ensures { result ≡ fold (λ n f. highest n f.blocks) 0 functions.now }
{
    let mut high = 0;
    for f in functions {
        high = highest(high, f.blocks.as_slice());
    }
    high
}

fn strip_over(low: u64, high: u64, top: u128) -> Strip
    ensures { result ≡ strip_over low high top }
{
    Strip {
        from: low.min(high),
        to: high,
        top,
    }
}

/// The addresses of one function.
#[tactic(auto, unfolding(crate::specs::Picture::span_of))]
pub(crate) fn span_of(f: &Function) -> Strip
    ensures { result ≡ span_of f.now }
{
    let blocks = f.blocks.as_slice();
    strip_over(lowest(u64::MAX, blocks), highest(0, blocks), 105)
}

/// The addresses of all functions.
#[tactic(auto, unfolding(crate::specs::Picture::text_strip))]
pub(crate) fn text_strip(functions: &[Function]) -> Strip
    ensures { result ≡ text_strip functions.now }
{
    strip_over(lowest_of(functions), highest_of(functions), 105)
}

/// The strip of layout `i`.
pub(crate) fn layout_strip(i: usize, l: &Layout) -> Strip
    ensures { result ≡ layout_strip i l.now }
{
    Strip {
        from: l.base,
        to: l.to,
        top: 230 + 120 * i as u128,
    }
}
