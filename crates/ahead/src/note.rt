//! What a step outside the lock rested on.

ghost use Rattle.std.specs.Prelude.{◌≡◌, Some};
ghost use Rattle.sim_laws.specs.Origins.{origin_of};

use layout::point::Point;
use link_tags::value::Tag;

/// Where an indirect jump went, and what was read of the image for it.
#[derive(Clone, Copy)]
pub struct Aimed {
    /// The target as the register has it, with the tag of that register.
    pub to: u64,
    pub tag: Tag,
    /// The target's address in the original program.
    pub original: u64,
    /// Whether that is an address of text.
    pub in_text: bool,
    /// Whether it is that of a second word of a pair.
    pub is_second: bool,
}

/// What a step was.
#[derive(Clone, Copy)]
pub enum Sort {
    /// One of layouts alone.
    Layout,
    /// A real one on a branch or a jump.
    Transfer,
    /// Any other real one.
    Other,
}

/// What a step at an address rested on.
#[derive(Clone, Copy)]
pub struct Note {
    pub at: u64,
    pub word: u32,
    /// What the address stood for.
    pub point: Point,
    pub sort: Sort,
    /// For a step on a JALR.
    pub aim: Option<Aimed>,
}

/// The original address of an address that stands for something, or itself.
#[inline]
pub fn original_of(at: u64, point: Option<Point>) -> u64
    ensures { result ≡ origin_of at point }
{
    match point {
        Some(Point::Start(x)) => x,
        Some(Point::Hop(x)) => x,
        Some(Point::Mid(x)) => x,
        None => at,
    }
}
