//! The numbers that a program sees in links.
ghost use Rattle.std.specs.Prelude.{◌≡◌, ℕ};
ghost use Rattle.link_tags.specs.Values.{original};

use crate::value::{Tag, Value};

/// Tells the original number of a link: the address in the original program that the code at it stands for.
pub trait Origins {
    /// The original number of each number.
    ghost origin: { Self → ℕ → ℕ };

    /// The original number of `at`.
    fn origin(&self, at: u64) -> u64
        ensures { result ≡ origin self.now at };
}

/// The original machine, in which each number is its own original number.
#[derive(Clone, Copy, Debug)]
pub struct Same;

impl Origins for Same {
    ghost origin = { λ _ at. at };

    fn origin(&self, at: u64) -> u64 {
        at
    }
}

/// The number that the program sees in a value: a link's original number.
pub fn original<O: Origins>(v: Value, origins: &O) -> u64
    ensures { result ≡ original (O.origin origins.now) v }
{
    match v.tag {
        Tag::Plain => v.number,
        Tag::Link => origins.origin(v.number),
    }
}
