//! What two groups have between them.

ghost use Rattle.std.specs.Prelude.{◌≡◌, ◌+◌, ◌<◌, ◌^◌};
ghost use Rattle.place_funcs.specs.Links.{is_ahead, sum_of};

/// The weight from one group to another, and their heaviest edge, which has the weight `top`.
#[derive(Clone, Copy, Debug, PartialEq, Eq)]
pub struct Link {
    pub weight: u128,
    pub top: u64,
    pub f: u32,
    pub g: u32,
}

/// Whether the edge of `l` comes before that of `m`.
fn is_ahead(l: Link, m: Link) -> bool
    ensures { result ≡ is_ahead l m }
{
    m.top < l.top || (l.top == m.top && (l.f < m.f || (l.f == m.f && l.g < m.g)))
}

/// The link of a group that is made of two.
pub fn sum(l: Link, m: Link) -> Link
    requires { l.weight + m.weight < 2 ^ 128 }
    ensures { result ≡ sum_of l m }
{
    let weight = l.weight + m.weight;
    let edge = if is_ahead(m, l) { m } else { l };
    Link {
        weight,
        top: edge.top,
        f: edge.f,
        g: edge.g,
    }
}
