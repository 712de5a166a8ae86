//! The longest gap between pages that are taken.

ghost use Rattle.std.specs.Prelude.{◌≡◌, ◌≤◌, ◌<◌, ◌+◌, false, length, slice_get, Some};
ghost use Rattle.near_region.specs.Pages.{IsLongest, IsSearched};

/// What was found among the pages so far: the longest gap, from `from` up to `to`, empty where there is none, and where the pages that
/// aren't taken start at the end.
#[derive(Clone, Copy)]
pub(crate) struct Found {
    start: usize,
    from: usize,
    to: usize,
}

// The same with page `p`, the next one, which isn't taken.
#[tactic(auto, using(crate::proofs::Searching::longer, crate::proofs::Searching::no_longer))]
fn with_free(taken: &[bool], first: usize, found: Found, p: usize) -> Found
    requires within { p < length taken.now }
    requires free { slice_get taken.now p ≡ Some false }
    requires searched { IsSearched taken.now first p found }
    ensures { IsSearched taken.now first (p + 1) result }
{
    let Found { start, from, to } = found;
    if p + 1 - start > to - from {
        return Found {
            start,
            from: start,
            to: p + 1,
        };
    }
    found
}

// The same with page `p`, the next one.
#[tactic(auto, using(crate::proofs::Searching::past_taken))]
fn with_page(taken: &[bool], first: usize, found: Found, p: usize) -> Found
    requires within { p < length taken.now }
    requires searched { IsSearched taken.now first p found }
    ensures { IsSearched taken.now first (p + 1) result }
{
    if taken[p] {
        return Found {
            start: p + 1,
            from: found.from,
            to: found.to,
        };
    }
    with_free(taken, first, found, p)
}

#[tactic(auto, using(crate::proofs::Searching::none_yet))]
fn search(taken: &[bool], first: usize, last: usize) -> Found
    requires ordered { first ≤ last }
    requires within { last ≤ length taken.now }
    ensures { IsSearched taken.now first last result }
{
    let mut found = Found {
        start: first,
        from: first,
        to: first,
    };
    for p in first..last {
        found = with_page(taken, first, found, p);
    }
    found
}

/// The longest run of pages from `first` up to `last` that aren't taken, and of several the first.
#[tactic(auto, using(crate::proofs::Searching::longest, crate::proofs::Searching::no_gap))]
pub(crate) fn longest_gap(taken: &[bool], first: usize, last: usize) -> Option<(usize, usize)>
    requires ordered { first ≤ last }
    requires within { last ≤ length taken.now }
    ensures { IsLongest taken.now first last result }
{
    let Found { from, to, .. } = search(taken, first, last);
    if from < to {
        return Some((from, to));
    }
    None
}
