//! Free ranges of a region.

use cases::rows::expect;
use oc_base::range::Range;
use region::space::Region;
use std::alloc::{AllocError, Global};
use std::test::Fail;

/// A region of one page.
fn page(alloc: Global) -> Result<Region, Fail> {
    let all = Range {
        from: 0x20000,
        to: 0x21000,
    };
    Ok(Region::new(alloc, all)?)
}

/// The largest size, and where this many bytes fit.
fn push_state(text: &mut String, region: &Region, n: u64) -> Result<(), AllocError> {
    let largest = region.largest();
    let fit = region.fit(n);
    write!(text, "{largest} {fit:?} ")
}

/// What a free region answers for 4100 and 4096 bytes.
fn free_text(alloc: Global) -> Result<String, Fail> {
    let region = page(alloc)?;
    let mut text = String::new(alloc);
    push_state(&mut text, &region, 4100)?;
    push_state(&mut text, &region, 4096)?;
    Ok(text)
}

#[test]
fn a_free_region_fits_its_size(rt: HostRuntime) -> Result<(), Fail> {
    expect(
        rt.alloc(),
        "4100 and 4096 bytes",
        free_text(rt.alloc())?.as_str(),
        "4096 None 4096 Some(131072) ",
    )
}

/// What a region answers for 40 bytes, after 36 and 44 bytes were taken, after the first of them were given back, and after the others
/// were.
fn push_states(seen: &mut String, alloc: Global) -> Result<(), Fail> {
    let mut region = page(alloc)?;
    region.reserve(4)?;
    let Some(first) = region.fit(36) else {
        return Err(Fail::new("no room"));
    };
    region.take(first, 36);
    let Some(second) = region.fit(44) else {
        return Err(Fail::new("no room"));
    };
    region.take(second, 44);
    push_state(seen, &region, 40)?;
    region.give_back(Range {
        from: first,
        to: first + 36,
    });
    push_state(seen, &region, 40)?;
    region.give_back(Range {
        from: second,
        to: second + 44,
    });
    push_state(seen, &region, 40)?;
    Ok(())
}

fn states_text(alloc: Global) -> Result<String, Fail> {
    let mut seen = String::new(alloc);
    push_states(&mut seen, alloc)?;
    Ok(seen)
}

#[test]
fn what_is_given_back_joins_its_neighbours(rt: HostRuntime) -> Result<(), Fail> {
    expect(
        rt.alloc(),
        "40 bytes",
        states_text(rt.alloc())?.as_str(),
        "4016 Some(131152) 4016 Some(131152) 4096 Some(131072) ",
    )
}
