//! The best region.

ghost use Rattle.std.specs.Prelude.{◌≤◌, All, IfOk};
ghost use Rattle.image.specs.Picture.{IsText};
ghost use Rattle.near_region.specs.Regions.{IsBest};
ghost use Rattle.near_region.specs.Pages.{AreCut, AreNearPages};

use crate::gap::longest_gap;
use crate::pages::taken_pages;
use crate::{PAGE, PAGES};
use finite::search::Spanned;
use image::picture::Image;
use image::ranges::TextRange;
use oc_base::fault::NoMemory;
use oc_base::range::Range;
use rv_encode::JAL_REACH;
use std::alloc::Global;

// The same pages, but for those that are far from one more text range.
fn with_text(t: &TextRange, first: usize, last: usize) -> (usize, usize)
    requires { IsText t.now }
    ensures within { result.1 ≤ last }
    ensures near { AreCut t.now first last result.0 result.1 }
{
    let low = t.end().saturating_sub(JAL_REACH).div_ceil(PAGE) as usize;
    let high = ((t.from + JAL_REACH) / PAGE) as usize;
    (first.max(low), last.min(high))
}

// The pages that are near to all of the text: the first of them, and the one after the last.
fn near_pages(texts: &[TextRange]) -> (usize, usize)
    requires { All IsText texts.now }
    ensures ordered { result.0 ≤ result.1 }
    ensures within { result.1 ≤ 32768 }
    ensures near { AreNearPages texts.now result.0 result.1 }
{
    let (mut first, mut last) = (0, PAGES);
    for t in texts {
        (first, last) = with_text(t, first, last);
    }
    (first.min(last), last)
}

/// The largest region that is free, to which no jump of text goes, and which calls reach from all of the text; of several the first.
pub fn best_region(alloc: Global, image: &Image) -> Result<Option<Range>, NoMemory>
    ensures { IfOk result (IsBest image.now.texts image.now.parts) }
{
    image.kept();
    let taken = taken_pages(alloc, image)?;
    let (first, last) = near_pages(image.texts());
    let Some((p, q)) = longest_gap(&taken, first, last) else {
        return Ok(None);
    };
    Ok(Some(Range {
        from: PAGE * p as u64,
        to: PAGE * q as u64,
    }))
}
