//! Whether calls reach a region from all of the text.

ghost use Rattle.std.specs.Prelude.{◌≡◌, ◌↔◌, ◌||◌, ◌==◌, true, All};
ghost use Rattle.std.specs.List.{list_all};
ghost use Rattle.image.specs.Picture.{IsText, IsPaged};
ghost use Rattle.near_region.specs.Regions.{is_beside, IsNear};

use finite::search::Spanned;
use image::picture::Image;
use image::ranges::TextRange;
use oc_base::range::Range;
use rv_encode::JAL_REACH;

// Both ends of the text range are near to both ends of the region.
fn is_beside(t: &TextRange, region: Range) -> bool
    requires { IsText t.now }
    ensures { result ≡ is_beside region t.now }
{
    region.to <= t.from + JAL_REACH && t.end().saturating_sub(JAL_REACH) <= region.from
}

// Each text range is beside the region.
fn all_beside(texts: &[TextRange], region: Range) -> bool
    requires { All IsText texts.now }
    ensures { result ≡ list_all (is_beside region) texts.now }
{
    texts.iter().all(|t| is_beside(t, region))
}

/// Whether a JAL can go from each word of text to each word of a region, and back.
#[tactic(auto, using(crate::proofs::Besides::beside_near))]
pub fn is_near(image: &Image, region: Range) -> bool
    requires { IsPaged region }
    ensures { (result ≡ true) ↔ IsNear image.now.texts region }
{
    image.kept();
    region.from == region.to || all_beside(image.texts(), region)
}
