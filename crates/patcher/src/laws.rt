//! Laws of patches, each the contract of a call.

ghost use Rattle.std.specs.Prelude.{List, All, Option, IfSome};
ghost use Rattle.image.specs.declared.ranges.TextRange.{TextRange};
ghost use Rattle.image.specs.Picture.{Picture, IsKept};
ghost use Rattle.image.specs.Texts.{word_at};
ghost use Rattle.layout.specs.Laid.{Laid, IsLaid};
ghost use Rattle.layout.specs.Points.{code_of};
ghost use Rattle.layout.specs.Rows.{CallsAim};
ghost use Rattle.layout.specs.Alone.{alone};
ghost use Rattle.patcher.specs.declared.patches.Patches.{Patches};
ghost use Rattle.patcher.specs.Texts.{IsTextOf};
ghost use Rattle.patcher.specs.Patched.{Fits, ArePatches, IsPatchedText, ArePatched, texts_with, layouts_with, CanPlace, IsPlaced, joined};

use layout::layout::Layout;

/// Says that patches fit the text and the layouts that they were worked out for. It does nothing.
pub fn fits()
    ensures { (p : Picture) (new : Option Laid) (now : List TextRange) (lives : List Laid) (q : Patches)
        → IsKept p → IsTextOf p now → All IsLaid lives → ArePatches p new lives q → Fits q now lives }
{}

/// Says what patches leave at each address, where they fit. It does nothing.
pub fn words_by_address()
    ensures text { (p : Picture) (new : Option Laid) (now : List TextRange) (lives : List Laid) (q : Patches)
        → ArePatches p new lives q → Fits q now lives → IsPatchedText p new now (texts_with q.text now) }
    ensures lives { (p : Picture) (new : Option Laid) (now : List TextRange) (lives : List Laid) (q : Patches)
        → ArePatches p new lives q → Fits q now lives → ArePatched p new lives (layouts_with q.lives lives) }
{}

/// Says that where text and the live layouts render the image, they still do so with their patches and with the new layout beside
/// them. It does nothing.
pub fn keeps_rendering()
    ensures { (p : Picture) (new : Option Laid) (now : List TextRange) (lives : List Laid) (q : Patches)
        → CanPlace p now lives new → ArePatches p new lives q → IsPlaced p (texts_with q.text now) (joined (layouts_with q.lives lives) new) }
{}

/// Says that afterwards the word of each call is the original one, or goes to a Start of its function, where the new layout's own
/// calls do so. It does nothing.
pub fn calls_aim()
    ensures { (p : Picture) (new : Option Laid) (now : List TextRange) (lives : List Laid) (q : Patches)
        → CanPlace p now lives new → ArePatches p new lives q → IfSome new (λ l. CallsAim (alone p l))
        → CallsAim (code_of p (word_at (texts_with q.text now)) (joined (layouts_with q.lives lives) new)) }
{}

/// What each of these layouts keeps, for a caller's proof. It changes nothing.
pub fn each_kept(layouts: &[Layout])
    ensures { All IsLaid layouts.now }
{
    for layout in layouts {
        layout.kept();
    }
}
