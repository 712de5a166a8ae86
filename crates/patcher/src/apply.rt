//! Patches put in their places.

ghost use Rattle.std.specs.Prelude.{◌≡◌, All, IsSome};
ghost use Rattle.image.specs.Texts.{word_at};
ghost use Rattle.patcher.specs.Patched.{FitsText, FitsLayout, EachFits, texts_with, layout_with, layouts_with};

use crate::patches::Patch;
use crate::text::TextNow;
use layout::layout::Layout;
use oc_base::items::Items;

#[tactic(auto, using(crate::proofs::PutAll::texts_next, crate::proofs::PutAll::text_fits))]
pub fn patch_text(text: &mut TextNow, patches: &[Patch])
    requires { FitsText text.old patches.now }
    ensures { text.new ≡ texts_with patches.now text.old }
{
    for patch in patches {
        text.set_word(patch.at, patch.word);
    }
}

#[tactic(auto, using(crate::proofs::PutAll::layout_next, crate::proofs::PutAll::layout_fits))]
fn patch_layout(layout: &mut Layout, patches: &[Patch])
    requires { FitsLayout layout.old patches.now }
    ensures { layout.new ≡ layout_with patches.now layout.old }
{
    for patch in patches {
        layout.set_word(patch.at, patch.word);
    }
}

pub fn patch_layouts(lives: &mut [Layout], lists: &[Items<Patch>])
    requires { EachFits lives.old lists.now }
    ensures { lives.new ≡ layouts_with lists.now lives.old }
{
    for i in 0..lists.len() {
        patch_layout(&mut lives[i], lists[i].as_slice());
    }
}
