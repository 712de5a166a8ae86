//! Patches: the words that calls become.

use crate::apply::{patch_layouts, patch_text};
use crate::text::TextNow;
use layout::layout::Layout;
use oc_base::items::Items;

/// A word, and the address at which it is to stand.
#[derive(Clone, Copy, Debug, PartialEq, Eq)]
pub struct Patch {
    pub at: u64,
    pub word: u32,
}

/// The words that the calls of text and of each live layout become.
#[derive(Debug, Drop)]
pub struct Patches {
    pub text: Items<Patch>,
    pub lives: Items<Items<Patch>>,
}

impl Patches {
    ghost use Rattle.std.specs.Prelude.{◌≡◌};
    ghost use Rattle.patcher.specs.Patched.{Fits, texts_with, layouts_with};

    /// Puts the words in their places: into the text of the image, and into the layouts, that they were worked out for. It takes
    /// no memory.
    pub fn apply(self, text: &mut TextNow, lives: &mut [Layout])
        requires { Fits self text.old lives.old }
        ensures text { text.new ≡ texts_with self.text text.old }
        ensures lives { lives.new ≡ layouts_with self.lives lives.old }
    {
        patch_text(text, self.text.as_slice());
        patch_layouts(lives, self.lives.as_slice());
    }
}
