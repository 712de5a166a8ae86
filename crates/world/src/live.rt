//! The live layouts with one more.

ghost use Rattle.std.specs.Prelude.{◌≡◌, ◌<◌, ◌≤◌, ◌⊎◌, ◌↔◌, ◌+◌, ◌*◌, ◌^◌, ℕ, true, length, All, IfSome};
ghost use Rattle.std.specs.Vec.{vec_capacity};
ghost use Rattle.patcher.specs.Patched.{Fits, texts_with, layouts_with, joined};
ghost use Rattle.region.specs.Free.{AreFree, is_free};
ghost use Rattle.region.specs.Space.{IsSpace};
ghost use Rattle.world.specs.Replacing.{numbered, left_by, placed_by};

use crate::counts::{Counts, more};
use crate::place::short_words;
use layout::layout::Layout;
use patcher::patches::Patches;
use patcher::text::TextNow;
use region::space::Region;

/// That the words of layouts have 32 bits, for a caller's proof. It does nothing.
fn short_layouts(layouts: &[Layout])
    ensures { All (λ l. All (λ w. w < 2 ^ 32) l.words) layouts.now }
{
    for layout in layouts {
        short_words(layout.words());
    }
}

/// Puts words in their places in text and in the live layouts. It takes no memory.
pub fn aim(patches: Patches, text: &mut TextNow, lives: &mut Vec<Layout>)
    requires { Fits patches text.old lives.old.items }
    ensures text { text.new ≡ texts_with patches.text text.old }
    ensures lives { lives.new.items ≡ layouts_with patches.lives lives.old.items }
    ensures len { length lives.new.items ≡ length lives.old.items }
    ensures capacity { vec_capacity lives.new ≡ vec_capacity lives.old }
    ensures short { All (λ l. All (λ w. w < 2 ^ 32) l.words) lives.new.items }
{
    patches.apply(text, lives);
    short_layouts(lives);
}

/// Adds a layout with its number, if there is one, and takes its part of the region. It takes no memory.
pub fn add(
    lives: &mut Vec<Layout>,
    numbers: &mut Vec<u64>,
    region: &mut Region,
    counts: &mut Counts,
    new: Option<Layout>,
)
    requires lives { length lives.old.items < vec_capacity lives.old }
    requires numbers { length numbers.old.items < vec_capacity numbers.old }
    requires spare { 0 < region.old.spare }
    requires unused { IfSome new (λ l. AreFree region.old.free l.base (4 * length l.words)) }
    ensures lives { lives.new.items ≡ joined lives.old.items new }
    ensures numbers { numbers.new.items ≡ numbered new counts.old numbers.old.items }
    ensures free { region.new.free ≡ left_by new region.old.free }
    ensures rest { IfSome new (λ l. (a : ℕ) → (is_free region.new.free a ≡ true) ↔ ((is_free region.old.free a ≡ true) × ((a < l.base) ⊎ (l.base + 4 * length l.words ≤ a)))) }
    ensures space { IsSpace region.new }
    ensures all { region.new.all ≡ region.old.all }
    ensures counts { counts.new ≡ placed_by new counts.old }
{
    let Some(layout) = new else {
        region.kept();
        return;
    };
    layout.kept();
    region.take(layout.base(), 4 * layout.words().len() as u64);
    region.kept();
    counts.placed = more(counts.placed);
    numbers.push_reserved(counts.placed);
    lives.push_reserved(layout);
}
