//! The code of a world as a hart takes it with it.

ghost use Rattle.std.specs.Prelude.{◌≡◌, length, IfOk};
ghost use Rattle.std.specs.Arc.{arc_value};
ghost use Rattle.std.specs.Option.{option_map};
ghost use Rattle.layout.specs.Points.{live_at, here_word, here_point};
ghost use Rattle.world.specs.Adopting.{IsShown, code_shown};
ghost use Rattle.world.specs.Finding.{AreFound};
ghost use Rattle.world.specs.Worlds.{code_in};

use crate::points::{Lives, Points, is_in, live_both};
use image::picture::Image;
use layout::layout::Layout;
use layout::point::Point;
use link_tags::origins::Origins;
use oc_base::fault::NoMemory;
use patcher::text::TextNow;
use std::alloc::Global;
use std::marker::Model;
use std::sync::Arc;

/// What stands at an address: the word now, and what the address stands for in the original program.
#[derive(Clone, Copy, Debug)]
pub struct Looked {
    pub word: Option<u32>,
    pub point: Option<Point>,
}

/// The image, and copies of the words of text and of the live layouts.
#[derive(Drop)]
pub struct CodeNow {
    image: Arc<Image>,
    text: TextNow,
    lives: Lives,
}

impl Model for CodeNow {
    ghost use Rattle.std.specs.Arc.{arc_value};
    ghost use Rattle.layout.specs.Bases.{ArePlaces};
    ghost use Rattle.world.specs.Adopting.{Shown, IsShown};

    ghost Value = { Shown };

    ghost view = { λ c. record { image = arc_value c.image; text = c.text; lives = c.lives.layouts.items } };

    ghost invariant = { λ c. IsShown (record { image = arc_value c.image; text = c.text; lives = c.lives.layouts.items })
        × ArePlaces c.lives.layouts.items c.lives.places.items };
}

/// Equal layouts.
fn copied(alloc: Global, layouts: &[Layout]) -> Result<Vec<Layout>, NoMemory>
    ensures { IfOk result (λ v. v.items ≡ layouts.now) }
{
    let mut all = Vec::with_capacity(alloc, layouts.len())?;
    for layout in layouts {
        all.push(layout.copy(alloc)?)?;
    }
    Ok(all)
}

/// Equal layouts at equal places.
fn lives_copied(alloc: Global, lives: &Lives) -> Result<Lives, NoMemory>
    ensures layouts { IfOk result (λ l. l.layouts.items ≡ lives.now.layouts.items) }
    ensures places { IfOk result (λ l. l.places.items ≡ lives.now.places.items) }
{
    let layouts = copied(alloc, &lives.layouts)?;
    let places = Vec::from_slice(alloc, &lives.places)?;
    Ok(Lives { layouts, places })
}

/// What stands at an address. The layout at the position `recent` is tried first. It may be any number.
#[inline(always)]
pub(crate) fn look_in(
    image: &Image,
    text: &TextNow,
    lives: &Lives,
    recent: &mut usize,
    at: u64,
) -> Looked
    requires { AreFound lives.now }
    ensures word { result.word ≡ (code_in image.now text.now lives.now.layouts.items).word at }
    ensures point { result.point ≡ (code_in image.now text.now lives.now.layouts.items).point at }
{
    if !is_in(image.region(), at) {
        return Looked {
            word: text.word(at),
            point: Some(Point::Start(at)),
        };
    }
    looked_live(lives, recent, at)
}

/// What stands at an address of the region.
// kept out of the loops of steps, in which most words come from text
#[inline(never)]
#[tactic(auto, using(crate::proofs::Lives::word_alone, crate::proofs::Lives::point_alone))]
fn looked_live(lives: &Lives, recent: &mut usize, at: u64) -> Looked
    requires { AreFound lives.now }
    ensures word { result.word ≡ option_map here_word (live_at lives.now.layouts.items at) }
    ensures point { result.point ≡ option_map here_point (live_at lives.now.layouts.items at) }
{
    match live_both(lives, recent, at) {
        Some((word, point)) => Looked {
            word: Some(word),
            point: Some(point),
        },
        None => Looked {
            word: None,
            point: None,
        },
    }
}

impl CodeNow {
    /// A copy of these words and layouts.
    pub(crate) fn of(
        alloc: Global,
        image: &Arc<Image>,
        text: &TextNow,
        lives: &Lives,
    ) -> Result<CodeNow, NoMemory>
        requires shown { IsShown (record { image = arc_value image.now; text = text.now; lives = lives.now.layouts.items }) }
        requires found { AreFound lives.now }
        ensures { IfOk result (λ c. c ≡ record { image = arc_value image.now; text = text.now; lives = lives.now.layouts.items }) }
    {
        let image = Arc::try_clone(image)?;
        let text = text.copy(alloc)?;
        let lives = lives_copied(alloc, lives)?;
        Ok(CodeNow { image, text, lives })
    }

    /// What each one keeps, for a caller's proof. It does nothing.
    pub fn kept(&self)
        ensures { IsShown self.now }
    {
        let _ = &self.text;
    }

    pub fn image(&self) -> &Image
        ensures { result.now ≡ self.now.image }
    {
        &self.image
    }

    /// What stands at an address. The layout at the position `recent` is tried before the search, and becomes the one in which the address
    /// was found. It may be any number.
    #[inline(always)]
    pub fn look(&self, recent: &mut usize, at: u64) -> Looked
        ensures word { result.word ≡ (code_shown self.now).word at }
        ensures point { result.point ≡ (code_shown self.now).point at }
    {
        look_in(&self.image, &self.text, &self.lives, recent, at)
    }
}

impl Origins for CodeNow {
    ghost use Rattle.sim_laws.specs.Origins.{origin};
    ghost use Rattle.world.specs.Adopting.{code_shown};

    ghost origin = { λ c. origin (code_shown c) };

    #[tactic(auto, unfolding(sim_laws::specs::Origins::origin))]
    fn origin(&self, at: u64) -> u64 {
        let points = Points {
            lives: &self.lives,
            region: self.image.region(),
            recent: 0,
        };
        points.origin(at)
    }
}

// Nothing above speaks of threads: this shows that it may be shared among them.
fn crosses<T: Send + Sync>(_value: &T) {}

pub fn cross(code: &CodeNow) {
    crosses(code);
}
