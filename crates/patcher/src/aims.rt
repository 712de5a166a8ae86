//! What each call of an image becomes under a new layout.

ghost use Rattle.std.specs.Prelude.{◌≡◌, ◌≤◌, ℕ, IfOk, OnOk, Some, None, ◌+◌, ◌*◌, length, drop, position, if◌then◌else◌, unwrap_or};
ghost use Rattle.std.specs.Option.{option_map, option_and_then, option_copied};
ghost use Rattle.std.specs.Ordering.{nat_cmp};
ghost use Rattle.std.specs.BTreeMap.{get};
ghost use Rattle.rv_isa.specs.Decoded.{decoded};
ghost use Rattle.image.specs.Texts.{word_at};
ghost use Rattle.layout.specs.Points.{read, site_of, second_of, start_of};
ghost use Rattle.patcher.specs.Goals.{link_of, is_start, start_in, start_from, moved_to, site_goal, second_by, goal_of};

use crate::goal::Goal;
use image::picture::Image;
use layout::calls::{second_of, site_of, start_of};
use layout::layout::Layout;
use layout::point::Point;
use oc_base::fault::NoMemory;
use rv_decode::decode;
use rv_isa::fields::Reg;
use rv_isa::instr::Instr;
use std::alloc::Global;
use std::collections::BTreeMap;

/// Notes the address of a Start, in place of a later one.
fn note(starts: &mut BTreeMap<u64, u64>, point: Point, at: u64) -> Result<(), NoMemory>
    ensures { OnOk result ((x : ℕ) → get nat_cmp starts.new x ≡ (if is_start x point then Some at else get nat_cmp starts.old x)) }
{
    match point {
        Point::Start(x) => {
            starts.insert(x, at)?;
            Ok(())
        }
        Point::Hop(_) => Ok(()),
        Point::Mid(_) => Ok(()),
    }
}

/// The address of the first Start of each address.
#[tactic(auto, unfolding(crate::specs::Goals::start_in))]
fn starts_in(alloc: Global, layout: &Layout) -> Result<BTreeMap<u64, u64>, NoMemory>
    ensures { IfOk result (λ m. (x : ℕ) → get nat_cmp m x ≡ start_in layout.now x) }
{
    layout.kept();
    let mut starts = BTreeMap::new(alloc);
    let base = layout.base();
    let points = layout.points();
    let mut i = points.len();
    while i > 0 {
        i -= 1;
        note(&mut starts, points[i], base + 4 * i as u64)?;
    }
    Ok(starts)
}

fn gather(alloc: Global, new: Option<&Layout>) -> Result<BTreeMap<u64, u64>, NoMemory>
    ensures { IfOk result (λ m. (x : ℕ) → get nat_cmp m x ≡ moved_to (option_copied new.entry) x) }
{
    match new {
        Some(layout) => starts_in(alloc, layout),
        None => Ok(BTreeMap::new(alloc)),
    }
}

/// The register in which a word keeps a link, if it is a call.
fn link_of(instr: &Option<Instr>) -> Reg
    ensures { result ≡ link_of instr.now }
{
    match *instr {
        Some(Instr::Jal { rd, .. }) => rd,
        Some(Instr::Jalr { rd, .. }) => rd,
        _ => Reg::new(0).unwrap(),
    }
}

/// An image, and where a new layout starts what stands at an address.
#[derive(Drop)]
pub struct Aims<'a> {
    pub image: &'a Image,
    pub new: Option<&'a Layout>,
    starts: BTreeMap<u64, u64>,
    ghost starts_are: { (x : ℕ) → get nat_cmp starts x ≡ moved_to (option_copied new) x },
}

impl Aims<'_> {
    pub fn of<'a>(
        alloc: Global,
        image: &'a Image,
        new: Option<&'a Layout>,
    ) -> Result<Aims<'a>, NoMemory>
        ensures image { IfOk result (λ a. a.image.now ≡ image.now) }
        ensures new { IfOk result (λ a. option_copied a.new ≡ option_copied new.entry) }
    {
        let starts = gather(alloc, new)?;
        Ok(Aims { image, new, starts })
    }

    #[tactic(auto, unfolding(layout::specs::Points::read))]
    fn link(&self, x: u64) -> Reg
        ensures { result ≡ link_of (read (word_at self.now.image.now.texts) x) }
    {
        match self.image.word(x) {
            Some(word) => link_of(&decode(word)),
            None => link_of(&None),
        }
    }

    /// Where the new layout starts what stands at an address.
    pub fn moved(&self, start: u64) -> Option<u64>
        ensures { result ≡ moved_to (option_copied self.now.new) start }
    {
        self.starts.get(&start).copied()
    }

    #[tactic(auto, unfolding(crate::specs::Goals::site_goal))]
    fn site(&self, x: u64) -> Option<Goal>
        ensures { result ≡ option_map (site_goal self.now.image.now (option_copied self.now.new) x) (option_and_then (start_of self.now.image.now) (site_of self.now.image.now x)) }
    {
        let func = site_of(self.image, x)?;
        let start = start_of(self.image, func)?;
        Some(Goal::Jump {
            rd: self.link(x),
            to: self.moved(start).unwrap_or(start),
        })
    }

    fn second_by(&self, x: u64, moved: Option<u64>) -> Option<Goal>
        ensures { result ≡ second_by self.now.image.now x moved }
    {
        match moved {
            Some(to) => Some(Goal::Jump {
                rd: self.link(x),
                to,
            }),
            None => {
                let word = self.image.word(x)?;
                Some(Goal::Same(word))
            }
        }
    }

    fn second(&self, x: u64) -> Option<Goal>
        ensures { result ≡ option_and_then (λ s. second_by self.now.image.now x (moved_to (option_copied self.now.new) s)) (option_and_then (start_of self.now.image.now) (second_of self.now.image.now x)) }
    {
        let func = second_of(self.image, x)?;
        let start = start_of(self.image, func)?;
        self.second_by(x, self.moved(start))
    }

    /// What the word at an address of the original program becomes, if it is a call.
    #[tactic(auto, unfolding(crate::specs::Goals::goal_of))]
    pub fn goal(&self, x: u64) -> Option<Goal>
        ensures { result ≡ goal_of self.now.image.now (option_copied self.now.new) x }
    {
        match self.site(x) {
            Some(goal) => Some(goal),
            None => self.second(x),
        }
    }
}
