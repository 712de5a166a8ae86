//! The functions of an image, so that a search finds what shares an address with one of them.

ghost use Rattle.std.specs.Prelude.{◌≡◌, ◌≢◌, ◌<◌, ◌+◌, ◌^◌, length, slice_get, position, All, AllPairs, Some, None, IfOk, IfErr, IfSome, OnOk};
ghost use Rattle.blocks.specs.declared.fault.Unreadable.TheVariants.{NoMemory as WantOfMemory};
ghost use Rattle.blocks.specs.Faults.{overlaps, fault_of};
ghost use Rattle.blocks.specs.Blocks.{runs_of};
ghost use Rattle.blocks.specs.Reaches.{reaches};

use crate::fault::Unreadable;
use crate::recover::{function, runs_or_fault};
use crate::run::Run;
use finite::search::{Keyed, keys_up_to};
use image::picture::Image;
use image::ranges::Func;
use oc_base::fault::NoMemory;
use oc_base::items::Items;
use std::alloc::Global;

/// The greatest end of the functions up to one of them.
#[derive(Clone, Copy, Debug, PartialEq, Eq)]
pub struct Reach {
    pub to: u64,
}

impl Keyed for Reach {
    ghost use Rattle.blocks.specs.Reaches.{reach_end};

    ghost key = { reach_end };

    fn key(&self) -> u64 {
        self.to
    }
}

fn reaches_of(alloc: Global, funcs: &[Func]) -> Result<Vec<Reach>, NoMemory>
    ensures { IfOk result (λ v. v.items ≡ reaches 0 funcs.now) }
{
    let mut far = 0;
    let mut all = Vec::with_capacity(alloc, funcs.len())?;
    for f in funcs {
        far = f.to.max(far);
        all.push(Reach { to: far })?;
    }
    Ok(all)
}

/// The least other function that has an address of function `n`, which is `f`.
fn place_overlapped(funcs: &[Func], all: &[Reach], n: usize, f: &Func) -> Option<usize>
    requires rise { AllPairs (λ f g. f.from < g.from) funcs.now }
    requires filled { All (λ g. g.from < g.to) funcs.now }
    requires reaches { all.now ≡ reaches 0 funcs.now }
    requires there { slice_get funcs.now n ≡ Some f.now }
    ensures first { result ≡ position (overlaps f.now) funcs.now }
    ensures within { IfSome result (λ i. i < length funcs.now) }
{
    let before = keys_up_to(all, f.from);
    if before < n {
        return Some(before);
    }
    let after = n + 1;
    if after < funcs.len() && funcs[after].from < f.to {
        return Some(after);
    }
    None
}

/// The functions of an image.
#[derive(Drop)]
pub struct FuncIndex<'a> {
    pub image: &'a Image,
    all: Vec<Reach>,
    ghost reach: { all.items ≡ reaches 0 image.now.funcs },
}

impl FuncIndex<'_> {
    /// Takes time and memory by the number of functions.
    pub fn new<'a>(alloc: Global, image: &'a Image) -> Result<FuncIndex<'a>, NoMemory>
        ensures { IfOk result (λ index. index.image.now ≡ image.now) }
    {
        let all = reaches_of(alloc, image.funcs())?;
        Ok(FuncIndex { image, all })
    }

    fn overlapped(&self, n: u32, f: &Func) -> Option<u32>
        requires { slice_get self.now.image.now.funcs n ≡ Some f.now }
        ensures { result ≡ position (overlaps f.now) self.now.image.now.funcs }
    {
        self.image.kept();
        let g = place_overlapped(self.image.funcs(), &self.all, n as usize, f)?;
        Some(g as u32)
    }

    /// The blocks of function `f` with their words, or the function's first fault, as `recover::runs` answers them.
    #[tactic(auto, unfolding(crate::specs::Faults::fault_of, crate::specs::Blocks::runs_of))]
    pub fn runs(&self, alloc: Global, f: u32) -> Result<Items<Run>, Unreadable>
        requires { f < length self.now.image.now.funcs }
        ensures is { IfOk result (λ runs. runs ≡ runs_of self.now.image.now f) }
        ensures none { OnOk result (fault_of self.now.image.now f ≡ None) }
        ensures fault { IfErr result (λ e. e ≢ WantOfMemory → fault_of self.now.image.now f ≡ Some e) }
    {
        let func = function(self.image, f);
        let overlap = self.overlapped(f, &func);
        match runs_or_fault(alloc, self.image, &func, overlap) {
            Ok(runs) => Ok(Items::from_vec(runs)),
            Err(e) => Err(e),
        }
    }
}
