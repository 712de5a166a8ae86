//! Plans of jobs.

ghost use Rattle.std.specs.Prelude.{◌≡◌, None};
ghost use Rattle.plans.specs.Given.{plan_fault};
ghost use Rattle.placer.specs.Planned.{IsPlanFor};

use branch_ring::profile::Profile;
use plans::plan::Plan;
use std::marker::{Brand, Model, PhantomData};

/// Which image a run's plans are for. Each program picks it where it makes its one run.
pub trait Named {
    ghost use Rattle.image.specs.Picture.{Picture};

    ghost image: { Picture };
}

impl Named for Brand {
    ghost use Rattle.std.specs.Prelude.{[]};

    ghost image = { record { texts = []; parts = []; entry = 0; region = record { from = 0; to = 0 }; funcs = []; sites = []; pairs = []; slots = []; headers = (0, 0) } };
}

/// A snapshot that waits for its plan: its number, counted from 1, and its profile.
#[derive(Debug, Drop)]
pub struct Job {
    pub number: u64,
    pub profile: Profile,
}

/// A job with the plan of its profile, for the image that `J` names.
#[derive(Drop)]
pub struct Placed<J: Named> {
    job: Job,
    plan: Plan,
    of: PhantomData<J>,
}

impl<J: Named> Model for Placed<J> {
    ghost use Rattle.placer.specs.Placing.{Answer, IsPlaced};

    ghost Value = { Answer };

    ghost view = { λ p. record { job = p.job; plan = p.plan } };

    ghost invariant = { λ p. IsPlaced J.image (record { job = p.job; plan = p.plan }) };
}

impl<J: Named> Placed<J> {
    /// A plan that was worked out.
    pub fn new(job: Job, plan: Plan) -> Placed<J>
        requires is { IsPlanFor J.image job.profile plan }
        requires fits { plan_fault J.image plan ≡ None }
        ensures job { result.job ≡ job }
        ensures plan { result.plan ≡ plan }
    {
        Placed {
            job,
            plan,
            of: PhantomData,
        }
    }

    pub fn job(&self) -> &Job
        ensures job { result.now ≡ self.now.job }
        ensures is { IsPlanFor J.image result.now.profile self.now.plan }
    {
        &self.job
    }

    pub fn plan(&self) -> &Plan
        ensures plan { result.now ≡ self.now.plan }
        ensures is { IsPlanFor J.image self.now.job.profile result.now }
        ensures fits { plan_fault J.image result.now ≡ None }
    {
        &self.plan
    }

    /// The plan without its job.
    pub fn into_plan(self) -> Plan
        ensures plan { result ≡ self.plan }
        ensures is { IsPlanFor J.image self.job.profile result }
        ensures fits { plan_fault J.image result ≡ None }
    {
        let Placed { plan, .. } = self;
        plan
    }
}
