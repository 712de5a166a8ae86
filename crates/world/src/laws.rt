//! Laws of runs, for callers' proofs. The functions do nothing.

ghost use Rattle.std.specs.Prelude.{◌≡◌, ◌≢◌, ◌<◌, ◌+◌, ◌++◌, ℕ, List, None, Some, true, false, is_some, length, replicate, slice_get};
ghost use Rattle.guest_sys.specs.State.{IsOrderly};
ghost use Rattle.guest_mem.specs.Memory.{Memory, blank};
ghost use Rattle.hart.specs.declared.hart.Hart.{Hart};
ghost use Rattle.hart.specs.Effects.{effect_of, is_private};
ghost use Rattle.image.specs.declared.ranges.TextRange.{TextRange};
ghost use Rattle.image.specs.Picture.{Picture, IsKept};
ghost use Rattle.layout.specs.declared.point.Point.{Point};
ghost use Rattle.layout.specs.Laid.{Laid};
ghost use Rattle.layout.specs.Points.{in_range};
ghost use Rattle.layout.specs.Rows.{Renders};
ghost use Rattle.machine.specs.Harts.{hart_in};
ghost use Rattle.machine.specs.States.{State};
ghost use Rattle.machine.specs.Steps.{original_run};
ghost use Rattle.plans.specs.declared.plan.Moved.{Moved};
ghost use Rattle.plans.specs.Given.{plan_fault};
ghost use Rattle.rv_isa.specs.declared.instr.Instr.{Instr};
ghost use Rattle.rv_isa.specs.Decoded.{decoded};
ghost use Rattle.sim_laws.specs.Origins.{origin, is_layout_step};
ghost use Rattle.sim_laws.specs.declared.stepped.Stepped.TheVariants as Stepped;
ghost use Rattle.world.specs.Adopting.{Flight, adopted, no_flight, joined, layout_flight, real_flight, private_step, led_in, Goes, StandsBut};
ghost use Rattle.world.specs.Fetching.{fetched_as, is_layout_fetch};
ghost use Rattle.world.specs.Replacing.{Replaces};
ghost use Rattle.world.specs.Retiring.{Retires};
ghost use Rattle.world.specs.Worlds.{Replaced, IsWorld, Related, code_in, code_of, kind_of, step_of};
ghost use Rattle.world.specs.Records.{Records, Snaps};
ghost use Rattle.world.specs.Runs.{Atom, a_real_step, IsRun, IsStretched, AreHartsOf, real_step_of, real_steps_of};

/// The law of runs: each run, whatever steps, replacements, retirements and snapshots it is made of, leaves what each world keeps, and the world
/// then stands for what the original machine comes to by the real steps of the run alone, whose last transfers it records. And every schedule of the original machine
/// has runs that follow it step by step, wherever replacements and retirements are put in: their real steps are those of the schedule,
/// and all of them where the run hasn't ended.
pub fn runs_law()
    ensures sound { (atoms : List Atom) (hs : List ℕ) (w v : Replaced) → IsRun atoms hs w v → IsWorld w → IsWorld v }
    ensures follows { (atoms : List Atom) (hs : List ℕ) (w v : Replaced) (o : State) → IsOrderly w.machine.system → IsRun atoms hs w v → Related w o → Related v (original_run w.image hs o) }
    ensures records { (atoms : List Atom) (hs gs : List ℕ) (ring : ℕ) (w v : Replaced) (o : State) → IsOrderly w.machine.system → IsRun atoms hs w v
        → Related w (original_run w.image gs o) → Records ring w o gs → Records ring v o (gs ++ hs) }
    ensures stretched { (hs gs : List ℕ) (atoms : List Atom) (w v : Replaced) (o : State) → IsOrderly w.machine.system → IsStretched hs atoms → IsRun atoms gs w v → Related w o
        → Related v (original_run w.image hs o) }
    ensures harts { (hs gs : List ℕ) (atoms : List Atom) (w v : Replaced) → IsStretched hs atoms → IsRun atoms gs w v → IsWorld w → AreHartsOf hs gs (is_some v.machine.outcome) }
{}

/// The law of a snapshot: what it makes keeps what each world keeps, and stands for the same states of the original machine.
pub fn snapshot_law()
    ensures sound { (w v : Replaced) → Snaps w v → IsWorld w → IsWorld v }
    ensures follows { (w v : Replaced) (o : State) → Snaps w v → Related w o → Related v o }
{}

/// The law of a retirement: what it makes keeps what each world keeps, and stands for the same states of the original machine.
pub fn retirement_law()
    ensures sound { (w v : Replaced) → Retires w v → IsWorld w → IsWorld v }
    ensures follows { (w v : Replaced) (o : State) → Retires w v → Related w o → Related v o }
{}

/// The law of a replacement by a plan of the image: what it makes keeps what each world keeps, and stands for
/// the same states of the original machine.
pub fn replacement_law()
    ensures sound { (plan : List Moved) (w v : Replaced) → plan_fault w.image plan ≡ None → Replaces plan w v → IsWorld w → IsWorld v }
    ensures follows { (plan : List Moved) (w v : Replaced) (o : State) → plan_fault w.image plan ≡ None → Replaces plan w v → Related w o → Related v o }
{}

/// The law of what a hart does out of the world. Flights join as steps do; a hart stays what it was but for its registers and pc;
/// a private step, and a step of layouts alone, are flights of one step; and flights of real steps are real steps of the world.
pub fn flights_law()
    ensures nothing { (h : ℕ) (w : Replaced) → adopted h (no_flight (hart_in w.machine.harts h)) w ≡ w }
    ensures joined { (h : ℕ) (f g : Flight) (w : Replaced) → adopted h g (adopted h f w) ≡ adopted h (joined f g) w }
    ensures hart { (h : ℕ) (f : Flight) (w : Replaced) → h < length w.machine.harts
        → hart_in (adopted h f w).machine.harts h ≡ record (hart_in w.machine.harts h) { regs = f.regs; pc = f.pc } }
    ensures rest { (h : ℕ) (f : Flight) (w : Replaced) → StandsBut w (adopted h f w) }
    ensures sound { (h : ℕ) (f : Flight) (w : Replaced) → IsWorld w → IsWorld (adopted h f w) }
    ensures others { (h k : ℕ) (f : Flight) (w : Replaced) → k ≢ h → slice_get (adopted h f w).machine.harts k ≡ slice_get w.machine.harts k }
    ensures goes { (h : ℕ) (f : Flight) (w : Replaced) → Goes h w → Goes h (adopted h f w) }
    ensures effect { (org : ℕ → ℕ) (m : Memory) (k : Hart) (i : Instr) → is_private i ≡ true → effect_of org m k i ≡ effect_of org blank k i }
    ensures alone { (org : ℕ → ℕ) (p : Picture) (i : Instr) (k new : Hart) → private_step org p i k ≡ Some new → new ≡ record k { regs = new.regs; pc = new.pc } }
    ensures real { (h word : ℕ) (i : Instr) (new : Hart) (w : Replaced) → Goes h w → is_layout_step (code_of w) (hart_in w.machine.harts h).pc ≡ false
        → (code_of w).word (hart_in w.machine.harts h).pc ≡ Some word → decoded word ≡ Some i
        → private_step (origin (code_of w)) w.image i (hart_in w.machine.harts h) ≡ Some new
        → (kind_of h w ≡ Stepped.Real) × (step_of h w ≡ adopted h (real_flight (origin (code_of w)) i (hart_in w.machine.harts h).pc new) w) }
    ensures layout { (h : ℕ) (w : Replaced) → IsWorld w → Goes h w → is_layout_step (code_of w) (hart_in w.machine.harts h).pc ≡ true
        → (kind_of h w ≡ Stepped.Layout) × (step_of h w ≡ adopted h (layout_flight (led_in (code_of w) (hart_in w.machine.harts h))) w) }
    ensures one_more { (n h : ℕ) (w : Replaced) (f g : Flight) → real_steps_of n h w ≡ adopted h f w → real_step_of h (adopted h f w) ≡ adopted h g (adopted h f w)
        → real_steps_of (n + 1) h w ≡ adopted h (joined f g) w }
    ensures runs { (n h : ℕ) (w : Replaced) → IsWorld w → is_some (real_steps_of n h w).machine.outcome ≡ false
        → IsRun (replicate n (a_real_step h)) (replicate n h) w (real_steps_of n h w) }
{}

/// The law of a real step with steps of layouts before it.
pub fn real_step_law()
    ensures none { (h : ℕ) (w : Replaced) → kind_of h w ≡ Stepped.Real → real_step_of h w ≡ step_of h w }
    ensures one { (h : ℕ) (w : Replaced) → kind_of h w ≡ Stepped.Layout → kind_of h (step_of h w) ≡ Stepped.Real → real_step_of h w ≡ step_of h (step_of h w) }
    ensures two { (h : ℕ) (w : Replaced) → kind_of h w ≡ Stepped.Layout → kind_of h (step_of h w) ≡ Stepped.Layout → real_step_of h w ≡ step_of h (step_of h (step_of h w)) }
{}

/// The law of fetching: whether a step is one of layouts alone is known by what stands at its address, and outside the region none is.
pub fn fetching_law()
    ensures region { (p : Picture) (text : List TextRange) (lives : List Laid) (a word : ℕ) (point : Point) → IsKept p → Renders (code_in p text lives) → in_range p.region a ≡ true
        → (code_in p text lives).word a ≡ Some word → (code_in p text lives).point a ≡ Some point
        → is_layout_step (code_in p text lives) a ≡ is_layout_fetch (fetched_as word point) }
    ensures text { (p : Picture) (text : List TextRange) (lives : List Laid) (a : ℕ) → in_range p.region a ≡ false → is_layout_step (code_in p text lives) a ≡ false }
    ensures nowhere { (p : Picture) (text : List TextRange) (lives : List Laid) (a : ℕ) → (code_in p text lives).point a ≡ None → is_layout_step (code_in p text lives) a ≡ false }
{}
