//! The laws of logs that grow, for callers' proofs. The functions do nothing.
ghost use Rattle.std.specs.Prelude.{◌≡◌, ◌≢◌, ℕ, ◌+◌, ◌*◌, ◌%◌, ◌<◌, ◌≤◌, Bool, true, false, not, ◌&&◌, nat_le, is_some, List, [], ◌∷◌, ◌++◌, length, replicate, All, Option, Some, IfSome};
ghost use Rattle.image.specs.Picture.{Picture};
ghost use Rattle.sched_log.specs.declared.event.Event.{Event};
ghost use Rattle.sched_log.specs.declared.event.Event.TheVariants.{Real, Snap, Replace, Retire};
ghost use Rattle.machine.specs.Harts.{is_live, hart_in};
ghost use Rattle.machine.specs.States.{State};
ghost use Rattle.machine.specs.Start.{start_of};
ghost use Rattle.machine.specs.Steps.{can_step, original_step, original_run};
ghost use Rattle.pacing.specs.Limits.{visit_limit, entry_limit, visit_entries};
ghost use Rattle.pacing.specs.Logs.{is_snap, steps_in, steps_of, state_at};
ghost use Rattle.pacing.specs.Clocks.{tick, clock_of, reals};
ghost use Rattle.pacing.specs.Pacing.{owes_snap, can_make, IsVisit, Paced};
ghost use Rattle.pacing.specs.Readings.{NoSnap, NoReplace, HasPending};
ghost use Rattle.pacing.specs.Serving.{visits, Turn, last_turn, NoneBefore, IsNext, TurnFits, Served};
ghost use Rattle.pacing.specs.Keeping.{is_overdue, IsOpen, IsSettled, StillLive};
ghost use Rattle.pacing.specs.Bounds.{IsLimited, IsBounded};
ghost use Rattle.pacing.specs.Waiters.{ListsNoLive};

/// The law of other harts: where no live hart is on the system's list of waiting harts, a step of one hart makes no other live hart wait or
/// end, and none comes on that list; and harts that were made stay.
pub fn others_law()
    ensures live { (p : Picture) (h k : ℕ) (o : State) → ListsNoLive o → h ≢ k → is_live (hart_in o.harts k).status ≡ true
        → is_live (hart_in (original_step p h o).harts k).status ≡ true }
    ensures made { (p : Picture) (h : ℕ) (o : State) → length o.harts ≤ length (original_step p h o).harts }
    ensures listed { (p : Picture) (h : ℕ) (o : State) → ListsNoLive o → ListsNoLive (original_step p h o) }
    ensures start { (p : Picture) (input : List ℕ) → ListsNoLive (start_of p input) }
{}

/// The law of the pace: a log that is settled keeps it, however many harts are away.
pub fn paced_law()
    ensures { (p : Picture) (start : State) (every away : ℕ) (wanted : Bool) (log : List Event)
        → IsSettled p start every away wanted log → Paced p start every log }
{}

/// The law of a visit that is made step by step: where the hart can step once more, the visit is one longer; and one that began where it
/// could and ended where it can't has made a step. The hart of a visit was made.
pub fn visit_law()
    ensures more { (p : Picture) (n h : ℕ) (s : State) → can_make p n h s ≡ true → can_step h (original_run p (replicate n h) s) ≡ true
        → can_make p (n + 1) h s ≡ true }
    ensures some { (p : Picture) (n h : ℕ) (s : State) → can_step h s ≡ true → can_step h (original_run p (replicate n h) s) ≡ false → 0 < n }
    ensures made { (p : Picture) (s : State) (h n : ℕ) → IsVisit p s h n → h < length s.harts }
{}

/// The law of one more entry: what it adds to the steps, the state and the clock of a log.
pub fn entry_law()
    ensures steps { (log : List Event) (e : Event) → steps_of (log ++ e ∷ []) ≡ steps_of log ++ steps_in e }
    ensures state { (p : Picture) (start : State) (log : List Event) (e : Event)
        → state_at p start (log ++ e ∷ []) ≡ original_run p (steps_in e) (state_at p start log) }
    ensures clock { (log : List Event) (e : Event) → clock_of (log ++ e ∷ []) ≡ tick (clock_of log) e }
    ensures reals { (log : List Event) → length (steps_of log) ≡ reals log }
{}

/// What a log that keeps the pace is like. From the start or an attempt on the next Snap stands right after the first entry with which there
/// are enough real steps, unless that entry ended the run, and nowhere else; so too where the log ends. A Retire and a Replace stand side by
/// side, and there is a snapshot with no attempt yet. After each entry between a Snap and its attempt there are few enough real steps since.
pub fn pace_law()
    ensures snap_from_start { (p : Picture) (start : State) (every : ℕ) (log : List Event) → Paced p start every log
        → (since : List Event) (e : Event) (rest : List Event) → log ≡ since ++ e ∷ rest → NoSnap since → NoReplace since
        → is_snap e ≡ (nat_le every (reals since) && not (is_some (state_at p start since).outcome)) }
    ensures snap_after_attempt { (p : Picture) (start : State) (every : ℕ) (log : List Event) → Paced p start every log
        → (before since : List Event) (e : Event) (rest : List Event) → log ≡ (before ++ Replace ∷ since) ++ e ∷ rest → NoSnap since → NoReplace since
        → is_snap e ≡ (nat_le every (reals since) && not (is_some (state_at p start (before ++ Replace ∷ since)).outcome)) }
    ensures one_snap { (p : Picture) (start : State) (every : ℕ) (log : List Event) → Paced p start every log
        → (before since : List Event) (e : Event) (rest : List Event) → log ≡ (before ++ Snap ∷ since) ++ e ∷ rest → NoReplace since → is_snap e ≡ false }
    ensures ends_from_start { (p : Picture) (start : State) (every : ℕ) (log : List Event) → Paced p start every log → NoSnap log → NoReplace log
        → (nat_le every (reals log) && not (is_some (state_at p start log).outcome)) ≡ false }
    ensures ends_after_attempt { (p : Picture) (start : State) (every : ℕ) (log : List Event) → Paced p start every log
        → (before since : List Event) → log ≡ before ++ Replace ∷ since → NoSnap since → NoReplace since
        → (nat_le every (reals since) && not (is_some (state_at p start log).outcome)) ≡ false }
    ensures replace_follows { (p : Picture) (start : State) (every : ℕ) (log : List Event) → Paced p start every log
        → (before rest : List Event) → log ≡ before ++ Retire ∷ rest → (after : List Event) × (rest ≡ Replace ∷ after) }
    ensures retire_precedes { (p : Picture) (start : State) (every : ℕ) (log : List Event) → Paced p start every log
        → (before rest : List Event) → log ≡ before ++ Replace ∷ rest → (shorter : List Event) × (before ≡ shorter ++ Retire ∷ []) }
    ensures snap_precedes { (p : Picture) (start : State) (every : ℕ) (log : List Event) → Paced p start every log
        → (before rest : List Event) → log ≡ before ++ Retire ∷ rest → HasPending before }
    ensures attempt_in_time { (p : Picture) (start : State) (every : ℕ) (log : List Event) → Paced p start every log
        → (before since : List Event) (e : Event) (rest : List Event) → log ≡ (before ++ Snap ∷ since) ++ e ∷ rest
        → NoSnap (since ++ e ∷ []) → NoReplace (since ++ e ∷ [])
        → reals (since ++ e ∷ []) ≤ every + visit_limit * length (state_at p start (before ++ Snap ∷ (since ++ e ∷ []))).harts }
{}

/// The law of a log that grows. A run begins settled. A hart may leave where no stop is wanted and the run goes on; it lands with a visit, or
/// gives up with none, or makes its visit at once. What is open after a landing is settled by a snapshot that is owed, by an attempt, by nothing where nothing is owed
/// and no attempt is late or where the run is over, and by a stop that is wanted.
pub fn growing_law()
    ensures begins { (p : Picture) (start : State) (every : ℕ) → 0 < every → IsSettled p start every 0 false [] }
    ensures leaves { (p : Picture) (start : State) (every away : ℕ) (log : List Event) → IsSettled p start every away false log
        → is_some (state_at p start log).outcome ≡ false → away + 1 ≤ length (state_at p start log).harts
        → IsSettled p start every (away + 1) false log }
    ensures lands { (p : Picture) (start : State) (every away : ℕ) (wanted : Bool) (log : List Event) (h n : ℕ)
        → IsSettled p start every (away + 1) wanted log
        → IsVisit p (state_at p start log) h n → IsOpen p start every away (log ++ Real h n ∷ []) }
    ensures visits_at_once { (p : Picture) (start : State) (every away : ℕ) (log : List Event) (h n : ℕ) → IsSettled p start every away false log
        → away + 1 ≤ length (state_at p start log).harts → IsVisit p (state_at p start log) h n → IsOpen p start every away (log ++ Real h n ∷ []) }
    ensures gives_up { (p : Picture) (start : State) (every away : ℕ) (wanted : Bool) (log : List Event)
        → IsSettled p start every (away + 1) wanted log
        → IsSettled p start every away wanted log }
    ensures snap_settles { (p : Picture) (start : State) (every away : ℕ) (wanted : Bool) (log : List Event) → 0 < every
        → owes_snap every (state_at p start log) (clock_of log) ≡ true → IsOpen p start every away log
        → IsSettled p start every away wanted (log ++ Snap ∷ []) }
    ensures attempt_settles { (p : Picture) (start : State) (every away : ℕ) (wanted : Bool) (log : List Event) → 0 < every
        → (clock_of log).pending ≡ true → IsOpen p start every away log → IsSettled p start every away wanted ((log ++ Retire ∷ []) ++ Replace ∷ []) }
    ensures rests_settled { (p : Picture) (start : State) (every away : ℕ) (wanted : Bool) (log : List Event) → IsOpen p start every away log
        → owes_snap every (state_at p start log) (clock_of log) ≡ false → is_overdue every (state_at p start log) (clock_of log) ≡ false
        → IsSettled p start every away wanted log }
    ensures over_settles { (p : Picture) (start : State) (every away : ℕ) (wanted : Bool) (log : List Event) → IsOpen p start every away log
        → is_some (state_at p start log).outcome ≡ true → IsSettled p start every away wanted log }
    ensures stop_settles { (p : Picture) (start : State) (every away : ℕ) (log : List Event) → IsOpen p start every away log
        → owes_snap every (state_at p start log) (clock_of log) ≡ false → IsSettled p start every away true log }
{}

/// The law of turns. The empty log serves in turn, and an entry in turn keeps it so. A worker's harts that were live right after its last
/// visit stay live, whatever entry comes. So a hart is in turn where no hart of the worker that comes before it is live now.
pub fn serving_law()
    ensures begins { (p : Picture) (start : State) (workers : ℕ) → Served p start workers [] }
    ensures begins_live { (p : Picture) (start : State) (workers worker : ℕ) → StillLive workers worker (last_turn p workers worker start []) start }
    ensures serves { (p : Picture) (start : State) (workers : ℕ) (log : List Event) (e : Event) → Served p start workers log
        → TurnFits p start workers log e
        → Served p start workers (log ++ e ∷ []) }
    ensures next_fits { (workers worker h : ℕ) (t : Option Turn) (now : State) → StillLive workers worker t now
        → IfSome t (λ u. NoneBefore workers worker u.hart h now) → IsNext workers worker t h }
    ensures serving_grows { (p : Picture) (start : State) (workers worker : ℕ) (log : List Event) (e : Event) → ListsNoLive start
        → StillLive workers worker (last_turn p workers worker start log) (state_at p start log)
        → StillLive workers worker (last_turn p workers worker start (log ++ e ∷ [])) (state_at p start (log ++ e ∷ [])) }
{}

/// The law of last visits: a visit is its worker's last one right after it, and other entries leave that as it is. And what it means for a
/// log that serves in turn, of two visits of one worker with none of its own between them.
pub fn turns_law()
    ensures own { (p : Picture) (start : State) (workers worker : ℕ) (log : List Event) (h n : ℕ) → h % workers ≡ worker
        → last_turn p workers worker start (log ++ Real h n ∷ []) ≡ Some (record { hart = h; state = state_at p start (log ++ Real h n ∷ []) }) }
    ensures other { (p : Picture) (start : State) (workers worker : ℕ) (log : List Event) (e : Event) → visits workers worker e ≡ false
        → last_turn p workers worker start (log ++ e ∷ []) ≡ last_turn p workers worker start log }
    ensures served { (p : Picture) (start : State) (workers : ℕ) (log before between rest : List Event) (g m h n : ℕ) → Served p start workers log
        → log ≡ before ++ Real g m ∷ (between ++ Real h n ∷ rest) → g % workers ≡ h % workers
        → All (λ e. visits workers (h % workers) e ≡ false) between
        → NoneBefore workers (h % workers) g h (state_at p start (before ++ Real g m ∷ [])) }
{}

/// The law of a search in the order of the rotation after hart g: up from g, and then up from 0 to g. What it passed comes before what it found.
pub fn rotation_law()
    ensures above { (workers worker g h : ℕ) (s : State) → g < h
        → ((j : ℕ) → g < j → j < h → j % workers ≡ worker → is_live (hart_in s.harts j).status ≡ false) → NoneBefore workers worker g h s }
    ensures below { (workers worker g h most : ℕ) (s : State) → h ≤ g → length s.harts ≤ most
        → ((j : ℕ) → g < j → j < most → j % workers ≡ worker → is_live (hart_in s.harts j).status ≡ false)
        → ((j : ℕ) → j < h → j % workers ≡ worker → is_live (hart_in s.harts j).status ≡ false) → NoneBefore workers worker g h s }
{}

/// The law of bounds. Real steps: a hart leaves only below the limit, and lands with one visit at most. Entries: a hart leaves only below the
/// limit, and its visit leaves three to spare, which a Snap and its attempt take.
pub fn bounds_law()
    ensures steps_begin { (p : Picture) (start : State) (limit : ℕ) → 0 < limit → IsLimited p start limit 0 [] }
    ensures steps_leave { (p : Picture) (start : State) (limit away : ℕ) (log : List Event) → reals log < limit
        → away + 1 ≤ length (state_at p start log).harts → IsLimited p start limit (away + 1) log }
    ensures steps_land { (p : Picture) (start : State) (limit away : ℕ) (log : List Event) (h n : ℕ) → n ≤ visit_limit
        → IsLimited p start limit (away + 1) log → IsLimited p start limit away (log ++ Real h n ∷ []) }
    ensures steps_give_up { (p : Picture) (start : State) (limit away : ℕ) (log : List Event) → IsLimited p start limit (away + 1) log
        → IsLimited p start limit away log }
    ensures steps_snap { (p : Picture) (start : State) (limit away : ℕ) (log : List Event) → IsLimited p start limit away log
        → IsLimited p start limit away (log ++ Snap ∷ []) }
    ensures steps_attempt { (p : Picture) (start : State) (limit away : ℕ) (log : List Event) → IsLimited p start limit away log
        → IsLimited p start limit away ((log ++ Retire ∷ []) ++ Replace ∷ []) }
    ensures steps { (p : Picture) (start : State) (limit away : ℕ) (log : List Event) → IsLimited p start limit away log
        → reals log < limit + visit_limit * length (state_at p start log).harts }
    ensures entries_begin { (p : Picture) (start : State) → IsBounded p start 0 0 [] }
    ensures entries_leave { (p : Picture) (start : State) (away : ℕ) (log : List Event) → length log < entry_limit
        → away + 1 ≤ length (state_at p start log).harts → IsBounded p start (away + 1) 0 log }
    ensures entries_land { (p : Picture) (start : State) (away spare : ℕ) (log : List Event) (h n : ℕ) → IsBounded p start (away + 1) spare log
        → IsBounded p start away (spare + 3) (log ++ Real h n ∷ []) }
    ensures entries_give_up { (p : Picture) (start : State) (away spare : ℕ) (log : List Event) → IsBounded p start (away + 1) spare log
        → IsBounded p start away spare log }
    ensures entries_snap { (p : Picture) (start : State) (away spare : ℕ) (log : List Event) → IsBounded p start away (spare + 3) log
        → IsBounded p start away spare (log ++ Snap ∷ []) }
    ensures entries_attempt { (p : Picture) (start : State) (away spare : ℕ) (log : List Event) → (clock_of log).pending ≡ true
        → IsBounded p start away spare log → IsBounded p start away spare ((log ++ Retire ∷ []) ++ Replace ∷ []) }
    ensures entries_rest { (p : Picture) (start : State) (away spare : ℕ) (log : List Event) → IsBounded p start away spare log
        → IsBounded p start away 0 log }
    ensures entries { (p : Picture) (start : State) (away spare : ℕ) (log : List Event) → IsBounded p start away spare log
        → length log ≤ entry_limit + 1 + visit_entries * length (state_at p start log).harts }
{}
