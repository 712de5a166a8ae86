//! The laws of a machine whose code has been moved, for callers' proofs. The functions do nothing.

ghost use Rattle.std.specs.Prelude.{◌≡◌, ◌≢◌, ℕ, Bool, List, [], All, Option};
ghost use Rattle.image.specs.Picture.{Picture, IsKept};
ghost use Rattle.image.specs.Texts.{word_at};
ghost use Rattle.guest_sys.specs.State.{IsOrderly};
ghost use Rattle.layout.specs.Laid.{Laid};
ghost use Rattle.layout.specs.Points.{Code, code_of};
ghost use Rattle.layout.specs.Rows.{Renders};
ghost use Rattle.machine.specs.States.{State};
ghost use Rattle.machine.specs.Start.{start_of};
ghost use Rattle.machine.specs.Steps.{original_step};
ghost use Rattle.sim_laws.specs.declared.stepped.Stepped.TheVariants.{Layout as LayoutStep};
ghost use Rattle.sim_laws.specs.Codes.{IsCodeOf, AreLive};
ghost use Rattle.sim_laws.specs.Related.{StatesRelated};
ghost use Rattle.sim_laws.specs.Steps.{replaced_step, replaced_transfer, stepped, original_after, transfer_after, until_real, kind_until};
ghost use Rattle.sim_laws.specs.Changes.{KeepsPointers, with_links, IsSent, with_memory, GivesUp, LeavesCalls, LeavesPointers};

/// The law of a step: after a step of the machine whose code has been moved it stands for the original one, after its step or as it
/// was, by what the step was.
pub fn step_law()
    ensures { (p : Picture) (c : Code) (h : ℕ) (r o : State) → IsKept p → IsCodeOf p c → Renders c → IsOrderly r.system → StatesRelated p c r o
        → StatesRelated p c (replaced_step p c h r) (original_after (stepped c h r) p h o) }
{}

/// The law of transfers: where it stands for the original machine, a step of it makes the transfer that the original machine makes
/// meanwhile, by the same addresses, and none where that one makes none.
pub fn transfer_law()
    ensures { (p : Picture) (c : Code) (h : ℕ) (r o : State) → IsKept p → IsCodeOf p c → Renders c → IsOrderly r.system → StatesRelated p c r o
        → replaced_transfer p c h r ≡ transfer_after (stepped c h r) p h o }
{}

/// The law of steps of the layout: of three steps of a hart one isn't a step of the layout alone; and the steps up to that one
/// make one step of the original machine.
pub fn layout_steps_law()
    ensures real { (p : Picture) (c : Code) (h : ℕ) (r : State) → IsKept p → IsCodeOf p c → Renders c → kind_until p c 3 h r ≢ LayoutStep }
    ensures follows { (p : Picture) (c : Code) (n h : ℕ) (r o : State) → IsKept p → IsCodeOf p c → Renders c → IsOrderly r.system → StatesRelated p c r o
        → StatesRelated p c (until_real p c n h r) (original_after (kind_until p c n h r) p h o) }
{}

/// The law of a change of code: where each live code pointer goes on to stand for what it stood for, the machine does too.
pub fn change_law()
    ensures { (p : Picture) (c d : Code) (r o : State) → KeepsPointers c d r → StatesRelated p c r o → StatesRelated p d r o }
{}

/// The law of layouts that are given up: where no call that is left and no live code pointer names an address of theirs, the rest
/// renders the image, and the machine stands for what it stood for.
pub fn giving_up_law()
    ensures renders { (gone : ℕ → Bool) (c d : Code) → GivesUp gone c d → LeavesCalls gone c → Renders c → Renders d }
    ensures follows { (p : Picture) (gone : ℕ → Bool) (c d : Code) (r o : State) → GivesUp gone c d → LeavesPointers gone r → StatesRelated p c r o → StatesRelated p d r o }
{}

/// The law of slots: links in memory may get other numbers that stand for the same addresses of the original program.
pub fn slots_law()
    ensures { (p : Picture) (c : Code) (sent : List (ℕ × ℕ)) (r o : State) → IsKept p → IsCodeOf p c → All (IsSent c r.memory) sent
        → StatesRelated p c r o → StatesRelated p c (with_memory (with_links sent r.memory) r) o }
{}

/// The law of codes: an image with well formed layouts, of which each Hop goes to a whole word, has the code of that image.
pub fn code_law()
    ensures { (p : Picture) (now : ℕ → Option ℕ) (lives : List Laid) → AreLive lives → IsCodeOf p (code_of p now lives) }
{}

/// The law of the start: before the first step the machine stands for itself, whatever layouts there are.
pub fn start_law()
    ensures { (p : Picture) (c : Code) (input : List ℕ) → IsKept p → IsCodeOf p c → StatesRelated p c (start_of p input) (start_of p input) }
{}

/// The law of text alone: without layouts the text renders itself.
pub fn alone_law()
    ensures code { (p : Picture) → IsCodeOf p (code_of p (word_at p.texts) []) }
    ensures renders { (p : Picture) → IsKept p → Renders (code_of p (word_at p.texts) []) }
{}

/// The law of the system: it stays orderly, whatever a step does, and is so before the first one.
pub fn orderly_law()
    ensures step { (p : Picture) (c : Code) (h : ℕ) (r : State) → IsOrderly r.system → IsOrderly (replaced_step p c h r).system }
    ensures steps { (p : Picture) (c : Code) (n h : ℕ) (r : State) → IsOrderly r.system → IsOrderly (until_real p c n h r).system }
    ensures original { (p : Picture) (h : ℕ) (o : State) → IsOrderly o.system → IsOrderly (original_step p h o).system }
    ensures start { (p : Picture) (input : List ℕ) → IsKept p → IsOrderly (start_of p input).system }
{}
