//! Laws of steps. Each function has no body: its clauses are the laws.
ghost use Rattle.std.specs.Prelude.{◌≡◌, ℕ, true, false, List, ◌∷◌, Option, Some, None, Result};
ghost use Rattle.std.specs.List.{count_by};
ghost use Rattle.model_value.specs.Input.{Input};
ghost use Rattle.model_value.specs.Value.{Value, Exc};
ghost use Rattle.model_loop.specs.Parts.{Handle, Timer, Parts};
ghost use Rattle.model_loop.specs.Futures.{is_pending};
ghost use Rattle.model_loop.specs.Tasks.{begin_step, pause, finish};
ghost use Rattle.model_loop.specs.Suspend.{suspend};
ghost use Rattle.model_loop.specs.Ways.{steps, HasOneWayOn};
ghost use Rattle.model_loop.specs.Sound.{ArePartsSound};
ghost use Rattle.law_steps.specs.Frames.{taken};

/// A step begins, by the handle that runs.
pub fn a_step_begins_sound()
    ensures { (task : ℕ) (input : Input) (handle : Handle) (rest : List Handle) (p : Parts)
        → p.pending ≡ handle ∷ rest → handle.dead ≡ false → steps task handle.action ≡ true
        → ArePartsSound None None p
        → ArePartsSound (Some task) (Some task) (begin_step task input (taken rest p)).parts }
{}

/// A step ends: the next one is called soon, or the task waits, or it is done.
pub fn a_step_ends_sound()
    ensures pauses { (task : ℕ) (p : Parts)
        → ArePartsSound (Some task) (Some task) p → ArePartsSound None None (pause task p) }
    ensures suspends { (task on : ℕ) (p : Parts) → is_pending p on ≡ true
        → ArePartsSound (Some task) (Some task) p
        → ArePartsSound None None (suspend task on p).parts }
    ensures finishes { (task : ℕ) (end : Result Value Exc) (p : Parts)
        → ArePartsSound (Some task) (Some task) p → ArePartsSound None None (finish task end p) }
{}

/// The ways on that are counted over all futures are those at their homes.
pub fn ways_are_one_by_one()
    ensures { (running : Option ℕ) (p : Parts) → ArePartsSound running running p
        → ((task : ℕ) → count_by (λ (timer : Timer). steps task timer.action) p.timers ≡ 0)
        → HasOneWayOn running p }
{}
