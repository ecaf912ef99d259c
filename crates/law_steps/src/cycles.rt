//! Laws of cycles of waits. Each function has no body: its clauses are the laws.
ghost use Rattle.std.specs.Prelude.{◌≡◌, ℕ, None, Option, Result};
ghost use Rattle.model_value.specs.Input.{Input};
ghost use Rattle.model_value.specs.Value.{Value, Exc, Outcome};
ghost use Rattle.model_loop.specs.Parts.{FutureKind, Parts};
ghost use Rattle.model_loop.specs.Futures.{make_future, settle};
ghost use Rattle.model_loop.specs.Tasks.{begin_step, finish, spawn};
ghost use Rattle.model_loop.specs.Owning.{owner_in};
ghost use Rattle.model_loop.specs.Sound.{HasNoCycle, ArePartsSound};

/// No outcome and no part of a step makes a cycle of waits. That a wait makes none is a law of
/// cycles.
pub fn steps_make_no_cycle()
    ensures settle { (id : ℕ) (outcome : Outcome) (p : Parts) → HasNoCycle p
        → HasNoCycle (settle id outcome p) }
    ensures begin { (task : ℕ) (input : Input) (p : Parts) → HasNoCycle p
        → HasNoCycle (begin_step task input p).parts }
    ensures finish { (task : ℕ) (end : Result Value Exc) (p : Parts) → HasNoCycle p
        → HasNoCycle (finish task end p) }
{}

/// Neither makes a cycle of waits.
pub fn what_is_made_makes_no_cycle()
    ensures spawn { (running excused : Option ℕ) (p : Parts)
        → ArePartsSound running excused p → HasNoCycle p → HasNoCycle (spawn p) }
    ensures make { (kind : FutureKind) → owner_in kind ≡ None
        → (running excused : Option ℕ) (p : Parts)
        → ArePartsSound running excused p → HasNoCycle p → HasNoCycle (make_future kind p) }
{}
