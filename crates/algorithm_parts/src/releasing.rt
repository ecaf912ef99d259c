//! Futures that were released. The function has no body: its clauses are the law.
ghost use Rattle.std.specs.Prelude.{◌≡◌, ℕ, Bool, false, Result};
ghost use Rattle.model_loop.specs.Parts.{FutureKind, Task, Parts};
ghost use Rattle.model_loop.specs.Cancel.{cancel};
ghost use Rattle.model_loop.specs.Cycles.{cycle};
ghost use Rattle.model_loop.specs.Futures.{settle, register, mark_asked, make_future, next_future};
ghost use Rattle.model_loop.specs.Suspend.{suspend};
ghost use Rattle.model_loop.specs.Tasks.{change_task, spawn, finish};
ghost use Rattle.model_value.specs.Action.{Action};
ghost use Rattle.model_value.specs.Value.{Outcome, Value, Exc};
ghost use Rattle.algorithm_parts.specs.Released.{with_released, with_released_in, AreDone};

/// Forgetting futures that are done commutes with what happens to the parts. A new future is not
/// released.
pub fn commutes()
    ensures cancel { (gone : ℕ → Bool) (id : ℕ) (p : Parts) → AreDone gone p
        → cancel id (with_released gone p) ≡ with_released_in gone (cancel id p) }
    ensures settle { (gone : ℕ → Bool) (id : ℕ) (outcome : Outcome) (p : Parts) → AreDone gone p
        → settle id outcome (with_released gone p) ≡ with_released gone (settle id outcome p) }
    ensures register { (gone : ℕ → Bool) (id : ℕ) (action : Action) (p : Parts) → AreDone gone p
        → register id action (with_released gone p) ≡ with_released gone (register id action p) }
    ensures ask { (gone : ℕ → Bool) (id : ℕ) (p : Parts)
        → mark_asked id (with_released gone p) ≡ with_released gone (mark_asked id p) }
    ensures change { (gone : ℕ → Bool) (id : ℕ) (change : Task → Task) (p : Parts)
        → change_task id change (with_released gone p)
        ≡ with_released gone (change_task id change p) }
    ensures make { (gone : ℕ → Bool) (kind : FutureKind) (p : Parts) → gone (next_future p) ≡ false
        → make_future kind (with_released gone p) ≡ with_released gone (make_future kind p) }
    ensures spawn { (gone : ℕ → Bool) (p : Parts) → gone (next_future p) ≡ false
        → spawn (with_released gone p) ≡ with_released gone (spawn p) }
    ensures cycle { (gone : ℕ → Bool) (p : Parts) → AreDone gone p → (task on : ℕ)
        → cycle (with_released gone p) task on ≡ cycle p task on }
    ensures suspend { (gone : ℕ → Bool) (task on : ℕ) (p : Parts) → AreDone gone p
        → suspend task on (with_released gone p)
        ≡ record {
          parts = with_released gone (suspend task on p).parts;
          entries = (suspend task on p).entries;
        } }
    ensures finish { (gone : ℕ → Bool) (task : ℕ) (end : Result Value Exc) (p : Parts)
        → AreDone gone p
        → finish task end (with_released gone p) ≡ with_released gone (finish task end p) }
{}
