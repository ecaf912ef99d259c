//! Numbers of handles. The function has no body: its clauses are the law.
ghost use Rattle.std.specs.Prelude.{◌≡◌, ℕ};
ghost use Rattle.model_loop.specs.Parts.{FutureKind, Task, Parts};
ghost use Rattle.model_loop.specs.Cancel.{cancel};
ghost use Rattle.model_loop.specs.Futures.{settle, register, mark_asked, make_future};
ghost use Rattle.model_loop.specs.Handles.{soon};
ghost use Rattle.model_loop.specs.Tasks.{change_task, spawn};
ghost use Rattle.model_value.specs.Action.{Action};
ghost use Rattle.model_value.specs.Value.{Outcome};
ghost use Rattle.algorithm_parts.specs.Placed.{placed, placed_of};

/// What happens to the parts does not depend on the numbers that handles have: it commutes with
/// numbering them by their places.
pub fn commutes()
    ensures soon { (action : Action) (p : Parts) → soon action (placed p) ≡ placed (soon action p) }
    ensures settle { (id : ℕ) (outcome : Outcome) (p : Parts)
        → settle id outcome (placed p) ≡ placed (settle id outcome p) }
    ensures register { (id : ℕ) (action : Action) (p : Parts)
        → register id action (placed p) ≡ placed (register id action p) }
    ensures make { (kind : FutureKind) (p : Parts)
        → make_future kind (placed p) ≡ placed (make_future kind p) }
    ensures ask { (id : ℕ) (p : Parts) → mark_asked id (placed p) ≡ placed (mark_asked id p) }
    ensures spawn { (p : Parts) → spawn (placed p) ≡ placed (spawn p) }
    ensures change { (id : ℕ) (change : Task → Task) (p : Parts)
        → change_task id change (placed p) ≡ placed (change_task id change p) }
    ensures cancel { (id : ℕ) (p : Parts) → cancel id (placed p) ≡ placed_of (cancel id p) }
{}
