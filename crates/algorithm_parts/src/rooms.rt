//! The room that a request needs. The function has no body: its clauses are the law.
ghost use Rattle.std.specs.Prelude.{◌≡◌, ◌≤◌, ◌+◌, ℕ, true, if◌then◌else◌};
ghost use Rattle.model_loop.specs.Parts.{FutureKind, Task, Parts};
ghost use Rattle.model_loop.specs.Cancel.{cancel};
ghost use Rattle.model_loop.specs.Futures.{settle, register, mark_asked, make_future, with_future};
ghost use Rattle.model_loop.specs.Tasks.{change_task};
ghost use Rattle.model_value.specs.Action.{Action};
ghost use Rattle.model_value.specs.Value.{Outcome};
ghost use Rattle.algorithm_parts.specs.Released.{released};
ghost use Rattle.algorithm_parts.specs.Open.{is_inner_kind, is_inner, room_of};

/// Only a new future that is a task's own or stands for several needs more room. Where one ends, or
/// is let go, it gives that back.
pub fn are_kept()
    ensures settle { (id : ℕ) (outcome : Outcome) (p : Parts)
        → room_of (settle id outcome p) ≤ room_of p }
    ensures ended { (id : ℕ) (outcome : Outcome) (p : Parts)
        → is_inner p id ≡ true → room_of (settle id outcome p) + 1 ≡ room_of p }
    ensures register { (id : ℕ) (action : Action) (p : Parts)
        → room_of (register id action p) ≡ room_of p }
    ensures ask { (id : ℕ) (p : Parts) → room_of (mark_asked id p) ≡ room_of p }
    ensures change { (id : ℕ) (change : Task → Task) (p : Parts)
        → room_of (change_task id change p) ≡ room_of p }
    ensures cancel { (id : ℕ) (p : Parts) → room_of (cancel id p).parts ≡ room_of p }
    ensures make { (kind : FutureKind) (p : Parts)
        → room_of (make_future kind p) ≡ room_of p + (if is_inner_kind kind then 1 else 0) }
    ensures release { (id : ℕ) (p : Parts) → room_of (with_future id released p) ≤ room_of p }
    ensures let_go { (id : ℕ) (p : Parts)
        → is_inner p id ≡ true → room_of (with_future id released p) + 1 ≡ room_of p }
{}
