//! Laws of changes. Each function has no body: its clauses are the laws.
ghost use Rattle.std.specs.Prelude.{◌≡◌, ℕ, [], ◌∷◌, List, length};
ghost use Rattle.model_stream.specs.Doing.{MakeFuture};
ghost use Rattle.aio_task.specs.View.{View};
ghost use Rattle.aio_exchange.specs.Ways.{Move, changed_on};
ghost use Rattle.aio_change.specs.Owned.{AreOwn};
ghost use Rattle.aio_change.specs.Seen.{seen_changed};

/// No change makes a future a task's, one that is made is no task's, and none calls a step.
pub fn changes_leave_futures_their_own()
    ensures stay { (way : List Move) (v : View) (futures : List ℕ) → AreOwn v futures
        → AreOwn (changed_on seen_changed way v) futures }
    ensures made { (v : View)
        → AreOwn (seen_changed MakeFuture v) (length v.futures ∷ []) }
    ensures idle { (way : List Move) (v : View)
        → (changed_on seen_changed way v).called ≡ v.called }
{}
