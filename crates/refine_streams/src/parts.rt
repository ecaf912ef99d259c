//! Laws of the loop's parts along a way. Each function has no body: its clauses are the laws.
ghost use Rattle.std.specs.Prelude.{◌≡◌, ℕ, true, List};
ghost use Rattle.model_loop.specs.Owning.{is_plain};
ghost use Rattle.model_loop.specs.Parts.{Parts};
ghost use Rattle.model_machine.specs.Does.{changed};
ghost use Rattle.aio_exchange.specs.Ways.{Move, changed_on};
ghost use Rattle.aio_change.specs.Owned.{IsOwn};
ghost use Rattle.aio_change.specs.Seen.{seen_changed};
ghost use Rattle.aio_task.specs.Keeps.{Keeps, Kept, NameMap};
ghost use Rattle.aio_task.specs.View.{View};
ghost use Rattle.refine_streams.specs.Beside.{StaysBeside};

/// Parts in code that stand for the machine's do so along every way.
pub fn ways_are_kept()
    ensures { (t : NameMap) (v : View) (p : Parts) (way : List Move) → Keeps t v p
        → Kept t p (changed_on seen_changed way v) (changed_on changed way p) }
{}

/// A way leaves the time, the timers, the tasks, the profile and whose step goes on as they were,
/// and what stands before the bar.
pub fn ways_stay_beside()
    ensures { (v : View) (way : List Move) → StaysBeside v (changed_on seen_changed way v) }
{}

/// A plain future of the machine's is no task's in code.
pub fn plain_futures_are_own()
    ensures { (t : NameMap) (v : View) (p : Parts) (future : ℕ) → Keeps t v p
        → is_plain p future ≡ true → IsOwn v future }
{}
