//! What a sound state says of tasks and timeouts. Each function has no body: its clauses are the
//! laws.
ghost use Rattle.std.specs.Prelude.{ℕ, ◌≤◌, List, Option};
ghost use Rattle.model_loop.specs.Loop.{Loop};
ghost use Rattle.model_loop.specs.Timeouts.{is_active, timeout_of};
ghost use Rattle.model_loop.specs.Ways.{one_if, HasOneWayOn};
ghost use Rattle.model_loop.specs.Entries.{entries};
ghost use Rattle.model_loop.specs.Deadlines.{fires_any};
ghost use Rattle.model_loop.specs.Sound.{IsSound};

/// A task that lives is stepped by exactly one thing, or runs; one that is done by none.
pub fn a_task_has_one_way_on()
    ensures { (running : Option ℕ) (told : ℕ → List ℕ) (l : Loop)
        → IsSound running told l → HasOneWayOn running l.parts }
{}

/// An active timeout has one live handle at most, and any other has none.
pub fn a_timeout_has_one_handle_at_most()
    ensures { (running : Option ℕ) (told : ℕ → List ℕ) (l : Loop) → IsSound running told l
        → (id : ℕ)
        → entries (fires_any id) l.parts ≤ one_if (is_active (timeout_of l id).state) }
{}
