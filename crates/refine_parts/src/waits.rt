//! Laws of what tasks wait for. Each function has no body: its clauses are the laws.
ghost use Rattle.std.specs.Prelude.{◌≡◌, ◌⊎◌, ℕ, List, Some, Result};
ghost use Rattle.model_value.specs.Action.{Action};
ghost use Rattle.model_value.specs.Input.{Input};
ghost use Rattle.model_value.specs.Value.{Outcome, Value, Exc};
ghost use Rattle.model_loop.specs.Parts.{Parts, Profile};
ghost use Rattle.model_loop.specs.Cancel.{cancel};
ghost use Rattle.model_loop.specs.Futures.{settle, register};
ghost use Rattle.model_loop.specs.Ledger.{Origin, request_each};
ghost use Rattle.model_loop.specs.Suspend.{suspend};
ghost use Rattle.model_loop.specs.Tasks.{spawn, begin_step, finish, uncancel, waiter_of};
ghost use Rattle.refine_parts.specs.Waits.{WaitedBefore};

/// No task waits for anything new, so who may release a future may do so later.
pub fn nothing_new_is_waited_for()
    ensures settle { (id : ℕ) (outcome : Outcome) (p : Parts)
        → WaitedBefore p (settle id outcome p) }
    ensures register { (id : ℕ) (action : Action) (p : Parts)
        → WaitedBefore p (register id action p) }
    ensures spawn { (p : Parts) → WaitedBefore p (spawn p) }
    ensures begin { (task : ℕ) (input : Input) (p : Parts)
        → WaitedBefore p (begin_step task input p).parts }
    ensures finish { (task : ℕ) (end : Result Value Exc) (p : Parts)
        → WaitedBefore p (finish task end p) }
    ensures uncancel { (profile : Profile) (task : ℕ) (p : Parts)
        → WaitedBefore p (uncancel profile task p) }
    ensures cancel { (id : ℕ) (p : Parts) → WaitedBefore p (cancel id p).parts }
    ensures each { (by : Origin) (tasks : List ℕ) (p : Parts)
        → WaitedBefore p (request_each by tasks p).parts }
{}

/// But for the task that suspends.
pub fn one_task_waits()
    ensures { (task on : ℕ) (p : Parts) (other it : ℕ)
        → waiter_of (suspend task on p).parts other ≡ Some it
        → (waiter_of p other ≡ Some it) ⊎ ((other ≡ task) × (it ≡ on)) }
{}
