//! Laws of tasks and their steps. Each function has no body: its clauses are the laws.
ghost use Rattle.std.specs.Prelude.{◌≡◌, ℕ, Result, length};
ghost use Rattle.model_value.specs.Input.{Input};
ghost use Rattle.model_value.specs.Value.{Value, Exc};
ghost use Rattle.model_loop.specs.Parts.{Parts, Profile};
ghost use Rattle.model_loop.specs.Cycles.{cycle};
ghost use Rattle.model_loop.specs.Suspend.{suspend};
ghost use Rattle.model_loop.specs.Tasks.{spawn, begin_step, pause, finish, uncancel, cancelling, future_of, waiter_of, must_cancel_of, lives, next_task};
ghost use Rattle.aio_task.specs.View.{View, parts};
ghost use Rattle.aio_task.specs.Keeps.{NameMap, Keeps, Extends, Kept, Becomes};

/// A task is made.
pub fn a_new_task_is_kept()
    ensures after { (t : NameMap) (v w : View) (p : Parts) → Keeps t v p
        → Becomes v w (spawn (parts v)) → Kept t p w (spawn p) }
    ensures number { (t : NameMap) (v : View) (p : Parts) → Keeps t v p
        → length v.tasks ≡ next_task p }
{}

/// A step begins, with what the coroutine is resumed with.
pub fn a_begun_step_is_kept()
    ensures after { (t : NameMap) (v w : View) (p : Parts) (task : ℕ) (input : Input) → Keeps t v p
        → Becomes v w (begin_step task input (parts v)).parts
        → Keeps t w (begin_step task input p).parts }
    ensures input { (t : NameMap) (v : View) (p : Parts) (task : ℕ) (input : Input) → Keeps t v p
        → (begin_step task input (parts v)).input ≡ (begin_step task input p).input }
    ensures name_map { (t : NameMap) (p : Parts) (task : ℕ) (input : Input)
        → Extends p t (begin_step task input p).parts t }
{}

/// A step ends: the next one is called soon, or the task waits, or it is done.
pub fn an_ended_step_is_kept()
    ensures pauses { (t : NameMap) (v w : View) (p : Parts) (task : ℕ) → Keeps t v p
        → Becomes v w (pause task (parts v)) → Kept t p w (pause task p) }
    ensures suspends { (t : NameMap) (v w : View) (p : Parts) (task on : ℕ) → Keeps t v p
        → Becomes v w (suspend task on (parts v)).parts → Kept t p w (suspend task on p).parts }
    ensures cycle { (t : NameMap) (v : View) (p : Parts) (task on : ℕ) → Keeps t v p
        → cycle (parts v) task on ≡ cycle p task on }
    ensures finishes { (t : NameMap) (v w : View) (p : Parts) (task : ℕ) (end : Result Value Exc)
        → Keeps t v p → Becomes v w (finish task end (parts v)) → Kept t p w (finish task end p) }
{}

/// A cancel is taken back.
pub fn an_uncancel_is_kept()
    ensures after { (t : NameMap) (v w : View) (p : Parts) (profile : Profile) (task : ℕ)
        → Keeps t v p → Becomes v w (uncancel profile task (parts v))
        → Keeps t w (uncancel profile task p) }
    ensures name_map { (t : NameMap) (p : Parts) (profile : Profile) (task : ℕ)
        → Extends p t (uncancel profile task p) t }
{}

/// What tasks tell.
pub fn told_tasks_are_kept()
    ensures future { (t : NameMap) (v : View) (p : Parts) (task : ℕ) → Keeps t v p
        → future_of (parts v) task ≡ future_of p task }
    ensures waiter { (t : NameMap) (v : View) (p : Parts) (task : ℕ) → Keeps t v p
        → waiter_of (parts v) task ≡ waiter_of p task }
    ensures count { (t : NameMap) (v : View) (p : Parts) (task : ℕ) → Keeps t v p
        → cancelling (parts v) task ≡ cancelling p task }
    ensures must_cancel { (t : NameMap) (v : View) (p : Parts) (task : ℕ) → Keeps t v p
        → must_cancel_of (parts v) task ≡ must_cancel_of p task }
    ensures life { (t : NameMap) (v : View) (p : Parts) (task : ℕ) → Keeps t v p
        → lives (parts v) task ≡ lives p task }
{}
