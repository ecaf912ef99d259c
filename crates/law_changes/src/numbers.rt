//! Laws of stamps, tags and numbers: what is numbered once stays so. Each function has no body.
ghost use Rattle.std.specs.Prelude.{ℕ, ◌<◌, List, Result};
ghost use Rattle.std.specs.List.{All};
ghost use Rattle.model_value.specs.Action.{Action};
ghost use Rattle.model_value.specs.Input.{Input};
ghost use Rattle.model_value.specs.Value.{Value, Exc, Outcome};
ghost use Rattle.model_loop.specs.Parts.{Parts};
ghost use Rattle.model_loop.specs.Handles.{soon, later, revoke, due};
ghost use Rattle.model_loop.specs.Futures.{next_future, new_plain, new_many, settle, register};
ghost use Rattle.model_loop.specs.Tasks.{spawn, begin_step, pause, finish};
ghost use Rattle.model_loop.specs.Suspend.{suspend};
ghost use Rattle.model_loop.specs.Cancel.{cancel};
ghost use Rattle.model_loop.specs.Numbered.{IsNumbered};

/// The stamps of pending handles differ and are below the next stamp, the tags of handles and
/// timers likewise, and a future that stands for others was made after them.
pub fn stay_given_once()
    ensures soon { (action : Action) (p : Parts) → IsNumbered p → IsNumbered (soon action p) }
    ensures later { (when : ℕ) (action : Action) (p : Parts)
        → IsNumbered p → IsNumbered (later when action p) }
    ensures revoke { (tag : ℕ) (p : Parts) → IsNumbered p → IsNumbered (revoke tag p) }
    ensures due { (p : Parts) → IsNumbered p → IsNumbered (due p) }
    ensures settle { (id : ℕ) (outcome : Outcome) (p : Parts)
        → IsNumbered p → IsNumbered (settle id outcome p) }
    ensures register { (id : ℕ) (action : Action) (p : Parts)
        → IsNumbered p → IsNumbered (register id action p) }
    ensures cancel { (id : ℕ) (p : Parts) → IsNumbered p → IsNumbered (cancel id p).parts }
{}

/// So they do when something is made.
pub fn stay_given_once_at_making()
    ensures plain { (p : Parts) → IsNumbered p → IsNumbered (new_plain p) }
    ensures many { (members : List ℕ) (p : Parts)
        → All (λ member. member < next_future p) members → IsNumbered p
        → IsNumbered (new_many members p) }
    ensures spawn { (p : Parts) → IsNumbered p → IsNumbered (spawn p) }
{}

/// So they do in each part of a task's step.
pub fn stay_given_once_in_steps()
    ensures begin { (id : ℕ) (input : Input) (p : Parts)
        → IsNumbered p → IsNumbered (begin_step id input p).parts }
    ensures pause { (id : ℕ) (p : Parts) → IsNumbered p → IsNumbered (pause id p) }
    ensures suspend { (task on : ℕ) (p : Parts)
        → IsNumbered p → IsNumbered (suspend task on p).parts }
    ensures finish { (id : ℕ) (end : Result Value Exc) (p : Parts)
        → IsNumbered p → IsNumbered (finish id end p) }
{}
