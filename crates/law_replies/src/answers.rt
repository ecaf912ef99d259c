//! Laws of requests and callbacks of listeners, connections and children. Each function has no body: its clauses
//! are the laws. `S` is the state of what is added to the loop's own requests.
ghost use Rattle.std.specs.Prelude.{◌≡◌, ℕ, true, false};
ghost use Rattle.model_value.specs.Action.{Action};
ghost use Rattle.model_value.specs.Request.{Request};
ghost use Rattle.model_says.specs.Endings.{Asks};
ghost use Rattle.model_says.specs.Says.{step_limit};
ghost use Rattle.model_machine.specs.Extra.{Extra};
ghost use Rattle.model_machine.specs.Replies.{reply};
ghost use Rattle.model_machine.specs.Sound.{IsStateSound};
ghost use Rattle.model_machine.specs.State.{State};
ghost use Rattle.model_machine.specs.Step.{says_of};
ghost use Rattle.model_machine.specs.Turn.{effect};
ghost use Rattle.law_cases.specs.Trees.{is_of_streams};
ghost use Rattle.law_cases.specs.Closed.{is_to_streams};
ghost use Rattle.law_replies.specs.InStep.{IsStepSound, LeavesStateSound, RepliesInStep};

/// What a request on listeners, connections and children comes to is sound, whatever is open and
/// whatever the outside answers: inside the step once the coroutine was answered, and whole where
/// the request ends the step.
pub fn requests_on_streams_keep_it_sound<S>()
    ensures { (added : Extra S) (task : ℕ) (s : State S) → IsStepSound added task s
        → (asked : Request) → says_of step_limit added task s ≡ Asks asked
        → is_to_streams asked ≡ true
        → RepliesInStep added false task (reply added task asked s) }
{}

/// So is what a callback comes to, the one that makes the handler of a connection among them.
pub fn callbacks_of_streams_keep_it_sound<S>()
    ensures { (limit : ℕ) (added : Extra S) (s : State S) → IsStateSound added s → (it : Action)
        → is_of_streams it ≡ true → LeavesStateSound added (effect limit added it s) }
{}
