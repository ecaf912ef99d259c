//! Laws of requests. Each function has no body: its clauses are the laws.
ghost use Rattle.std.specs.Prelude.{◌≡◌, ℕ, false};
ghost use Rattle.model_value.specs.Request.{Request};
ghost use Rattle.model_says.specs.Endings.{Asks};
ghost use Rattle.model_says.specs.Says.{step_limit};
ghost use Rattle.model_machine.specs.Extra.{Extra};
ghost use Rattle.model_machine.specs.Replies.{reply};
ghost use Rattle.model_machine.specs.State.{State};
ghost use Rattle.model_machine.specs.Step.{says_of};
ghost use Rattle.law_turns.specs.Replied.{HasPlainFutures, IsFit};
ghost use Rattle.law_replies.specs.InStep.{IsStepSound, RepliesInStep, is_added};
ghost use Rattle.law_replies.specs.Added.{KeepsSound};

/// Each request that a task makes in its step is fit, and what it comes to is sound: inside the
/// step once it was answered, and whole where it ends the step.
pub fn requests_are_fit<S>()
    ensures fit { (added : Extra S) (task : ℕ) (s : State S) → IsStepSound added task s
        → (asked : Request) → says_of step_limit added task s ≡ Asks asked → is_added asked ≡ false
        → IsFit asked s }
    ensures futures { (added : Extra S) (task : ℕ) (s : State S) → IsStepSound added task s
        → HasPlainFutures s }
    ensures answered { (added : Extra S) → KeepsSound added
        → (task : ℕ) (s : State S) → IsStepSound added task s
        → (asked : Request) → says_of step_limit added task s ≡ Asks asked
        → RepliesInStep added false task (reply added task asked s) }
{}
