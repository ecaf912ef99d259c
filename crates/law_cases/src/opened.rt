//! Laws of requests and callbacks of listeners, connections and children. Each function has no body:
//! its clauses are the laws. `S` is the state of what is added to the loop's own requests.
ghost use Rattle.std.specs.Prelude.{◌≡◌, ℕ, true};
ghost use Rattle.model_value.specs.Action.{Action};
ghost use Rattle.model_value.specs.Request.{Request};
ghost use Rattle.model_machine.specs.Extra.{Extra};
ghost use Rattle.model_machine.specs.Replies.{reply};
ghost use Rattle.model_machine.specs.Sound.{AreStreamsFutures};
ghost use Rattle.model_machine.specs.State.{Asked, State};
ghost use Rattle.model_machine.specs.Turn.{effect};
ghost use Rattle.law_cases.specs.Trees.{is_of_streams};
ghost use Rattle.law_cases.specs.Closed.{is_to_streams};
ghost use Rattle.law_cases.specs.StreamReplies.{StreamGoes, StreamReplies};

/// Where each future that they keep is a plain one, a request and a callback is one of the cases,
/// whatever is open and whatever the outside answers.
pub fn streams_come_to_cases<S>()
    ensures requests { (added : Extra S) (task : ℕ) (s : State S) → AreStreamsFutures s
        → (asked : Request) → is_to_streams asked ≡ true
        → StreamReplies task Asked s asked (reply added task asked s) }
    ensures callbacks { (limit : ℕ) (added : Extra S) (s : State S) → AreStreamsFutures s
        → (it : Action) → is_of_streams it ≡ true → StreamGoes s (effect limit added it s) }
{}
