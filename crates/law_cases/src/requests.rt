//! Laws of requests, by cases. Each function has no body: its clauses are the laws. `S` is the state
//! of what is added to the loop's own requests.
ghost use Rattle.std.specs.Prelude.{◌≡◌, ℕ, true, false};
ghost use Rattle.model_value.specs.Action.{Action};
ghost use Rattle.model_value.specs.Request.{Request};
ghost use Rattle.model_value.specs.Value.{Exc};
ghost use Rattle.model_machine.specs.Extra.{Extra};
ghost use Rattle.model_machine.specs.Replies.{Raises, reply};
ghost use Rattle.model_machine.specs.Sound.{IsClosed};
ghost use Rattle.model_machine.specs.State.{State};
ghost use Rattle.model_machine.specs.Turn.{effect};
ghost use Rattle.model_machine.specs.Went.{Goes};
ghost use Rattle.law_cases.specs.Trees.{is_of_streams};
ghost use Rattle.law_cases.specs.Cases.{Replies};
ghost use Rattle.law_cases.specs.Closed.{is_to_streams};

/// What a request comes to is one of the cases; `law_cases` has those to listeners, connections
/// and children.
pub fn requests_come_to_cases<S>()
    ensures { (added : Extra S) (task : ℕ) (s : State S) (asked : Request)
        → is_to_streams asked ≡ false → Replies added task s asked (reply added task asked s) }
{}

/// Where nothing is open and nothing can be opened, a request to a listener, a connection or a
/// child is refused. The code stands for such states so far, and a row of changes changes no
/// streams there.
pub fn requests_to_nothing_are_refused<S>()
    ensures { (added : Extra S) (task : ℕ) (s : State S) (asked : Request) → IsClosed s
        → is_to_streams asked ≡ true
        → (fault : Exc) × (reply added task asked s ≡ Raises fault s) }
{}

/// A callback of these does nothing there, for the same uses.
pub fn callbacks_of_nothing_do_nothing<S>()
    ensures { (limit : ℕ) (added : Extra S) (s : State S) (it : Action) → IsClosed s
        → is_of_streams it ≡ true → effect limit added it s ≡ Goes s }
{}
