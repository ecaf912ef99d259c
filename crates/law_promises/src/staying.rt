//! What clears no must_cancel, but for the places where one falls. Each function has no body: its
//! clauses are the laws, of every state. Where a cancel is taken back, all is kept in profile 1; in
//! profile 2 all but that of a task of which every request was taken back (`KeepsOrTakesBack`).
//! Everything else is of both profiles.
ghost use Rattle.std.specs.Prelude.{ℕ, ℤ, List, Option};
ghost use Rattle.model_value.specs.Action.{Action};
ghost use Rattle.model_value.specs.Input.{Input};
ghost use Rattle.model_value.specs.Value.{Exc};
ghost use Rattle.model_loop.specs.Parts.{FutureKind, Parts};
ghost use Rattle.model_loop.specs.Ending.{cancel_everything};
ghost use Rattle.model_loop.specs.Futures.{make_future};
ghost use Rattle.model_loop.specs.Groups.{child_done, create, exit_begin, exit_woken};
ghost use Rattle.model_loop.specs.Handles.{due, later, revoke, soon};
ghost use Rattle.model_loop.specs.Ledger.{Origin, ask_cancel, request_each};
ghost use Rattle.model_loop.specs.Loop.{Loop};
ghost use Rattle.model_loop.specs.Tasks.{pause, spawn};
ghost use Rattle.model_loop.specs.Timeouts.{enter_timeout, exit_timeout, fire, reschedule};
ghost use Rattle.law_promises.specs.KeepsMustCancel.{KeepsMustCancel, KeepsOrTakesBack};

/// Handles and timers, what is made, and a pause.
pub fn handles_clear_no_must_cancel()
    ensures soon { (action : Action) (p : Parts) → KeepsMustCancel p (soon action p) }
    ensures later { (when : ℕ) (action : Action) (p : Parts)
        → KeepsMustCancel p (later when action p) }
    ensures revoke { (tag : ℕ) (p : Parts) → KeepsMustCancel p (revoke tag p) }
    ensures due { (p : Parts) → KeepsMustCancel p (due p) }
    ensures make { (kind : FutureKind) (p : Parts) → KeepsMustCancel p (make_future kind p) }
    ensures spawn { (p : Parts) → KeepsMustCancel p (spawn p) }
    ensures pause { (task : ℕ) (p : Parts) → KeepsMustCancel p (pause task p) }
{}

/// Requests, whoever makes them, and those that end a run.
pub fn requests_clear_no_must_cancel()
    ensures one { (by : Origin) (id : ℕ) (p : Parts)
        → KeepsMustCancel p (ask_cancel by id p).parts }
    ensures each { (by : Origin) (tasks : List ℕ) (p : Parts)
        → KeepsMustCancel p (request_each by tasks p).parts }
    ensures end_of_run { (l : Loop) → KeepsMustCancel l.parts (cancel_everything l).parts }
{}

/// The four of a timeout, of which its exit takes its cancel back.
pub fn timeouts_clear_no_must_cancel()
    ensures enter { (task : ℕ) (delay : Option ℤ) (l : Loop)
        → KeepsMustCancel l.parts (enter_timeout task delay l).parts }
    ensures reschedule { (id : ℕ) (when : Option ℤ) (l : Loop)
        → KeepsMustCancel l.parts (reschedule id when l).parts }
    ensures fire { (id : ℕ) (l : Loop) → KeepsMustCancel l.parts (fire id l).parts }
    ensures exit { (raised : Option Exc) (id : ℕ) (l : Loop)
        → KeepsOrTakesBack l (exit_timeout raised id l).loop }
{}

/// Those of a group that change tasks or futures, of which its exit takes its request back.
pub fn groups_clear_no_must_cancel()
    ensures create { (id : ℕ) (l : Loop) → KeepsMustCancel l.parts (create id l).parts }
    ensures child_done { (id task : ℕ) (l : Loop)
        → KeepsMustCancel l.parts (child_done id task l).parts }
    ensures exit_begin { (raised : Option Exc) (id : ℕ) (l : Loop)
        → KeepsOrTakesBack l (exit_begin raised id l).loop }
    ensures exit_woken { (input : Input) (id : ℕ) (l : Loop)
        → KeepsOrTakesBack l (exit_woken input id l).loop }
{}
