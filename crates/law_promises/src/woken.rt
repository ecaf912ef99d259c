//! Laws of futures that are told, over every run, whatever is open and whatever the outside
//! answers. Each function has no body: its clauses are the laws. `S` is the state of what is added
//! to the loop's own requests, whatever that is.
ghost use Rattle.std.specs.Prelude.{◌≡◌, ◌+◌, ℕ, Bool, true, [], Some};
ghost use Rattle.std.specs.List.{count_by};
ghost use Rattle.model_value.specs.Action.{Action};
ghost use Rattle.model_value.specs.Value.{Outcome};
ghost use Rattle.model_loop.specs.Futures.{future_outcome, is_pending, settle};
ghost use Rattle.model_loop.specs.Parts.{Parts};
ghost use Rattle.model_loop.specs.Totals.{callbacks_of, pending_where};
ghost use Rattle.model_machine.specs.Extra.{Extra};
ghost use Rattle.model_machine.specs.State.{State};
ghost use Rattle.law_reach.specs.Reaches.{InRun};
ghost use Rattle.law_promises.specs.Stays.{AreDoneIn, IsRunOf, OutcomesStay};

/// A future that is done stays done, with its outcome, in every state of the run from there on, and
/// after each row of changes, as callbacks and requests are.
pub fn what_is_told_stays<S>()
    ensures run { (limit : ℕ) (added : Extra S) (turns : ℕ) (s : State S)
        → IsRunOf (AreDoneIn s.loop.parts) limit added turns s }
    ensures row { (s t : State S) → InRun s t → OutcomesStay s.loop.parts t.loop.parts }
{}

/// As one that is pending is told, all that was registered on it is called, and nothing is left on
/// it; to tell one that is done does nothing. So who waits on a future, as a read, a drain, a
/// `wait_closed` and a wait for an exit do, is woken by it once.
pub fn who_waits_is_woken_once()
    ensures told { (id : ℕ) (outcome : Outcome) (p : Parts) → is_pending p id ≡ true
        → (test : Action → Bool)
        → pending_where test (settle id outcome p).pending
        ≡ pending_where test p.pending + count_by test (callbacks_of p id) }
    ensures none_left { (id : ℕ) (outcome : Outcome) (p : Parts) → is_pending p id ≡ true
        → callbacks_of (settle id outcome p) id ≡ [] }
    ensures again { (id : ℕ) (outcome other : Outcome) (p : Parts)
        → future_outcome p id ≡ Some outcome → settle id other p ≡ p }
{}
