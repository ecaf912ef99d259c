//! Where must_cancel falls, by which a cancel waits for its task's next step. Each function has no
//! body: its clauses are the laws, of every state.
ghost use Rattle.std.specs.Prelude.{◌≡◌, ℕ, true, false, Some, Result, Err};
ghost use Rattle.model_value.specs.declared.input.Input.TheVariants.{Throw};
ghost use Rattle.model_value.specs.declared.outcome.Outcome.TheVariants.{Failed, Cancelled};
ghost use Rattle.model_value.specs.Action.{Action};
ghost use Rattle.model_value.specs.Input.{Input};
ghost use Rattle.model_value.specs.Value.{Value, Exc, Outcome};
ghost use Rattle.model_loop.specs.Parts.{Parts, Profile, One, Two};
ghost use Rattle.model_loop.specs.Futures.{future_outcome, is_pending, settle, register};
ghost use Rattle.model_loop.specs.Tasks.{begin_step, cancelling, finish, future_of, is_cancelled};
ghost use Rattle.model_loop.specs.Tasks.{must_cancel_of, lives, uncancel};
ghost use Rattle.model_loop.specs.Cancel.{cancel};
ghost use Rattle.model_loop.specs.Suspend.{wait_on, suspend};
ghost use Rattle.model_loop.specs.Owning.{OwnsFutures};

/// In both profiles: at the beginning of its task's step, which is then resumed with a
/// CancelledError; at its task's return, which then ends cancelled; and at a wait for a future
/// whose cancel answered true. In profile 2 besides: at an `uncancel` of its task that lowers the
/// count from 1 to 0, so that all requests are taken back.
pub fn must_cancel_falls()
    ensures begins { (id : ℕ) (input : Input) (p : Parts) (task : ℕ) → must_cancel_of p task ≡ true
        → must_cancel_of (begin_step id input p).parts task ≡ false
        → (id ≡ task) × (fault : Exc) × ((begin_step id input p).input ≡ Throw fault)
        × (is_cancelled fault ≡ true) }
    ensures returns { (id : ℕ) (end : Result Value Exc) (p : Parts) (task : ℕ) → lives p id ≡ true
        → must_cancel_of p task ≡ true
        → must_cancel_of (finish id end p) task ≡ false
        → (id ≡ task) × (future_outcome (finish id end p) (future_of p id) ≡ Some Cancelled) }
    ensures waits { (id on : ℕ) (p : Parts) → OwnsFutures p → is_pending p on ≡ true
        → lives p id ≡ true → (task : ℕ)
        → must_cancel_of p task ≡ true → must_cancel_of (suspend id on p).parts task ≡ false
        → (id ≡ task) × ((cancel on (wait_on id on p)).answer ≡ true) }
    ensures taken_back { (profile : Profile) (id : ℕ) (p : Parts) (task : ℕ)
        → must_cancel_of p task ≡ true
        → must_cancel_of (uncancel profile id p) task ≡ false
        → (profile ≡ Two) × (id ≡ task) × (cancelling p task ≡ 1)
        × (cancelling (uncancel profile id p) task ≡ 0) }
{}

/// An outcome and a callback leave it in both profiles, and an `uncancel` in profile 1.
pub fn must_cancel_stays_elsewhere()
    ensures { (task : ℕ) (p : Parts) → must_cancel_of p task ≡ true
        → ((id : ℕ) (outcome : Outcome) → must_cancel_of (settle id outcome p) task ≡ true)
        × ((id : ℕ) (action : Action) → must_cancel_of (register id action p) task ≡ true)
        × ((id : ℕ) → must_cancel_of (uncancel One id p) task ≡ true) }
{}

/// A task that raises another exception first ends failed, must_cancel set or not.
pub fn another_exception_comes_first()
    ensures { (id : ℕ) (fault : Exc) (p : Parts) → lives p id ≡ true → is_cancelled fault ≡ false
        → future_outcome (finish id (Err fault) p) (future_of p id) ≡ Some (Failed fault) }
{}
