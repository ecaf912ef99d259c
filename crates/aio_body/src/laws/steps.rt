//! Laws of a task's step that goes on. Each function has no body: its clauses are the laws.
ghost use Rattle.std.specs.Prelude.{◌≡◌, ℕ, ◌+◌, ◌^◌, ◌<◌, ◌++◌, [], ◌∷◌, None, length};
ghost use Rattle.model_value.specs.Value.{Outcome};
ghost use Rattle.model_value.specs.declared.action.Action.TheVariants as action;
ghost use Rattle.model_loop.specs.Cancel.{cancel};
ghost use Rattle.model_loop.specs.Futures.{new_plain, next_future, settle};
ghost use Rattle.model_loop.specs.Ledger.{Origin, request};
ghost use Rattle.model_loop.specs.Loop.{book};
ghost use Rattle.model_loop.specs.Owning.{OwnsFutures, owner_of};
ghost use Rattle.model_loop.specs.Parts.{Plain};
ghost use Rattle.model_loop.specs.Tasks.{pause};
ghost use Rattle.model_machine.specs.State.{State, in_loop, unbooked_in};
ghost use Rattle.aio_ready.specs.Queue as queue;
ghost use Rattle.aio_ready.specs.Queue.{soon_all};
ghost use Rattle.aio_future.specs.Settled.{called, settled};
ghost use Rattle.aio_cancel.specs.Awaitables.{Appended};
ghost use Rattle.aio_task.specs.View.{View, parts};
ghost use Rattle.aio_body.specs.Asked.{HasSuspended, IsInStep};
ghost use Rattle.aio_body.specs.Stands.{Context};
ghost use Rattle.aio_body.specs.declared.run_state.RunState.{RunState};

use aio_extra::Extra;

/// A pause ends the step.
pub fn a_pause_suspends<X: Extra>()
    ensures { (task : ℕ) (c : Context X.added) (old : RunState X) (s : State X.added.Kept)
        (v : View)
        → IsInStep task c old s
        → parts v ≡ pause task (parts old.parts)
        → v ≡ record old.parts {
          queue = queue.soon (action.Step task) old.parts.queue;
          running = None;
        }
        → HasSuspended task c (record old { parts = v }) (unbooked_in (pause task) s) }
{}

/// A cancel is asked for, whoever asks.
pub fn a_cancel_is_asked_for<X: Extra>()
    ensures { (by : Origin) (task id : ℕ) (c : Context X.added) (old : RunState X)
        (s : State X.added.Kept) (v : View) → IsInStep task c old s
        → parts v ≡ (cancel id (parts old.parts)).parts → Appended old.parts.queue v.queue
        → v ≡ record old.parts { queue = v.queue; futures = v.futures; tasks = v.tasks }
        → IsInStep task c (record old { parts = v })
        (in_loop (book (λ p. (request by id p).booked)) s) }
{}

/// A future is made that the script names, and one that is no task's gets its outcome.
pub fn futures_are_made_and_settled<X: Extra>()
    ensures made { (task : ℕ) (c : Context X.added) (old new : RunState X) (s : State X.added.Kept)
        (v : View) → IsInStep task c old s
        → OwnsFutures s.loop.parts
        → v ≡ record old.parts {
          futures = old.parts.futures
              ++ record { kind = Plain; outcome = None; callbacks = [] } ∷ [];
        }
        → new ≡ record old { parts = v; futures = new.futures }
        → new.futures.items ≡ old.futures.items ++ next_future s.loop.parts ∷ []
        → length s.futures + 1 < 2 ^ 32
        → IsInStep task c new
        (unbooked_in new_plain
        (record s { futures = s.futures ++ next_future s.loop.parts ∷ [] })) }
    ensures settled { (task id : ℕ) (outcome : Outcome) (c : Context X.added) (old : RunState X)
        (s : State X.added.Kept) (v : View) → IsInStep task c old s
        → owner_of s.loop.parts id ≡ None
        → v ≡ record old.parts {
          futures = settled id outcome old.parts.futures;
          queue = soon_all (called id old.parts.futures) old.parts.queue;
        }
        → IsInStep task c (record old { parts = v }) (unbooked_in (settle id outcome) s) }
{}
