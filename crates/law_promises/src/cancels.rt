//! A cancel goes on. Each function has no body: its clauses are the laws, of every state in which
//! each task has its own future.
ghost use Rattle.std.specs.Prelude.{◌≡◌, ℕ, true};
ghost use Rattle.model_loop.specs.Parts.{Parts};
ghost use Rattle.model_loop.specs.Tasks.{must_cancel_of};
ghost use Rattle.model_loop.specs.Cancel.{has_seen, cancel};
ghost use Rattle.model_loop.specs.Owning.{OwnsFutures};
ghost use Rattle.law_promises.specs.Reached.{WasReached, RequestGoesOn};

/// Each task that a request comes to must cancel, or what it waits for was pending and this
/// request reached it: that is cancelled now, or it is the future of a task that the request came
/// to, or it stands for several of which the request reached one.
pub fn a_cancel_goes_on()
    ensures { (id : ℕ) (p : Parts) → OwnsFutures p → (task : ℕ)
        → has_seen (cancel id p).seen task ≡ true
        → RequestGoesOn p (cancel id p).parts (cancel id p).seen task }
{}

/// A request that answers true reached what it was made for, which was pending.
pub fn an_answer_is_true()
    ensures { (id : ℕ) (p : Parts) → OwnsFutures p → (cancel id p).answer ≡ true
        → WasReached p (cancel id p).parts (cancel id p).seen id }
{}

/// No request clears must_cancel.
pub fn a_cancel_keeps_must_cancel()
    ensures { (id : ℕ) (p : Parts) → OwnsFutures p → (task : ℕ) → must_cancel_of p task ≡ true
        → must_cancel_of (cancel id p).parts task ≡ true }
{}
