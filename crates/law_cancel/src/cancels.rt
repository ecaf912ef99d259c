//! Laws of cancel requests, which hold in every state of the parts. Each function has no body: its
//! clauses are the laws.
ghost use Rattle.std.specs.Prelude.{◌≡◌, ℕ, ◌≤◌, ◌⊎◌, false, not, List, Some, None, slice_get, if◌then◌else◌};
ghost use Rattle.model_value.specs.declared.outcome.Outcome.TheVariants.{Cancelled};
ghost use Rattle.model_loop.specs.Parts.{Parts};
ghost use Rattle.model_loop.specs.Futures.{future_outcome, is_pending};
ghost use Rattle.model_loop.specs.Tasks.{cancelling, one_more};
ghost use Rattle.model_loop.specs.Spent.{spent_by, is_spent};
ghost use Rattle.model_loop.specs.Cancel.{CancelRequest, answers, has_seen, cancel_by, cancel_with, cancel};
ghost use Rattle.model_loop.specs.Cancelling.{Cancels};
ghost use Rattle.model_loop.specs.Numbered.{occurrences};

/// A request ends: at each future it does what the definition says with the request itself for
/// members and for what a task waits for, so no bound is reached.
pub fn is_total()
    ensures { (id : ℕ) (seen : List ℕ) (p : Parts)
        → cancel_with id seen p ≡ cancel_by cancel_with cancel_with id seen p }
{}

/// It meets the rows that say what a request does, and it alone does.
pub fn is_the_relation()
    ensures meets { (id : ℕ) (seen : List ℕ) (p : Parts)
        → Cancels id seen p (cancel_with id seen p) }
    ensures alone { (id : ℕ) (seen : List ℕ) (p : Parts) (request : CancelRequest)
        → Cancels id seen p request → cancel_with id seen p ≡ request }
{}

/// So does the test whether a future is spent.
pub fn spent_is_total()
    ensures { (p : Parts) (id : ℕ)
        → is_spent p id ≡ spent_by (is_spent p) (slice_get p.futures id) id }
{}

/// The answer is false exactly where the future is spent, and then nothing has changed.
pub fn answers_false_where_spent()
    ensures answer { (id : ℕ) (seen : List ℕ) (p : Parts)
        → (cancel_with id seen p).answer ≡ not (is_spent p id) }
    ensures unchanged { (id : ℕ) (seen : List ℕ) (p : Parts)
        → (cancel_with id seen p).answer ≡ false → cancel_with id seen p ≡ answers false seen p }
{}

/// The tasks that a request visits are each visited once, and count it once; no other count
/// changes.
pub fn raises_once()
    ensures once { (id : ℕ) (p : Parts) (task : ℕ) → occurrences task (cancel id p).seen ≤ 1 }
    ensures count { (id : ℕ) (p : Parts) (task : ℕ)
        → cancelling (cancel id p).parts task
        ≡ (if has_seen (cancel id p).seen task then one_more (cancelling p task)
        else cancelling p task) }
{}

/// A future that is done stays as it is, and one that isn't ends by being cancelled or not at all.
pub fn changes_no_outcome()
    ensures done { (id : ℕ) (p : Parts) (other : ℕ)
        → is_pending p other ≡ false
        → slice_get (cancel id p).parts.futures other ≡ slice_get p.futures other }
    ensures outcome { (id : ℕ) (p : Parts) (other : ℕ)
        → (future_outcome (cancel id p).parts other ≡ future_outcome p other)
        ⊎ ((future_outcome p other ≡ None)
        × (future_outcome (cancel id p).parts other ≡ Some Cancelled)) }
{}
