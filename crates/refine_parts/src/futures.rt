//! Laws of futures. Each function has no body: its clauses are the laws.
ghost use Rattle.std.specs.Prelude.{◌≡◌, ◌<◌, ◌++◌, ◌∷◌, [], ℕ, true, false, List, None, length, slice_get, slice_set, nat_lt, if◌then◌else◌};
ghost use Rattle.std.specs.List.{All};
ghost use Rattle.model_value.specs.Action.{Action};
ghost use Rattle.model_value.specs.Value.{Outcome};
ghost use Rattle.model_loop.specs.Parts.{Plain, Many, Parts};
ghost use Rattle.model_loop.specs.Futures.{settle, register, mark_asked, new_plain, new_many, next_future, is_pending, is_pending_at, outcome_at, future_outcome};
ghost use Rattle.model_loop.specs.Owning.{owner_at, owner_of};
ghost use Rattle.algorithm_parts.specs.Released.{released};
ghost use Rattle.aio_ready.specs.Queue.{soon_all};
ghost use Rattle.aio_future.specs.Settled as settled;
ghost use Rattle.aio_future.specs.Settled.{called, registered, soon_if_done, asked};
ghost use Rattle.aio_task.specs.View.{View};
ghost use Rattle.aio_task.specs.Keeps.{NameMap, Keeps, Extends, Kept, release};

/// A future gets its outcome, or a callback; one that stands for several keeps that it was asked.
pub fn changed_futures_are_kept()
    ensures settle { (t : NameMap) (v : View) (p : Parts) (id : ℕ) (outcome : Outcome) → Keeps t v p
        → Kept t p
        (record v {
          futures = settled.settled id outcome v.futures;
          queue = soon_all (called id v.futures) v.queue;
        })
        (settle id outcome p) }
    ensures register { (t : NameMap) (v : View) (p : Parts) (id : ℕ) (action : Action) → Keeps t v p
        → Kept t p
        (record v {
          futures = registered id action v.futures;
          queue = soon_if_done id action v.futures v.queue;
        })
        (register id action p) }
    ensures ask { (t : NameMap) (v : View) (p : Parts) (id : ℕ) → Keeps t v p
        → Keeps t (record v { futures = asked id v.futures }) (mark_asked id p) }
{}

/// A future is made. Members of one that stands for several were made before.
pub fn new_futures_are_kept()
    ensures plain { (t : NameMap) (v : View) (p : Parts) → Keeps t v p
        → Keeps t
        (record v {
          futures = v.futures ++ record { kind = Plain; outcome = None; callbacks = [] } ∷ [];
        })
        (new_plain p) }
    ensures many { (t : NameMap) (v : View) (p : Parts) (members : List ℕ) → Keeps t v p
        → All (λ member. member < next_future p) members
        → Keeps t
        (record v {
          futures = v.futures
              ++ record { kind = Many members false; outcome = None; callbacks = [] } ∷ [];
        })
        (new_many members p) }
    ensures number { (t : NameMap) (v : View) (p : Parts) → Keeps t v p
        → length v.futures ≡ next_future p }
{}

/// Neither gives a tag.
pub fn name_maps_stay_at_futures()
    ensures ask { (t : NameMap) (p : Parts) (id : ℕ) → Extends p t (mark_asked id p) t }
    ensures plain { (t : NameMap) (p : Parts) → Extends p t (new_plain p) t }
    ensures many { (t : NameMap) (p : Parts) (members : List ℕ)
        → Extends p t (new_many members p) t }
{}

/// A future that is done is released. The machine keeps it.
pub fn a_released_future_is_kept()
    ensures { (t : NameMap) (v : View) (p : Parts) (id : ℕ) → Keeps t v p → id < next_future p
        → is_pending p id ≡ false
        → Keeps (release id t)
        (record v {
          futures =
              (if nat_lt id (length v.futures) then slice_set v.futures id released else v.futures);
        })
        p }
{}

/// What futures tell. How one ended is told of those that weren't released.
pub fn told_futures_are_kept()
    ensures pending { (t : NameMap) (v : View) (p : Parts) (id : ℕ) → Keeps t v p
        → is_pending_at (slice_get v.futures id) ≡ is_pending p id }
    ensures outcome { (t : NameMap) (v : View) (p : Parts) (id : ℕ) → Keeps t v p
        → t.gone id ≡ false
        → outcome_at (slice_get v.futures id) ≡ future_outcome p id }
    ensures there { (t : NameMap) (v : View) (p : Parts) (id : ℕ) → Keeps t v p → t.gone id ≡ false
        → slice_get v.futures id ≡ slice_get p.futures id }
    ensures owner { (t : NameMap) (v : View) (p : Parts) (id : ℕ) → Keeps t v p
        → owner_of p id ≡ None
        → owner_at (slice_get v.futures id) ≡ None }
    ensures gone { (t : NameMap) (v : View) (p : Parts) (id : ℕ) → Keeps t v p → t.gone id ≡ true
        → is_pending p id ≡ false }
{}
