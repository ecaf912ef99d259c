//! Laws of cancel requests. Each function has no body: its clauses are the laws.
ghost use Rattle.std.specs.Prelude.{◌≡◌, ℕ, ◌++◌, ◌∷◌, [], List};
ghost use Rattle.model_loop.specs.Parts.{Parts};
ghost use Rattle.model_loop.specs.Cancel.{cancel};
ghost use Rattle.model_loop.specs.Ledger.{Origin, request, request_each};
ghost use Rattle.model_loop.specs.Spent.{is_spent};
ghost use Rattle.aio_task.specs.View.{View, parts};
ghost use Rattle.aio_task.specs.Keeps.{NameMap, Keeps, Kept, Becomes};
ghost use Rattle.refine_parts.specs.Requests.{each_more};

/// A request to cancel a future, whoever makes it; and what it answers.
pub fn a_request_is_kept()
    ensures after { (t : NameMap) (v w : View) (p : Parts) (by : Origin) (id : ℕ) → Keeps t v p
        → Becomes v w (cancel id (parts v)).parts → Kept t p w (request by id p).booked.parts }
    ensures answer { (t : NameMap) (v : View) (p : Parts) (by : Origin) (id : ℕ) → Keeps t v p
        → (cancel id (parts v)).answer ≡ (request by id p).answer }
    ensures spent { (t : NameMap) (v : View) (p : Parts) (id : ℕ) → Keeps t v p
        → is_spent (parts v) id ≡ is_spent p id }
{}

/// One request for each of several tasks is one for each but the last, and then that.
pub fn requests_go_one_by_one()
    ensures { (by : Origin) (tasks : List ℕ) (task : ℕ) (p : Parts)
        → request_each by (tasks ++ task ∷ []) p
        ≡ each_more by task (request_each by tasks p) }
{}
