//! What the ledger books.
ghost use Rattle.std.specs.Prelude.{◌≡◌, [], ◌∷◌, true, false};
ghost use Rattle.model_loop.specs.Ending.{cancel_everything};
ghost use Rattle.model_loop.specs.Ledger.{ByScript, ByTimeout, ByGroup, Asked, Raised, Took, request, uncancel_by};
ghost use Rattle.model_loop.specs.Parts.{One};
ghost use Rattle.row_loop.specs.Cancels.{chain, chain_cancelled, all_done, full_count, full_count_cancelled};
ghost use Rattle.row_loop.specs.Steps.{running_must_cancel};
ghost use Rattle.row_loop.specs.Ledgers.{main_done, all_cancelled, requested};

/// A request is booked with each count that it raises, in the order in which it comes to the tasks.
pub fn books_requests()
    ensures chain { request (ByScript 7) 0 chain
        ≡ requested true chain_cancelled
        (Asked (ByScript 7) ∷ Raised 0 (ByScript 7) ∷ Raised 1 (ByScript 7) ∷ Raised 2 (ByScript 7)
        ∷ []) }
    ensures refused { request (ByScript 7) 4 all_done
        ≡ requested false all_done (Asked (ByScript 7) ∷ []) }
    ensures at_the_greatest { request (ByGroup 0) 0 full_count
        ≡ requested true full_count_cancelled (Asked (ByGroup 0) ∷ []) }
{}

/// An `uncancel` is booked, with whether the count fell; these are of profile 1.
pub fn books_what_is_taken_back()
    ensures lowers { uncancel_by One (ByScript 0) 0 (running_must_cancel 2)
        ≡ record { parts = running_must_cancel 1; entries = Took 0 (ByScript 0) true ∷ [] } }
    ensures at_none { uncancel_by One (ByTimeout 3) 0 (running_must_cancel 0)
        ≡ record { parts = running_must_cancel 0; entries = Took 0 (ByTimeout 3) false ∷ [] } }
{}

/// At the end of a run each task that lives is cancelled by a request of its own.
pub fn cancels_everything()
    ensures { cancel_everything main_done ≡ all_cancelled }
{}
