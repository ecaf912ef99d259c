//! Laws of what the ledger says of requests that are taken back. Each function has no body: its
//! clauses are the laws. `S` is the state of what is added to the loop's own requests.
ghost use Rattle.std.specs.Prelude.{ℕ, List};
ghost use Rattle.model_tree.specs.Syntax.{Program};
ghost use Rattle.model_wire.specs.Journal.{Entry};
ghost use Rattle.model_machine.specs.Extra.{Extra, NamesNothing, no_extra};
ghost use Rattle.model_machine.specs.State.{start};
ghost use Rattle.law_replies.specs.Added.{KeepsSound};
ghost use Rattle.law_promises.specs.Taken.{HasRightLedgers};

/// In each run of every program, over whatever the outside answers: where a timeout or a group
/// takes its request back and the count is 0 already, a script, or what serves further requests,
/// called `uncancel` on that task before.
pub fn what_is_taken_back_was_there<S>()
    ensures nothing_added { (most : ℕ) (program : Program) (answers : List Entry) (turns : ℕ)
        → HasRightLedgers no_extra turns (start most tt program answers) }
    ensures added { (added : Extra S) → KeepsSound added
        → (most : ℕ) (state : S) (program : Program) (answers : List Entry) (turns : ℕ)
        → NamesNothing (added.keeps state)
        → HasRightLedgers added turns (start most state program answers) }
{}
