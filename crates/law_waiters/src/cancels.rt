//! Laws of cancel requests that come to a task which waits in a gather, in a wait or in a shield,
//! over a whole run. Each function has no body: its clauses are the laws.
ghost use Rattle.std.specs.Prelude.{ℕ, List};
ghost use Rattle.model_tree.specs.Syntax.{Program};
ghost use Rattle.model_wire.specs.Journal.{Entry};
ghost use Rattle.model_machine.specs.Extra.{Extra};
ghost use Rattle.model_machine.specs.State.{start};
ghost use Rattle.model_reach.specs.Reach.{reach};
ghost use Rattle.model_gather.specs.Gathered.{none_gathered};
ghost use Rattle.model_gather.specs.Serving.{gather_means};
ghost use Rattle.law_kept.specs.Runs.{IsRunOf};
ghost use Rattle.law_waiters.specs.Reached.{CancelsGoOn, first_parted};

/// In each state of each run of every program, over whatever the outside answers: a cancel request
/// that comes to a task which it hasn't reached before, and which waits in a gather that is not
/// over, goes from there to each member, once, in order of the list; and from a task that waits in
/// a wait or a shield it goes to no member. So it is where these four are all that is added
/// (`alone`), and where any other three parts serve other codes beside them (`beside_others`).
pub fn a_cancel_goes_to_members<B, C, D>()
    ensures alone { (most limit : ℕ) (program : Program) (answers : List Entry) (turns : ℕ)
        → IsRunOf (λ s. CancelsGoOn s.extra s.loop.parts) limit gather_means turns
        (start most none_gathered program answers) }
    ensures beside_others { (sync : Extra B) (exec : Extra C) (dgram : Extra D) (b : B) (c : C)
        (d : D) (most limit : ℕ) (program : Program) (answers : List Entry) (turns : ℕ)
        → IsRunOf (λ s. CancelsGoOn s.extra.gather s.loop.parts) limit
        (reach gather_means sync exec dgram) turns
        (start most (first_parted b c d) program answers) }
{}
