//! Laws of what a `wait_for` asks of its task, over a whole run. Each function has no body: its
//! clauses are the laws.
ghost use Rattle.std.specs.Prelude.{ℕ, List};
ghost use Rattle.model_tree.specs.Syntax.{Program};
ghost use Rattle.model_wire.specs.Journal.{Entry};
ghost use Rattle.model_machine.specs.Extra.{Extra, no_extra};
ghost use Rattle.model_machine.specs.State.{start};
ghost use Rattle.model_reach.specs.Reach.{OfDgram, OfExec, OfSync, reach};
ghost use Rattle.model_gather.specs.Serving.{gather_means};
ghost use Rattle.law_kept.specs.Runs.{IsRunOf};
ghost use Rattle.law_waiters.specs.Reached.{first_parted};
ghost use Rattle.law_waiters.specs.Timed.{AsksOnce, KeepsToKeys};

/// In each state of each run of every program, over whatever the outside answers: a `wait_for` has
/// asked for its task's cancel once exactly where its time was over before its task went on, and
/// has taken that back once exactly where its task went on after that; no other of these requests
/// asks for a cancel or takes one back. So it is where these four are all that is added (`alone`),
/// and beside any other three parts that keep to their own keys (`beside_others`).
pub fn a_wait_for_asks_once<B, C, D>()
    ensures alone { (most limit : ℕ) (program : Program) (answers : List Entry) (turns : ℕ)
        → IsRunOf (λ s. AsksOnce s.extra.gather s.loop.ledger) limit
        (reach gather_means no_extra no_extra no_extra) turns
        (start most (first_parted tt tt tt) program answers) }
    ensures beside_others { (sync : Extra B) (exec : Extra C) (dgram : Extra D)
        → KeepsToKeys OfSync sync → KeepsToKeys OfExec exec → KeepsToKeys OfDgram dgram
        → (b : B) (c : C) (d : D) (most limit : ℕ) (program : Program) (answers : List Entry)
        (turns : ℕ)
        → IsRunOf (λ s. AsksOnce s.extra.gather s.loop.ledger) limit
        (reach gather_means sync exec dgram) turns
        (start most (first_parted b c d) program answers) }
{}
