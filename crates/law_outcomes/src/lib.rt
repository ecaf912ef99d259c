//! What the futures of gathers, waits and shields come to, over every run. There is no code: each
//! function's clauses are the law.
#![tactic(auto)]

ghost use Rattle.std.specs.Prelude.{ℕ, List};
ghost use Rattle.model_tree.specs.Syntax.{Program};
ghost use Rattle.model_says.specs.Says.{step_limit};
ghost use Rattle.model_wire.specs.Journal.{Entry};
ghost use Rattle.model_machine.specs.Extra.{Extra, NamesNothing};
ghost use Rattle.model_machine.specs.State.{start};
ghost use Rattle.model_reach.specs.Reach.{OfDgram, OfExec, OfSync, reach};
ghost use Rattle.model_gather.specs.Serving.{gather_means};
ghost use Rattle.model_program.specs.Added.{added, first_added};
ghost use Rattle.law_replies.specs.Added.{KeepsSound};
ghost use Rattle.law_heeded.specs.Owned.{KeepsToItsFutures};
ghost use Rattle.law_heeded.specs.Runs.{IsRunOf};
ghost use Rattle.law_waiters.specs.Reached.{first_parted};
ghost use Rattle.law_waiters.specs.Timed.{KeepsToKeys};
ghost use Rattle.law_outcomes.specs.Came.{FuturesCame};

/// In each state of each run of every script, over whatever the outside answers: what the future of
/// a gather, of a wait or of a shield has come to is what its members, its arguments or what it
/// shields came to, unless a cancel was asked for. So it is in the program (`of_the_program`), and
/// beside any other three parts that keep to their keys and futures, where all together keep states
/// sound (`beside_others`).
pub fn futures_come_to_what_was_gathered<B, C, D>()
    ensures of_the_program { (most : ℕ) (program : Program) (answers : List Entry) (turns : ℕ)
        → IsRunOf (λ s. FuturesCame s.extra.gather s.loop.parts) step_limit added turns
        (start most first_added program answers) }
    ensures beside_others { (sync : Extra B) (exec : Extra C) (dgram : Extra D)
        → KeepsToKeys OfSync sync → KeepsToKeys OfExec exec → KeepsToKeys OfDgram dgram
        → KeepsToItsFutures sync → KeepsToItsFutures exec → KeepsToItsFutures dgram
        → KeepsSound (reach gather_means sync exec dgram) → (b : B) (c : C) (d : D)
        → NamesNothing ((reach gather_means sync exec dgram).keeps (first_parted b c d))
        → (most : ℕ) (program : Program) (answers : List Entry) (turns : ℕ)
        → IsRunOf (λ s. FuturesCame s.extra.gather s.loop.parts) step_limit
        (reach gather_means sync exec dgram) turns
        (start most (first_parted b c d) program answers) }
{}
