//! That a gather's count, and a wait's, comes to 0 only where all members are done, over every run.
//! There is no code: each function's clauses are the law.
#![tactic(auto)]

ghost use Rattle.std.specs.Prelude.{ℕ, List};
ghost use Rattle.model_tree.specs.Syntax.{Program};
ghost use Rattle.model_wire.specs.Journal.{Entry};
ghost use Rattle.model_machine.specs.Extra.{Extra};
ghost use Rattle.model_machine.specs.State.{start};
ghost use Rattle.model_reach.specs.Reach.{OfDgram, OfExec, OfSync, reach};
ghost use Rattle.model_gather.specs.Serving.{gather_means};
ghost use Rattle.model_program.specs.Added.{added, first_added};
ghost use Rattle.law_kept.specs.Runs.{IsRunOf};
ghost use Rattle.law_waiters.specs.Reached.{first_parted};
ghost use Rattle.law_waiters.specs.Timed.{KeepsToKeys};
ghost use Rattle.law_members.specs.Members.{CountsMembers};

/// In each state of each run of every script, over whatever the outside answers: where a gather, or
/// a wait, counts no more members, each member that was made before it is done. So it is in the
/// program (`of_the_program`), and beside any other three parts that keep to their own keys
/// (`beside_others`).
pub fn members_are_counted_once_they_are_done<B, C, D>()
    ensures of_the_program { (most limit : ℕ) (program : Program) (answers : List Entry) (turns : ℕ)
        → IsRunOf (λ s. CountsMembers s.extra.gather s.loop.parts) limit added turns
        (start most first_added program answers) }
    ensures beside_others { (sync : Extra B) (exec : Extra C) (dgram : Extra D)
        → KeepsToKeys OfSync sync → KeepsToKeys OfExec exec → KeepsToKeys OfDgram dgram
        → (b : B) (c : C) (d : D) (most limit : ℕ) (program : Program) (answers : List Entry)
        (turns : ℕ)
        → IsRunOf (λ s. CountsMembers s.extra.gather s.loop.parts) limit
        (reach gather_means sync exec dgram) turns
        (start most (first_parted b c d) program answers) }
{}
