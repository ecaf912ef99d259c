//! That locks, events and queues, jobs and datagrams keep to keys of their own, and so what is
//! promised of waiters is so of the program itself. There is no code: each function's clauses are
//! the law.
#![tactic(auto)]

ghost use Rattle.std.specs.Prelude.{ℕ, List};
ghost use Rattle.model_tree.specs.Syntax.{Program};
ghost use Rattle.model_wire.specs.Journal.{Entry};
ghost use Rattle.model_machine.specs.State.{start};
ghost use Rattle.model_dgram.specs.Serving.{dgram_means};
ghost use Rattle.model_exec.specs.Serving.{exec_means};
ghost use Rattle.model_reach.specs.Reach.{OfDgram, OfExec, OfSync};
ghost use Rattle.model_sync.specs.Serving.{sync_means};
ghost use Rattle.model_program.specs.Added.{added, first_added};
ghost use Rattle.law_kept.specs.Runs.{IsRunOf};
ghost use Rattle.law_waiters.specs.Timed.{AsksOnce, KeepsToKeys};

/// Locks, events and queues ask for no cancel, take none back and make no handle; a request of
/// theirs that waits stands under the key that it drew.
pub fn locks_events_and_queues_keep_to_their_keys()
    ensures { KeepsToKeys OfSync sync_means }
{}

/// Nor do jobs and datagrams; each of their requests stands under the key that it drew.
pub fn jobs_and_datagrams_keep_to_their_keys()
    ensures jobs { KeepsToKeys OfExec exec_means }
    ensures datagrams { KeepsToKeys OfDgram dgram_means }
{}

/// In each state of each run of every script in the program, over whatever the outside answers: a
/// `wait_for` has asked for its task's cancel once exactly where its time was over before its task
/// went on, and has taken that back once exactly where its task went on after that; no other
/// request of `gather`, `wait` or `shield` asks for a cancel or takes one back.
pub fn a_wait_for_of_the_program_asks_once()
    ensures { (most limit : ℕ) (program : Program) (answers : List Entry) (turns : ℕ)
        → IsRunOf (λ s. AsksOnce s.extra.gather s.loop.ledger) limit added turns
        (start most first_added program answers) }
{}
