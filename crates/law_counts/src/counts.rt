//! A law of what is counted of runs, whatever is open and whatever the outside answers. Each
//! function has no body: its clauses are the law. `S` is the state of what is added to the loop's
//! own requests, whatever that is.
ghost use Rattle.std.specs.Prelude.{◌≡◌, ◌⊎◌, ℕ, List};
ghost use Rattle.model_tree.specs.Syntax.{Program};
ghost use Rattle.model_says.specs.Says.{step_limit};
ghost use Rattle.model_wire.specs.Journal.{Entry};
ghost use Rattle.model_machine.specs.Extra.{Extra};
ghost use Rattle.model_machine.specs.Replies.{most_ids};
ghost use Rattle.model_machine.specs.Run.{run_on};
ghost use Rattle.model_machine.specs.State.{State, start};
ghost use Rattle.model_program.specs.Runs.{run_over};
ghost use Rattle.model_commands.specs.Works.{counts_over, tasks_in, tasks_on};
ghost use Rattle.law_counts.specs.Lasting.{IsCut, last_on};

/// The tasks that are counted of a run are those that were made by its end, unless a turn was cut
/// short in the middle of a callback, by a step that ran away or by a call without an answer that
/// fits. So it is where main returned, raised or was cancelled, where the run stalled, and where it
/// was out of turns.
pub fn tasks_are_those_of_the_last_state<S>()
    ensures counts { (extra : Extra S) (first : S) (program : Program) (answers : List Entry)
        (allowed : ℕ)
        → ((counts_over extra first program answers allowed).tasks
        ≡ tasks_in (last_on step_limit extra allowed (start most_ids first program answers)))
        ⊎ IsCut (run_over extra first program answers allowed).end }
    ensures any { (limit : ℕ) (extra : Extra S) (allowed left : ℕ) (s : State S)
        → (tasks_on limit extra left s ≡ tasks_in (last_on limit extra left s))
        ⊎ IsCut (run_on limit extra allowed left s).end }
{}
