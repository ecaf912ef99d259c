//! Laws of replays: the clauses of each function are the law. `S` is the state of what is added to
//! the loop's own requests.
#![tactic(auto)]

ghost use Rattle.std.specs.Prelude.{◌≡◌, ℕ, List, []};
ghost use Rattle.std.specs.List.{AllByRecursion};
ghost use Rattle.model_tree.specs.Syntax.{Program};
ghost use Rattle.model_wire.specs.Journal.{Entry};
ghost use Rattle.model_wire.specs.JournalText.{entries_of};
ghost use Rattle.model_machine.specs.Extra.{Extra};
ghost use Rattle.model_program.specs.Added.{added};
ghost use Rattle.model_program.specs.Runs.{run, run_over};
ghost use Rattle.model_commands.specs.Recorded.{recorded};
ghost use Rattle.law_journal.specs.JournalTexts.{MayBeAnswered};
ghost use Rattle.law_journal.specs.RecordedAnswers.{answers_of};
ghost use Rattle.law_replay.specs.Foreseeing.{ForeseesNothing};
ghost use Rattle.law_replay.specs.Reads.{MayFollow, ReadsAlone};

use law_journal::records::what_is_recorded_is_read;

/// What is added where the program runs a script goes by no answer that is still to come.
pub fn what_is_added_foresees_nothing()
    ensures { ForeseesNothing added }
{}

/// A run goes by the answers that it had alone: what stands behind them doesn't matter. So it is of
/// the program's runs, and of those with whatever is added that foresees nothing, from each state
/// of it.
pub fn what_is_not_read_does_not_matter<S>()
    ensures program { (program : Program) (answers : List Entry) (turns : ℕ)
        → ReadsAlone (run program) answers turns }
    ensures any { (extra : Extra S) → ForeseesNothing extra
        → (first : S) (program : Program) (answers : List Entry) (turns : ℕ)
        → ReadsAlone (run_over extra first program) answers turns }
{}

/// So a replay of what was recorded of a run, with as many turns, is that run: where each answer
/// fits some call and has numbers in range, and the run didn't end at a line that is refused.
pub fn a_record_replays_its_run<S>()
    ensures program { (program : Program) (answers : List Entry) (turns : ℕ) →
        let it = run program answers turns in
        AllByRecursion MayBeAnswered (answers_of it.events) → MayFollow it.end []
        → run program (entries_of (recorded it.events)) turns ≡ it }
    ensures any { (extra : Extra S) → ForeseesNothing extra
        → (first : S) (program : Program) (answers : List Entry) (turns : ℕ) →
        let it = run_over extra first program answers turns in
        AllByRecursion MayBeAnswered (answers_of it.events) → MayFollow it.end []
        → run_over extra first program (entries_of (recorded it.events)) turns ≡ it }
{
    what_is_recorded_is_read();
}
