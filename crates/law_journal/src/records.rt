//! What holds of every row of events. Each function has no body: its clauses are the law.
ghost use Rattle.std.specs.Prelude.{◌≡◌, List, map};
ghost use Rattle.std.specs.List.{AllByRecursion};
ghost use Rattle.model_wire.specs.Event.{Event};
ghost use Rattle.model_wire.specs.Journal.{Answered};
ghost use Rattle.model_wire.specs.JournalText.{entries_of};
ghost use Rattle.model_commands.specs.Recorded.{recorded};
ghost use Rattle.law_journal.specs.JournalTexts.{MayBeAnswered};
ghost use Rattle.law_journal.specs.RecordedAnswers.{answers_of};

/// What is recorded of events is a journal of their answers: it is read back as them.
pub fn what_is_recorded_is_read()
    ensures { (events : List Event) → AllByRecursion MayBeAnswered (answers_of events)
        → entries_of (recorded events) ≡ map Answered (answers_of events) }
{}
