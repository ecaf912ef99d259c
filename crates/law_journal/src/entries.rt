//! What holds of every answer. Each function has no body: its clauses are the law.
ghost use Rattle.std.specs.Prelude.{◌≡◌, ℕ, true, false, List, map};
ghost use Rattle.std.specs.List.{AllByRecursion};
ghost use Rattle.model_wire.specs.Call.{Call, Answer, written};
ghost use Rattle.model_wire.specs.Fits.{fits};
ghost use Rattle.model_wire.specs.Journal.{Answered};
ghost use Rattle.model_wire.specs.JournalText.{entry_of, entries_of};
ghost use Rattle.law_value.specs.Endings.{has_newline};
ghost use Rattle.law_journal.specs.InRange.{InRange};
ghost use Rattle.law_journal.specs.JournalTexts.{journal_text, MayBeAnswered};

/// The entry of a written answer is that answer, where it fits some call and its numbers are in
/// range.
pub fn written_answers_are_read()
    ensures { (number : ℕ) (call : Call) (answer : Answer) → fits call answer ≡ true
        → InRange answer
        → entry_of number (written answer) ≡ Answered answer }
{}

/// A written answer stands on one line.
pub fn answers_print_no_newline()
    ensures { (answer : Answer) → has_newline (written answer) ≡ false }
{}

/// A journal that was written answer by answer is read back as these answers.
pub fn written_journals_are_read()
    ensures { (answers : List Answer) → AllByRecursion MayBeAnswered answers
        → entries_of (journal_text answers) ≡ map Answered answers }
{}
