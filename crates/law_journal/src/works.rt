//! What holds of the texts of every seed. Each function has no body: its clauses are the law.
ghost use Rattle.std.specs.Prelude.{◌≡◌, ℕ, map, Ok};
ghost use Rattle.model_text.specs.Canonical.{canonical};
ghost use Rattle.model_text.specs.Scripts.{script_of};
ghost use Rattle.model_wire.specs.Journal.{Answered};
ghost use Rattle.model_wire.specs.JournalText.{entries_of};
ghost use Rattle.model_work.specs.Work.{script, journal};
ghost use Rattle.law_journal.specs.Program.{program};
ghost use Rattle.law_journal.specs.WorkAnswers.{answers};

/// The script of every seed is read as the seed's program, and is that program's canonical text.
pub fn scripts_are_read()
    ensures read { (seed : ℕ) → script_of (script seed) ≡ Ok (program seed) }
    ensures canonical { (seed : ℕ) → canonical (program seed) ≡ script seed }
{}

/// The journal's lines are read as answers.
pub fn the_journal_is_read()
    ensures { entries_of journal ≡ map Answered answers }
{}
