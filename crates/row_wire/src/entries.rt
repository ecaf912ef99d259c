//! Lines of journals. Each function has no body: its clause is the equation of a table's two columns.
ghost use Rattle.std.specs.Prelude.{◌≡◌, map, [], ◌∷◌, codes};
ghost use Rattle.model_wire.specs.declared.answer.Answer.TheVariants.{Turn, Done};
ghost use Rattle.model_wire.specs.Journal.{Answered, Refused};
ghost use Rattle.model_wire.specs.JournalText.{entries_of};
ghost use Rattle.row_wire.specs.Rows.{found, expected};
ghost use Rattle.row_wire.specs.Lines.{right, wrong, numbers, literals};

/// Each form of an entry, and where spaces may stand.
pub fn entries_are_read()
    ensures { map found right ≡ map expected right }
{}

/// Lines that are no entry.
pub fn lines_are_refused()
    ensures { map found wrong ≡ map expected wrong }
{}

/// Numbers at their bounds: of 64 bits with a sign, ids, exit codes.
pub fn numbers_at_their_bounds()
    ensures { map found numbers ≡ map expected numbers }
{}

/// Literals with every escape, with spaces, and wrong ones.
pub fn literals_are_read()
    ensures { map found literals ≡ map expected literals }
{}

/// Whole journals: lines are numbered from 1, the last may lack its newline, and an empty line is no entry.
pub fn journals_are_read()
    ensures none { entries_of [] ≡ [] }
    ensures some { entries_of (codes "turn 0\nok") ≡ Answered (Turn 0 []) ∷ Answered Done ∷ [] }
    ensures bad { entries_of (codes "turn 0\nturm 0\n") ≡ Answered (Turn 0 []) ∷ Refused 2 1 ∷ [] }
    ensures empty { entries_of (codes "ok\n\nok\n")
        ≡ Answered Done ∷ Refused 2 1 ∷ Answered Done ∷ [] }
{}
