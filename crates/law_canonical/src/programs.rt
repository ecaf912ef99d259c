//! Laws of the canonical texts of programs. Each function has no body: its clause is the law.
ghost use Rattle.std.specs.Prelude.{◌≡◌, ◌≤◌, List, ℕ, length, flat_map, Ok};
ghost use Rattle.model_tree.specs.Syntax.{Program};
ghost use Rattle.model_text.specs.Canonical.{canonical};
ghost use Rattle.model_text.specs.Scripts.{most_bytes, script_of};
ghost use Rattle.law_canonical.specs.ProgramLines.{indented_text, program_lines};

/// The canonical text of a program is the text of its lines, one after the other.
pub fn canonical_texts_are_lines()
    ensures { (program : Program) → canonical program
        ≡ flat_map indented_text (program_lines program) }
{}

/// The canonical text of a program that some text spells, spells it, unless it is over the greatest
/// length of a text. So no two of these programs have one canonical text.
pub fn canonical_texts_spell_their_programs()
    ensures spells { (text : List ℕ) (program : Program) →
        script_of text ≡ Ok program → length (canonical program) ≤ most_bytes
        → script_of (canonical program) ≡ Ok program }
    ensures one { (text : List ℕ) (other : List ℕ) (first : Program) (second : Program) →
        script_of text ≡ Ok first → script_of other ≡ Ok second → canonical first
        ≡ canonical second →
        length (canonical first) ≤ most_bytes → first ≡ second }
{}
