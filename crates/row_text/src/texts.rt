//! Texts. Each function has no body: its clause is the equation of a table's two columns.
ghost use Rattle.std.specs.Prelude.{◌≡◌, map};
ghost use Rattle.row_text.specs.Rows.{found, expected, written, wanted, first_read, read_again};
ghost use Rattle.row_text.specs.Refused.{stored, tokens, forms, expressions, places, nesting, names, counts, meanings, faults};
ghost use Rattle.row_text.specs.Spelled.{lines, whole};

/// The texts of stored runs.
pub fn stored_texts()
    ensures { map found stored ≡ map expected stored }
{}

/// Lines whose bytes are no tokens, and what ends lines.
pub fn lines_without_tokens()
    ensures { map found tokens ≡ map expected tokens }
{}

/// Lines that are no form.
pub fn lines_of_no_form()
    ensures { map found forms ≡ map expected forms }
{}

/// Lines whose expression is none.
pub fn no_expressions()
    ensures { map found expressions ≡ map expected expressions }
{}

/// Forms that may not stand at their place, and bare names.
pub fn misplaced_lines()
    ensures { map found places ≡ map expected places }
{}

/// Blocks that do not fit, or are too deep, and expressions that are too high.
pub fn nested_blocks()
    ensures { map found nesting ≡ map expected nesting }
{}

/// Names that mean nothing.
pub fn unknown_names()
    ensures { map found names ≡ map expected names }
{}

/// Wrong numbers of arguments.
pub fn wrong_counts()
    ensures { map found counts ≡ map expected counts }
{}

/// Names and numbers of arguments that are right.
pub fn right_names_and_counts()
    ensures { map found meanings ≡ map expected meanings }
{}

/// Faults of whole texts, and which of two counts.
pub fn first_faults()
    ensures { map found faults ≡ map expected faults }
{}

/// The canonical text of a line: what groups what.
pub fn canonical_lines()
    ensures { map written lines ≡ map wanted lines }
{}

/// The canonical text of a line spells the same program.
pub fn lines_read_again()
    ensures { map first_read lines ≡ map read_again lines }
{}

/// The canonical text of every form.
pub fn canonical_texts()
    ensures { map written whole ≡ map wanted whole }
{}

/// The canonical text of every form spells the same program.
pub fn texts_read_again()
    ensures { map first_read whole ≡ map read_again whole }
{}
