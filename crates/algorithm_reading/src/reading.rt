//! What is read from left to right is what the levels of operators give, with what
//! is too high left out.
ghost use Rattle.std.specs.Prelude.{◌≡◌, ℕ, List, Option, Some, None, map, nat_le, option_map, if◌then◌else◌};
ghost use Rattle.model_text.specs.Words.{Lexeme};
ghost use Rattle.model_text.specs.Terms.{Term, height};
ghost use Rattle.model_text.specs.Levels.{all_of, arguments_of, term_of};
ghost use Rattle.model_text.specs.Places.{heights, most_height};
ghost use Rattle.algorithm_reading.specs.Operands.{capped, that_fits};
ghost use Rattle.algorithm_reading.specs.Feeding.{read};
ghost use Rattle.algorithm_reading.specs.Rows.{capped_arguments, read_arguments, read_items};

/// What is read of lexemes from left to right is the expression that they spell, or
/// that it is too high.
pub fn expressions_are_read_from_left_to_right()
    ensures { (lexemes : List Lexeme) → read lexemes ≡ option_map capped (term_of lexemes) }
{}

/// The same of expressions between commas.
pub fn items_are_read_between_commas()
    ensures { (slots : List (List Lexeme)) → read_items slots
        ≡ option_map (map capped) (all_of term_of slots) }
{}

/// The same of arguments, of which one may be a bare name.
pub fn arguments_are_read_between_commas()
    ensures { (place : Option ℕ) (slots : List (List Lexeme)) → read_arguments place slots
        ≡ option_map capped_arguments (arguments_of term_of place slots) }
{}

/// An expression is kept exactly where it is not too high, and expressions where none of them is.
pub fn operands_fit_where_they_are_not_too_high()
    ensures one { (term : Term) → that_fits (capped term)
        ≡ (if nat_le (height term) most_height then Some term else None) }
    ensures all { (all : List Term) → all_of that_fits (map capped all)
        ≡ (if nat_le (heights all) most_height then Some all else None) }
{}
