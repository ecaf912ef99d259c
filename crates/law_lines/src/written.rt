//! Laws of the lines that a text means. Each function has no body: its clauses are the law.
ghost use Rattle.std.specs.Prelude.{◌≡◌, ℕ, List, Some, Ok};
ghost use Rattle.model_text.specs.FirstPass.{line_behind};
ghost use Rattle.model_text.specs.Forms.{Spelled, form_of};
ghost use Rattle.model_text.specs.Naming.{Scope};
ghost use Rattle.model_text.specs.Places.{Role};
ghost use Rattle.model_text.specs.SecondPass.{Line, line_meant};
ghost use Rattle.model_text.specs.Tokens.{Token, tokens_of};
ghost use Rattle.model_text.specs.Words.{lexemes_of};
ghost use Rattle.law_lines.specs.LineTexts.{spelled};
ghost use Rattle.law_lines.specs.WellWritten.{WellWritten};

/// What the line of a text means is a line that a text can spell, and spells the same form.
pub fn meant_lines_are_well_written()
    ensures taken { (scope : Scope) (before : List Role) (text : List ℕ) (form : Spelled)
        (line : Line) →
        line_behind before text ≡ Ok (Some form) → line_meant scope form ≡ Ok line
        → (spelled line ≡ form) × WellWritten line }
    ensures written { (scope : Scope) (text : List ℕ) (tokens : List Token) (form : Spelled)
        (line : Line) →
        tokens_of text ≡ Ok tokens → form_of (lexemes_of tokens) ≡ Some form → line_meant scope form
        ≡ Ok line → WellWritten line }
    ensures same { (scope : Scope) (text : List ℕ) (tokens : List Token) (form : Spelled)
        (line : Line) →
        tokens_of text ≡ Ok tokens → form_of (lexemes_of tokens) ≡ Some form → line_meant scope form
        ≡ Ok line → spelled line ≡ form }
{}
