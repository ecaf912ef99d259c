//! Laws of the canonical texts of lines. Each function has no body: its clause is the law.
ghost use Rattle.std.specs.Prelude.{◌≡◌, ℕ, ◌==◌, true, false, List, ◌++◌, replicate, Some, Ok, codes};
ghost use Rattle.std.specs.List.{AllByRecursion, repeat};
ghost use Rattle.model_tree.specs.Syntax.{Expr};
ghost use Rattle.model_text.specs.Canonical.{expr_text};
ghost use Rattle.model_text.specs.FirstPass.{form_behind_lines, line_behind};
ghost use Rattle.model_text.specs.Forms.{form_of};
ghost use Rattle.model_text.specs.Letters.{is_allowed};
ghost use Rattle.model_text.specs.Places.{Role};
ghost use Rattle.model_text.specs.SecondPass.{Line};
ghost use Rattle.model_text.specs.Tokens.{Token, tokens_of};
ghost use Rattle.model_text.specs.Words.{lexemes_of};
ghost use Rattle.law_lines.specs.Lexemes.{expr_lexemes};
ghost use Rattle.law_lines.specs.LineTexts.{line_text, line_lexemes, spelled};
ghost use Rattle.law_lines.specs.WellWritten.{WellWritten, WellWrittenExpr};

/// The canonical text of what a text can spell has its tokens, behind any spaces.
pub fn canonical_texts_have_their_tokens()
    ensures expression { (spaces : ℕ) (expr : Expr) → WellWrittenExpr expr →
        (tokens : List Token) × (tokens_of (replicate spaces 32 ++ expr_text expr) ≡ Ok tokens)
        × (lexemes_of tokens ≡ expr_lexemes expr) }
    ensures line { (spaces : ℕ) (line : Line) → WellWritten line →
        (tokens : List Token) × (tokens_of (replicate spaces 32 ++ line_text line) ≡ Ok tokens)
        × (lexemes_of tokens ≡ line_lexemes line) }
{}

/// The tokens of a line's canonical text spell the line, and behind other lines it
/// stands as the line does.
pub fn canonical_lines_are_read()
    ensures form { (line : Line) → WellWritten line → form_of (line_lexemes line)
        ≡ Some (spelled line) }
    ensures inside { (before : List Role) (blocks : ℕ) (line : Line) → WellWritten line →
        line_behind before (repeat blocks (codes "  ") ++ line_text line)
        ≡ form_behind_lines before (Some (spelled line)) }
    ensures behind { (before : List Role) (spaces : ℕ) (line : Line) → WellWritten line →
        line_behind before (replicate spaces 32 ++ line_text line)
        ≡ form_behind_lines before (Some (spelled line)) }
{}

/// Each byte of a line that has tokens is allowed; so no canonical line has a
/// newline or a carriage return inside.
pub fn lines_with_tokens_are_printable()
    ensures allowed { (text : List ℕ) (tokens : List Token) → tokens_of text ≡ Ok tokens →
        AllByRecursion (λ byte. is_allowed byte ≡ true) text }
    ensures canonical { (line : Line) → WellWritten line →
        AllByRecursion (λ byte. (byte == 10 ≡ false) × (byte == 13 ≡ false)) (line_text line) }
{}
