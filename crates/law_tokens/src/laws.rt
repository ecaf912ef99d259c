//! Laws about the tokens of a line. Each function does nothing: its clauses are the law.

ghost use Rattle.std.specs.Prelude.{◌≡◌, ℕ, List, Ok, Err};
ghost use Rattle.std.specs.List.{AllByRecursion};
ghost use Rattle.model_text.specs.Faults.{TokenFault};
ghost use Rattle.model_text.specs.Pieces.{Piece, pieces_of};
ghost use Rattle.model_text.specs.Tokens.{Token, tokens_of};
ghost use Rattle.model_text.specs.Cuts.{Cuts};
ghost use Rattle.model_text.specs.Lines.{Reads, GivesBack, IsTokenValue};
ghost use Rattle.model_text.specs.FirstFaults.{FirstFault};

/// A line has exactly one cut into pieces of which each is as long as it can be.
pub fn a_line_has_one_cut()
    ensures cut { (line : List ℕ) → Cuts line (pieces_of line) }
    ensures one { (line : List ℕ) (pieces : List Piece)
        → Cuts line pieces → pieces ≡ pieces_of line }
{}

/// A line is accepted with these tokens exactly where it is spaces and these
/// tokens, and perhaps a comment.
pub fn accepted_lines_are_tokens()
    ensures read { (line : List ℕ) (tokens : List Token)
        → tokens_of line ≡ Ok tokens → Reads 1 line tokens }
    ensures accepted { (line : List ℕ) (tokens : List Token)
        → Reads 1 line tokens → tokens_of line ≡ Ok tokens }
{}

/// A line is refused with a fault exactly where what stands before the fault's
/// piece is spaces and tokens.
pub fn refusals_are_first_faults()
    ensures first { (line : List ℕ) (fault : TokenFault)
        → tokens_of line ≡ Err fault → FirstFault line fault }
    ensures refused { (line : List ℕ) (fault : TokenFault)
        → FirstFault line fault → tokens_of line ≡ Err fault }
{}

/// The tokens of an accepted line and their spans give the line back, with spaces
/// or a comment between them.
pub fn spans_give_the_line_back()
    ensures { (line : List ℕ) (tokens : List Token)
        → tokens_of line ≡ Ok tokens → GivesBack line 1 tokens }
{}

/// A name is a name, a number is below 2 ^ 63, and what a literal says is ASCII in
/// a text and a byte in bytes.
pub fn values_are_in_range()
    ensures { (line : List ℕ) (tokens : List Token)
        → tokens_of line ≡ Ok tokens → AllByRecursion (λ token. IsTokenValue token.class) tokens }
{}
