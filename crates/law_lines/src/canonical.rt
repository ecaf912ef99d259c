//! Laws of canonical texts. Each function has no body: its clause is the law.
ghost use Rattle.std.specs.Prelude.{◌≡◌, Some, Ok};
ghost use Rattle.model_tree.specs.Syntax.{Expr};
ghost use Rattle.model_text.specs.Levels.{term_of};
ghost use Rattle.model_text.specs.Naming.{Scope, meaning_of};
ghost use Rattle.law_lines.specs.Known.{Known};
ghost use Rattle.law_lines.specs.Lexemes.{expr_lexemes, term_from};

/// The tokens of an expression's canonical text spell the expression.
pub fn canonical_expressions_are_read()
    ensures { (expr : Expr) → term_of (expr_lexemes expr) ≡ Some (term_from expr) }
{}

/// Where its names are known, what was read means the expression again.
pub fn read_expressions_mean_themselves()
    ensures { (scope : Scope) (expr : Expr) → Known scope expr → meaning_of scope (term_from expr)
        ≡ Ok expr }
{}
