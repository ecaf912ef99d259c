//! Laws of texts and the scripts that they spell. Each function has no body: its clause is the law.
ghost use Rattle.std.specs.Prelude.{◌≡◌, ℕ, ◌<◌, List, [], ◌∷◌, ◌++◌, length};
ghost use Rattle.model_tree.specs.Syntax.{Statements};
ghost use Rattle.model_text.specs.declared.cause.Cause.TheVariants.{TooLong};
ghost use Rattle.model_text.specs.Bodies.{statements_in, body_in};
ghost use Rattle.model_text.specs.Forms.{End};
ghost use Rattle.model_text.specs.FirstPass.{fault_at};
ghost use Rattle.model_text.specs.Scripts.{most_bytes, script_of};
ghost use Rattle.model_text.specs.SecondPass.{Line};
ghost use Rattle.model_text.specs.Spells.{Spells};

/// Lines that spell statements by cases are read as these statements, so they spell no others; so
/// are the lines of a coroutine, with its `end`.
pub fn lines_spell_their_statements()
    ensures read { (lines : List Line) (statements : Statements) → Spells lines statements
        → statements_in lines ≡ statements }
    ensures body { (lines : List Line) (statements : Statements) →
        Spells lines statements → body_in (lines ++ End ∷ []) ≡ statements }
{}

/// A text over the greatest length is refused at its first line, whatever it holds.
pub fn too_long_texts_are_refused()
    ensures { (text : List ℕ) → most_bytes < length text → script_of text ≡ fault_at 1 TooLong }
{}
