//! Variables by their numbers. The function has no body: its clause is the law.
ghost use Rattle.std.specs.Prelude.{◌≡◌, ℕ, List};
ghost use Rattle.model_value.specs.Value.{Value};
ghost use Rattle.model_tree.specs.Syntax.{Program};
ghost use Rattle.model_says.specs.Says.{says};
ghost use Rattle.model_says.specs.Tape.{Tape};
ghost use Rattle.algorithm_locals.specs.Numbered.{numbered_program};

/// A program whose variables go by their numbers says what it says by their names.
pub fn numbers_say_what_names_say()
    ensures { (program : Program) (place : ℕ) (arguments : List Value) (tape : Tape) →
        says (numbered_program program) place arguments tape ≡ says program place arguments tape }
{}
