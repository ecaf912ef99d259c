//! What holds of the definitions for every value. Each function has no body: its
//! clauses are the law.
ghost use Rattle.std.specs.Prelude.{◌≡◌, ◌++◌, ◌∷◌, ℕ, List, Some, true, false};
ghost use Rattle.model_value.specs.declared.place.Place.TheVariants.{InText, InBytes};
ghost use Rattle.model_value.specs.Value.{Value, Exc};
ghost use Rattle.model_value.specs.Equality.{equal};
ghost use Rattle.model_value.specs.Escapes.{escaped};
ghost use Rattle.model_value.specs.Shown.{shown, shown_exc};
ghost use Rattle.law_value.specs.Endings.{behind_quote, has_newline};

/// Read from behind its opening quote, a printed literal ends at its own closing quote, whatever it
/// holds and whatever follows it.
pub fn literals_end_where_they_close()
    ensures texts { (bytes rest : List ℕ)
        → behind_quote false (escaped InText bytes ++ 34 ∷ rest) ≡ Some rest }
    ensures bytes { (bytes rest : List ℕ)
        → behind_quote false (escaped InBytes bytes ++ 34 ∷ rest) ≡ Some rest }
{}

/// A printed value stands on one line.
pub fn values_print_no_newline()
    ensures values { (value : Value) → has_newline (shown value) ≡ false }
    ensures exceptions { (fault : Exc) → has_newline (shown_exc fault) ≡ false }
{}

/// Two values are equal exactly where they are the same value.
pub fn values_are_equal_where_they_are_the_same()
    ensures same { (v w : Value) → equal v w ≡ true → v ≡ w }
    ensures reflexive { (v : Value) → equal v v ≡ true }
{}
