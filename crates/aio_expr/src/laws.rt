//! Laws of expressions. Each function has no body: its clauses are the law.
ghost use Rattle.std.specs.Prelude.{◌≡◌, ℕ, ℤ, pos, ◌+ℤ◌, ◌*ℤ◌, ◌<ℤ◌, ◌≤ℤ◌, List, Ok, IsUtf8};
ghost use Rattle.model_value.specs.Value.{Value, Int, Text, Bytes};
ghost use Rattle.model_tree.specs.declared.function.Function.TheVariants as function;
ghost use Rattle.model_says.specs.Operations.{quotient, remainder, applied};
ghost use Rattle.aio_expr.specs.Ordered.{IsOrdered};

/// `(a // b) * b + a % b` is a, where both are defined. What is left has the divisor's sign, or is
/// 0, and is nearer to 0 than the divisor: so the quotient is rounded down.
pub fn quotients_are_rounded_down()
    ensures whole { (a b q r : ℤ) → quotient (Int a) (Int b) ≡ Ok (Int q)
        → remainder (Int a) (Int b) ≡ Ok (Int r) → (q *ℤ b) +ℤ r ≡ a }
    ensures above { (a b r : ℤ) → pos 0 <ℤ b → remainder (Int a) (Int b) ≡ Ok (Int r)
        → (pos 0 ≤ℤ r) × (r <ℤ b) }
    ensures below { (a b r : ℤ) → b <ℤ pos 0 → remainder (Int a) (Int b) ≡ Ok (Int r)
        → (b <ℤ r) × (r ≤ℤ pos 0) }
{}

/// Comparisons order numbers, texts and bytes.
pub fn comparisons_are_orders()
    ensures numbers { IsOrdered Int }
    ensures texts { IsOrdered Text }
    ensures bytes { IsOrdered Bytes }
{}

/// `text(bytes(t))` is t.
pub fn texts_come_back_from_their_bytes()
    ensures { (t : List ℕ) (b : Value) → IsUtf8 t → applied function.Bytes (Text t) ≡ Ok b
        → applied function.Text b ≡ Ok (Text t) }
{}
