//! The values of expressions. Each function has no body: its clause is the equation of a table's
//! two columns.
ghost use Rattle.std.specs.Prelude.{◌≡◌, map};
ghost use Rattle.row_says.specs.ExpressionRows.{found, expected, arithmetic, joining, comparisons, truths, items, functions};

/// Numbers, at their limits too: quotients are rounded down.
pub fn arithmetic_operators()
    ensures { map found arithmetic ≡ map expected arithmetic }
{}

/// Texts, bytes and lists that are joined and repeated, at the greatest weight too.
pub fn joined_and_repeated()
    ensures { map found joining ≡ map expected joining }
{}

/// Equality by kind and content, and the orders of numbers, texts and bytes.
pub fn compared()
    ensures { map found comparisons ≡ map expected comparisons }
{}

/// `and`, `or` and `not`, errors that they hide, and the first of two errors.
pub fn decided()
    ensures { map found truths ≡ map expected truths }
{}

/// Items by their index, from the front and from the end.
pub fn indexed()
    ensures { map found items ≡ map expected items }
{}

/// The functions, and lists at the greatest depth.
pub fn applied()
    ensures { map found functions ≡ map expected functions }
{}
