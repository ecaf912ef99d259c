//! The orders of numbers, texts and bytes.
ghost use Rattle.std.specs.Prelude.{◌≡◌};
ghost use Rattle.model_says.specs.Operations.{order};

use aio_base::{Value, ValueCase};
use std::cmp::Ordering;

/// How two numbers, two texts or two byte values compare; nothing for any other two values.
pub fn order(left: &Value, right: &Value) -> Option<Ordering>
    ensures { result ≡ order left.now right.now }
{
    match (left.case(), right.case()) {
        (ValueCase::Int(a), ValueCase::Int(b)) => Some(a.cmp(&b)),
        (ValueCase::Text(a), ValueCase::Text(b)) => Some(a.cmp(b)),
        (ValueCase::Bytes(a), ValueCase::Bytes(b)) => Some(a.cmp(b)),
        _ => None,
    }
}
