//! When `==` finds two values equal.
ghost use Rattle.std.specs.Prelude.{◌≡◌, ◌&&◌, bytes_eq};
ghost use Rattle.model_value.specs.Kinds.{same_kind};
ghost use Rattle.model_value.specs.Value.{values, excs, kind_of, text_of, bytes_of};
ghost use Rattle.model_value.specs.Equality.{equal, same_items, same_exc, same_members};

use crate::exc::Exc;
use crate::value::{Value, ValueCase};

/// Whether the two are of one kind of value and have equal content.
#[cycle(equality)]
pub fn equal(a: &Value, b: &Value) -> bool
    ensures { result ≡ equal a.now b.now }
{
    match (a.case(), b.case()) {
        (ValueCase::Nothing, ValueCase::Nothing) => true,
        (ValueCase::Bool(x), ValueCase::Bool(y)) => x == y,
        (ValueCase::Int(x), ValueCase::Int(y)) => x == y,
        (ValueCase::Text(x), ValueCase::Text(y)) => x.as_str() == y.as_str(),
        (ValueCase::Bytes(x), ValueCase::Bytes(y)) => x.as_slice() == y.as_slice(),
        (ValueCase::List(x), ValueCase::List(y)) => all_equal(
            x.as_ref().items(),
            y.as_ref().items(),
        ),
        (ValueCase::Fut(x), ValueCase::Fut(y)) => x == y,
        (ValueCase::Task(x), ValueCase::Task(y)) => x == y,
        (ValueCase::Group(x), ValueCase::Group(y)) => x == y,
        (ValueCase::Timeout(x), ValueCase::Timeout(y)) => x == y,
        (ValueCase::Conn(x), ValueCase::Conn(y)) => x == y,
        (ValueCase::Server(x), ValueCase::Server(y)) => x == y,
        (ValueCase::Child(x), ValueCase::Child(y)) => x == y,
        (ValueCase::Errs(x), ValueCase::Errs(y)) => x == y,
        (ValueCase::Exc(x), ValueCase::Exc(y)) => equal_excs(x, y),
        _ => false,
    }
}

#[cycle(equality)]
fn all_equal(a: &[Value], b: &[Value]) -> bool
    ensures { result ≡ same_items (values a.now) (values b.now) }
{
    if a.len() != b.len() {
        return false;
    }
    for i in 0..a.len() {
        if !equal(&a[i], &b[i]) {
            return false;
        }
    }
    true
}

/// Whether the two exceptions have one kind, text, bytes and members.
#[cycle(exc_equality)]
pub fn equal_excs(a: &Exc, b: &Exc) -> bool
    ensures { result ≡ same_exc a.now b.now }
{
    same_content(a, b) && all_excs_equal(a.members(), b.members())
}

// Whether the two have one kind, text and bytes.
fn same_content(a: &Exc, b: &Exc) -> bool
    ensures { result ≡ (same_kind (kind_of a.now) (kind_of b.now)
        && bytes_eq (text_of a.now) (text_of b.now)
        && bytes_eq (bytes_of a.now) (bytes_of b.now)) }
{
    a.kind() == b.kind() && a.text() == b.text() && a.bytes() == b.bytes()
}

#[cycle(exc_equality)]
fn all_excs_equal(a: &[Exc], b: &[Exc]) -> bool
    ensures { result ≡ same_members (excs a.now) (excs b.now) }
{
    if a.len() != b.len() {
        return false;
    }
    for i in 0..a.len() {
        if !equal_excs(&a[i], &b[i]) {
            return false;
        }
    }
    true
}
