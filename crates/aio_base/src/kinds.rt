//! The tree of kinds, and the kinds' names.
ghost use Rattle.std.specs.Prelude.{◌≡◌, [], ◌∷◌};
ghost use Rattle.std.specs.Option.{option_map_or};
ghost use Rattle.model_value.specs.Kinds.{lineage, kind_name, matches};
ghost use Rattle.model_value.specs.Value.{kind_of};

use crate::exc::Exc;
use model_value::Kind;

/// Whether `except kind` takes this exception: `kind` is the exception's kind or one of its ancestors.
pub fn kind_matches(kind: Kind, exc: &Exc) -> bool
    ensures { result ≡ matches kind (kind_of exc.now) }
{
    is_or_descends_from(exc.kind(), kind)
}

fn is_or_descends_from(of: Kind, kind: Kind) -> bool
    ensures { result ≡ matches kind of }
{
    if of == kind {
        return true;
    }
    match parent_of(of) {
        Some(parent) => is_or_descends_from(parent, kind),
        None => false,
    }
}

fn parent_of(kind: Kind) -> Option<Kind>
    ensures { lineage kind ≡ kind ∷ option_map_or lineage result [] }
{
    match kind {
        Kind::BaseException => None,
        Kind::CancelledError | Kind::Exception => Some(Kind::BaseException),
        Kind::ArithmeticError
        | Kind::LookupError
        | Kind::OSError
        | Kind::RuntimeError
        | Kind::TypeError
        | Kind::ValueError
        | Kind::NameError
        | Kind::EOFError
        | Kind::LimitOverrunError
        | Kind::InvalidStateError
        | Kind::ExceptionGroup => Some(Kind::Exception),
        Kind::OverflowError | Kind::ZeroDivisionError => Some(Kind::ArithmeticError),
        Kind::IndexError => Some(Kind::LookupError),
        Kind::RecursionError => Some(Kind::RuntimeError),
        Kind::IncompleteReadError => Some(Kind::EOFError),
        Kind::TimeoutError | Kind::ConnectionError => Some(Kind::OSError),
        Kind::ConnectionResetError | Kind::ConnectionRefusedError | Kind::BrokenPipeError => {
            Some(Kind::ConnectionError)
        }
    }
}

/// The kind as scripts write it.
pub fn name_of(kind: Kind) -> &'static str
    ensures { result.now ≡ kind_name kind }
{
    match kind {
        Kind::BaseException => "BaseException",
        Kind::CancelledError => "CancelledError",
        Kind::Exception => "Exception",
        Kind::ArithmeticError => "ArithmeticError",
        Kind::LookupError => "LookupError",
        Kind::OSError => "OSError",
        Kind::RuntimeError => "RuntimeError",
        Kind::TypeError => "TypeError",
        Kind::ValueError => "ValueError",
        Kind::NameError => "NameError",
        Kind::EOFError => "EOFError",
        Kind::LimitOverrunError => "LimitOverrunError",
        Kind::InvalidStateError => "InvalidStateError",
        Kind::ExceptionGroup => "ExceptionGroup",
        Kind::OverflowError => "OverflowError",
        Kind::ZeroDivisionError => "ZeroDivisionError",
        Kind::IndexError => "IndexError",
        Kind::RecursionError => "RecursionError",
        Kind::IncompleteReadError => "IncompleteReadError",
        Kind::TimeoutError => "TimeoutError",
        Kind::ConnectionError => "ConnectionError",
        Kind::ConnectionResetError => "ConnectionResetError",
        Kind::ConnectionRefusedError => "ConnectionRefusedError",
        Kind::BrokenPipeError => "BrokenPipeError",
    }
}
