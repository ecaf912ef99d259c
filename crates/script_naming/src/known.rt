//! The names that the language has for itself.
ghost use Rattle.std.specs.Prelude.{◌≡◌, [], ◌∷◌};
ghost use Rattle.std.specs.List.{list_any};
ghost use Rattle.std.specs.Str.{bytes_eq};
ghost use Rattle.model_tree.specs.Known.{request_arity, kind_of_name};
ghost use Rattle.model_tree.specs.Known.{is_made_by_error, is_taken, error_text, spawn_text, create_text, listen_text};

use aio_base::name_of;
use aio_syntax::{function_of, request_of};
use model_tree::RequestName;
use model_value::Kind;

/// How many arguments a request has.
pub fn request_arity(request: RequestName) -> usize
    ensures { result ≡ request_arity request }
{
    match request {
        RequestName::MakeFuture | RequestName::Current | RequestName::Time => 0,
        RequestName::Set
        | RequestName::Fail
        | RequestName::Reschedule
        | RequestName::Write
        | RequestName::Read
        | RequestName::ReadExactly
        | RequestName::ReadUntil
        | RequestName::Extra => 2,
        RequestName::Limits => 3,
        _ => 1,
    }
}

const KINDS: [Kind; 24] = [
    Kind::BaseException,
    Kind::CancelledError,
    Kind::Exception,
    Kind::ArithmeticError,
    Kind::LookupError,
    Kind::OSError,
    Kind::RuntimeError,
    Kind::TypeError,
    Kind::ValueError,
    Kind::NameError,
    Kind::EOFError,
    Kind::LimitOverrunError,
    Kind::InvalidStateError,
    Kind::ExceptionGroup,
    Kind::OverflowError,
    Kind::ZeroDivisionError,
    Kind::IndexError,
    Kind::RecursionError,
    Kind::IncompleteReadError,
    Kind::TimeoutError,
    Kind::ConnectionError,
    Kind::ConnectionResetError,
    Kind::ConnectionRefusedError,
    Kind::BrokenPipeError,
];

/// The kind of this name.
pub fn kind_of_name(name: &str) -> Option<Kind>
    ensures { result ≡ kind_of_name name.now }
{
    KINDS.iter().copied().find(|kind| name_of(*kind) == name)
}

/// Whether `error` makes exceptions of this kind.
pub fn is_made_by_error(kind: Kind) -> bool
    ensures { result ≡ is_made_by_error kind }
{
    !matches!(kind, Kind::BaseException | Kind::ExceptionGroup)
}

/// Whether the name is that of a call that takes a kind or a coroutine.
fn takes_a_name(name: &str) -> bool
    ensures { result ≡ list_any (λ other. bytes_eq other name.now)
        (error_text ∷ spawn_text ∷ create_text ∷ listen_text ∷ []) }
{
    "error" == name || "spawn" == name || "create" == name || "listen" == name
}

/// Whether the language has the name for itself: no coroutine and no variable can have it.
pub fn is_taken(name: &str) -> bool
    ensures { result ≡ is_taken name.now }
{
    function_of(name).is_some()
        || request_of(name).is_some()
        || kind_of_name(name).is_some()
        || takes_a_name(name)
}
