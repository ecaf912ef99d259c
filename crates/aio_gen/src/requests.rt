//! Requests whose arguments are all values.
ghost use Rattle.std.specs.Prelude.{◌≡◌, [], ◌∷◌, IfOk};
ghost use Rattle.model_says.specs.Requests.{requested};
ghost use Rattle.aio_gen.specs.Plain.{request_or};

use aio_base::{Exc, Kind, Memory, Request, Value, exception};
use aio_syntax::RequestName;
use std::alloc::Global;

/// The request of this name with these arguments. Any other number of arguments than it takes is a
/// bad argument.
pub fn requested(
    alloc: Global,
    name: RequestName,
    arguments: &[Value],
) -> Result<Result<Request, Exc>, Memory>
    ensures { IfOk result (λ given. given ≡ requested name arguments.now) }
{
    match with_arguments(name, arguments)? {
        Some(request) => Ok(Ok(request)),
        None => Ok(Err(exception(alloc, Kind::TypeError, "bad argument")?)),
    }
}

#[tactic(auto, using(crate::proofs::RequestLemmas::many))]
fn with_arguments(name: RequestName, arguments: &[Value]) -> Result<Option<Request>, Memory>
    ensures { IfOk result (λ request. request_or request ≡ requested name arguments.now) }
{
    match arguments {
        [] => Ok(with_none(name)),
        [first] => Ok(with_one(name, first.clone()?)),
        [first, second] => Ok(with_two(name, first.clone()?, second.clone()?)),
        [first, second, third] => {
            Ok(with_three(name, first.clone()?, second.clone()?, third.clone()?))
        }
        _ => Ok(None),
    }
}

fn with_none(name: RequestName) -> Option<Request>
    ensures { request_or result ≡ requested name [] }
{
    match name {
        RequestName::MakeFuture => Some(Request::MakeFuture),
        RequestName::Current => Some(Request::Current),
        RequestName::Time => Some(Request::Time),
        _ => None,
    }
}

fn with_one(name: RequestName, argument: Value) -> Option<Request>
    ensures { request_or result ≡ requested name (argument ∷ []) }
{
    match name {
        RequestName::IsDone => Some(Request::IsDone(argument)),
        RequestName::IsCancelled => Some(Request::IsCancelled(argument)),
        RequestName::ResultOf => Some(Request::ResultOf(argument)),
        RequestName::Cancel => Some(Request::Cancel(argument)),
        RequestName::Cancelling => Some(Request::Cancelling(argument)),
        RequestName::Uncancel => Some(Request::Uncancel(argument)),
        RequestName::Sleep => Some(Request::Sleep(argument)),
        RequestName::Expired => Some(Request::Expired(argument)),
        RequestName::Connect => Some(Request::Connect(argument)),
        RequestName::WriteEof => Some(Request::WriteEof(argument)),
        RequestName::Close => Some(Request::Close(argument)),
        RequestName::WaitClosed => Some(Request::WaitClosed(argument)),
        RequestName::Drain => Some(Request::Drain(argument)),
        RequestName::ReadLine => Some(Request::ReadLine(argument)),
        RequestName::Launch => Some(Request::Launch(argument)),
        RequestName::StandardError => Some(Request::StandardError(argument)),
        RequestName::WaitChild => Some(Request::WaitChild(argument)),
        RequestName::ReturnCode => Some(Request::ReturnCode(argument)),
        RequestName::Kill => Some(Request::Kill(argument)),
        RequestName::MakeFuture
        | RequestName::Set
        | RequestName::Fail
        | RequestName::Current
        | RequestName::Time
        | RequestName::Reschedule
        | RequestName::Write
        | RequestName::Limits
        | RequestName::Read
        | RequestName::ReadExactly
        | RequestName::ReadUntil
        | RequestName::Extra => None,
    }
}

fn with_two(name: RequestName, first: Value, second: Value) -> Option<Request>
    ensures { request_or result ≡ requested name (first ∷ second ∷ []) }
{
    match name {
        RequestName::Set => Some(Request::Set {
            future: first,
            value: second,
        }),
        RequestName::Fail => Some(Request::Fail {
            future: first,
            fault: second,
        }),
        RequestName::Reschedule => Some(Request::Reschedule {
            timeout: first,
            when: second,
        }),
        RequestName::Write => Some(Request::Write {
            stream: first,
            bytes: second,
        }),
        RequestName::Read => Some(Request::Read {
            stream: first,
            count: second,
        }),
        RequestName::ReadExactly => Some(Request::ReadExactly {
            stream: first,
            count: second,
        }),
        RequestName::ReadUntil => Some(Request::ReadUntil {
            stream: first,
            separator: second,
        }),
        RequestName::Extra => Some(Request::Extra {
            code: first,
            arguments: second,
        }),
        _ => None,
    }
}

fn with_three(name: RequestName, first: Value, second: Value, third: Value) -> Option<Request>
    ensures { request_or result ≡ requested name (first ∷ second ∷ third ∷ []) }
{
    match name {
        RequestName::Limits => Some(Request::Limits {
            stream: first,
            high: second,
            low: third,
        }),
        _ => None,
    }
}
