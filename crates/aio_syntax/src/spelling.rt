//! How functions and requests are spelled in a script. The reader and the printer both take it from here.
ghost use Rattle.std.specs.Prelude.{◌≡◌};
ghost use Rattle.model_tree.specs.Known.{function_text, function_of, request_text, request_of};

use model_tree::{Function, RequestName};

const FUNCTIONS: [Function; 8] = [
    Function::Len,
    Function::Str,
    Function::Bytes,
    Function::Text,
    Function::Kind,
    Function::Message,
    Function::Partial,
    Function::Members,
];

/// The name by which a script calls a function.
pub fn name_of_function(function: Function) -> &'static str
    ensures { result.now ≡ function_text function }
{
    match function {
        Function::Len => "len",
        Function::Str => "str",
        Function::Bytes => "bytes",
        Function::Text => "text",
        Function::Kind => "kind",
        Function::Message => "message",
        Function::Partial => "partial",
        Function::Members => "members",
    }
}

/// The function of this name.
pub fn function_of(name: &str) -> Option<Function>
    ensures { result ≡ function_of name.now }
{
    FUNCTIONS
        .iter()
        .copied()
        .find(|function| name_of_function(*function) == name)
}

const REQUESTS: [RequestName; 31] = [
    RequestName::MakeFuture,
    RequestName::Set,
    RequestName::Fail,
    RequestName::IsDone,
    RequestName::IsCancelled,
    RequestName::ResultOf,
    RequestName::Cancel,
    RequestName::Cancelling,
    RequestName::Uncancel,
    RequestName::Current,
    RequestName::Time,
    RequestName::Sleep,
    RequestName::Reschedule,
    RequestName::Expired,
    RequestName::Connect,
    RequestName::Write,
    RequestName::WriteEof,
    RequestName::Close,
    RequestName::WaitClosed,
    RequestName::Drain,
    RequestName::Limits,
    RequestName::Read,
    RequestName::ReadExactly,
    RequestName::ReadUntil,
    RequestName::ReadLine,
    RequestName::Launch,
    RequestName::StandardError,
    RequestName::WaitChild,
    RequestName::ReturnCode,
    RequestName::Kill,
    RequestName::Extra,
];

/// The name by which a script asks a request.
pub fn name_of_request(request: RequestName) -> &'static str
    ensures { result.now ≡ request_text request }
{
    match request {
        RequestName::MakeFuture => "future",
        RequestName::Set => "set",
        RequestName::Fail => "fail",
        RequestName::IsDone => "done",
        RequestName::IsCancelled => "cancelled",
        RequestName::ResultOf => "result",
        RequestName::Cancel => "cancel",
        RequestName::Cancelling => "cancelling",
        RequestName::Uncancel => "uncancel",
        RequestName::Current => "current",
        RequestName::Time => "time",
        RequestName::Sleep => "sleep",
        RequestName::Reschedule => "reschedule",
        RequestName::Expired => "expired",
        RequestName::Connect => "connect",
        RequestName::Write => "write",
        RequestName::WriteEof => "write_eof",
        RequestName::Close => "close",
        RequestName::WaitClosed => "wait_closed",
        RequestName::Drain => "drain",
        RequestName::Limits => "limits",
        RequestName::Read => "read",
        RequestName::ReadExactly => "readexactly",
        RequestName::ReadUntil => "readuntil",
        RequestName::ReadLine => "readline",
        RequestName::Launch => "launch",
        RequestName::StandardError => "stderr",
        RequestName::WaitChild => "wait",
        RequestName::ReturnCode => "returncode",
        RequestName::Kill => "kill",
        RequestName::Extra => "extra",
    }
}

/// The request of this name whose arguments are all values.
pub fn request_of(name: &str) -> Option<RequestName>
    ensures { result ≡ request_of name.now }
{
    REQUESTS
        .iter()
        .copied()
        .find(|request| name_of_request(*request) == name)
}
