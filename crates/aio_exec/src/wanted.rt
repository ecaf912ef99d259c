//! What a request asks for.
ghost use Rattle.std.specs.Prelude.{◌≡◌, ◌≤◌, ℤ, pos, true, IfOk, None, Some, MatchOption};
ghost use Rattle.model_machine.specs.Arguments.{as_bytes as plain_as_bytes, as_int as plain_as_int};
ghost use Rattle.model_exec.specs.Jobs.{is_job, job_text};
ghost use Rattle.model_exec.specs.Serving.{is_job_code, wanted_of};
ghost use Rattle.aio_exec.specs.Wants.{wanted_as};

use aio_base::{Blob, Memory, Value, ValueCase};
use std::alloc::Global;

/// The code of the request, of what the outside is asked, and of what it tells.
pub const JOB: i64 = 300;

/// So many bytes a job is given at most.
const MOST: usize = 131_000;

/// A kind, and the bytes that such a job is given.
#[derive(Clone, Copy)]
pub struct Wanted<'a> {
    pub kind: i64,
    pub input: &'a [u8],
}

fn as_int(value: &Value) -> Option<i64>
    ensures { result ≡ plain_as_int value.now }
{
    match value.case() {
        ValueCase::Int(number) => Some(number),
        _ => None,
    }
}

fn as_bytes(value: &Value) -> Option<&[u8]>
    ensures { MatchOption result (plain_as_bytes value.now ≡ None)
        (λ bytes. plain_as_bytes value.now ≡ Some bytes.now) }
{
    match value.case() {
        ValueCase::Bytes(bytes) => Some(bytes.as_slice()),
        _ => None,
    }
}

/// Whether this is the code of jobs.
pub fn is_job_code(code: i64) -> bool
    ensures { result ≡ is_job_code code }
{
    code == JOB
}

/// The kind and the bytes that a list asks for, where it has that shape.
pub fn shaped(items: &[Value]) -> Option<Wanted<'_>>
    ensures { MatchOption result (wanted_of items.now ≡ None)
        (λ it. wanted_of items.now ≡ Some (wanted_as it)) }
{
    match items {
        [kind, input] => match (as_int(kind), as_bytes(input)) {
            (Some(kind), Some(input)) => Some(Wanted { kind, input }),
            _ => None,
        },
        _ => None,
    }
}

/// Whether there is such a job.
pub fn is_job(it: &Wanted<'_>) -> bool
    ensures { result ≡ is_job it.now.kind it.now.input.now }
{
    it.kind >= 1 && it.kind <= 3 && it.input.len() <= MOST
}

/// How the outside is asked: the kind's digit, a space and the bytes.
pub fn job_text(alloc: Global, it: &Wanted<'_>) -> Result<Blob, Memory>
    requires { is_job it.now.kind it.now.input.now ≡ true }
    ensures { IfOk result (λ text. text ≡ job_text it.now.kind it.now.input.now) }
{
    let mut text = Vec::with_capacity(alloc, it.input.len() + 2)?;
    text.push(b'0' + it.kind as u8)?;
    text.push(b' ')?;
    text.extend_from_slice(it.input)?;
    Ok(Blob::of(text))
}
