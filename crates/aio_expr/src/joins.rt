//! Texts, bytes and lists that are joined and repeated. Each is weighed before it is built.
ghost use Rattle.std.specs.Prelude.{◌≡◌, ◌+◌, ◌*◌, ◌++◌, nat_le, IfOk, IfErr, true, false};
ghost use Rattle.model_value.specs.Value.{Text, Bytes};
ghost use Rattle.model_says.specs.Operations.{bounded, repeated, times};
ghost use Rattle.aio_expr.specs.declared.operation_fault.OperationFault.TheVariants.{OutOfRange};
ghost use Rattle.aio_expr.specs.Gives.{Gives};

use crate::bounds::HEAVIEST;
use crate::operation_fault::OperationFault;
use aio_base::Value;
use std::alloc::Global;
use std::rc::{RcSlice, RcStr};

/// Two Texts joined; OverflowError where that weighs too much.
pub fn joined_texts(alloc: Global, front: &str, back: &str) -> Result<Value, OperationFault>
    ensures { Gives (bounded (Text (front.now ++ back.now))) result }
{
    if !is_light(front.len(), back.len()) {
        return Err(OperationFault::OutOfRange);
    }
    let mut text = String::from_str(alloc, front)?;
    text.push_str(back)?;
    Ok(Value::text(RcStr::from_string(text)?))
}

/// Two Bytes joined; OverflowError where that weighs too much.
pub fn joined_bytes(alloc: Global, front: &[u8], back: &[u8]) -> Result<Value, OperationFault>
    ensures { Gives (bounded (Bytes (front.now ++ back.now))) result }
{
    if !is_light(front.len(), back.len()) {
        return Err(OperationFault::OutOfRange);
    }
    let mut bytes = Vec::new(alloc);
    bytes.extend_from_slice(front)?;
    bytes.extend_from_slice(back)?;
    Ok(Value::bytes(RcSlice::from_vec(bytes)?))
}

/// Whether so many bytes in two parts are light enough.
fn is_light(front: usize, back: usize) -> bool
    ensures { result ≡ nat_le (1 + (front + back)) HEAVIEST }
{
    (front as u64).saturating_add(back as u64) < HEAVIEST
}

/// A text so many times, a negative count as 0.
pub fn repeated_text(alloc: Global, text: &str, count: i64) -> Result<Value, OperationFault>
    ensures { Gives (repeated Text text.now count) result }
{
    let count = times(text.len(), count)?;
    Ok(Value::text(RcStr::from_string(text.repeat(alloc, count)?)?))
}

/// Bytes so many times, a negative count as 0.
pub fn repeated_bytes(alloc: Global, bytes: &[u8], count: i64) -> Result<Value, OperationFault>
    ensures { Gives (repeated Bytes bytes.now count) result }
{
    let count = times(bytes.len(), count)?;
    Ok(Value::bytes(RcSlice::from_vec(bytes.repeat(alloc, count)?)?))
}

/// How often so many bytes are repeated, unless that is too heavy.
fn times(len: usize, count: i64) -> Result<usize, OperationFault>
    ensures light { IfOk result (λ n. (n ≡ times count) × (nat_le (1 + n * len) HEAVIEST ≡ true)) }
    ensures heavy { IfErr result
        (λ cause. (cause ≡ OutOfRange) × (nat_le (1 + times count * len) HEAVIEST ≡ false)) }
{
    let count = count.max(0) as usize;
    if count.saturating_mul(len) < HEAVIEST as usize {
        Ok(count)
    } else {
        Err(OperationFault::OutOfRange)
    }
}
