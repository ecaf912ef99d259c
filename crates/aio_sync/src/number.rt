//! Numbers of locks, events and queues, and what is raised.
ghost use Rattle.std.specs.Prelude.{◌≡◌, pos, IfOk};
ghost use Rattle.model_machine.specs.Extra.{unknown_code};
ghost use Rattle.model_says.specs.Operations.{out_of_range as plain_out_of_range};
ghost use Rattle.model_says.specs.Requests.{bad_argument as plain_bad_argument};
ghost use Rattle.model_reach.specs.Part.{place_of as plain_place_of};
ghost use Rattle.model_sync.specs.Synced.{sync_part};
ghost use Rattle.aio_sync.specs.Numbers.{nat_in};

use aio_base::{Kind, Memory, exception};
use aio_extra::Asked;
use std::alloc::Global;

/// The place that a number names, unless it is negative.
pub fn place_in(number: i64) -> Option<usize>
    ensures { result ≡ nat_in number }
{
    if number < 0 {
        return None;
    }
    Some(number as usize)
}

/// The place of a key among those that were drawn.
pub fn place_of(key: u64) -> u64
    ensures { result ≡ plain_place_of sync_part key }
{
    key.saturating_sub(1) / 4
}

pub fn unknown(alloc: Global, code: i64) -> Result<Asked, Memory>
    ensures { IfOk result (λ asked. asked ≡ Asked.Raise (unknown_code code)) }
{
    let text = format!(in alloc; "extra {code}")?;
    let fault = exception(alloc, Kind::NameError, text.as_str());
    drop(text);
    Ok(Asked::Raise(fault?))
}

pub fn bad_argument(alloc: Global) -> Result<Asked, Memory>
    ensures { IfOk result (λ asked. asked ≡ Asked.Raise plain_bad_argument) }
{
    Ok(Asked::Raise(exception(alloc, Kind::TypeError, "bad argument")?))
}

pub fn out_of_range(alloc: Global) -> Result<Asked, Memory>
    ensures { IfOk result (λ asked. asked ≡ Asked.Raise plain_out_of_range) }
{
    Ok(Asked::Raise(exception(alloc, Kind::OverflowError, "out of range")?))
}
