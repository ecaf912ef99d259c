//! A gather serves requests.
ghost use Rattle.std.specs.Prelude.{◌≡◌, ℕ, None, IfOk};
ghost use Rattle.model_machine.specs.Extra.{unknown_code};
ghost use Rattle.model_says.specs.Requests.{bad_argument as plain_bad_argument};
ghost use Rattle.model_gather.specs.Serving as plain;
ghost use Rattle.aio_task.specs.View.{parts as parts_of};
ghost use Rattle.aio_gather.specs.Kept.{kept_of};
ghost use Rattle.aio_gather.specs.Requested.{request_as};
ghost use Rattle.aio_gather.specs.Seen.{SaysSeen, served_in, tag_of, timed};

use crate::gather::{Gather, place_of};
use crate::requesting::{Request, forget_arguments, items_in, requested, wanted_of};
use aio_base::{Input, Kind, Memory, Value, exception};
use aio_extra::{Asked, Extra};
use aio_task::{FutureId, Parts};
use std::alloc::Global;

fn unknown(alloc: Global, code: i64) -> Result<Asked, Memory>
    ensures { IfOk result (λ asked. asked ≡ Asked.Raise (unknown_code code)) }
{
    let text = format!(in alloc; "extra {code}")?;
    let fault = exception(alloc, Kind::NameError, text.as_str());
    drop(text);
    Ok(Asked::Raise(fault?))
}

fn bad_argument(alloc: Global) -> Result<Asked, Memory>
    ensures { IfOk result (λ asked. asked ≡ Asked.Raise plain_bad_argument) }
{
    Ok(Asked::Raise(exception(alloc, Kind::TypeError, "bad argument")?))
}

impl Gather {
    // A request of this task.
    fn serve(
        &mut self,
        alloc: Global,
        task: u32,
        request: Request,
        parts: &mut Parts,
    ) -> Result<Asked, Memory>
        requires idle { parts.old.called ≡ None }
        ensures { IfOk result (λ asked. (tags : ℕ → ℕ) (next : ℕ)
            → tags parts.old.schedule.next ≡ tag_of (request_as request) (timed next parts.old)
            → SaysSeen tags self.old self.new parts.old parts.new asked
            (served_in (request_as request) task next parts.old (kept_of tags self.old))) }
    {
        match request {
            Request::OfGather { as_items, awaited } => self.gather(alloc, as_items, awaited, parts),
            Request::OfWait {
                mode,
                delay,
                arguments,
            } => {
                let asked = self.wait(alloc, mode, delay, arguments.as_slice(), parts);
                forget_arguments(arguments);
                asked
            }
            Request::OfShield { inner } => self.shield(alloc, inner, parts),
            Request::OfWaitFor { on, delay } => self.wait_for(alloc, task, on, delay, parts),
        }
    }
}

impl Extra for Gather {
    ghost use Rattle.aio_gather.specs.Added.{gather_added};

    ghost added = { gather_added };

    fn ask(
        &mut self,
        alloc: Global,
        task: u32,
        code: i64,
        arguments: &Value,
        futures: &[FutureId],
        parts: &mut Parts,
    ) -> Result<Asked, Memory> {
        let Some(wanted) = wanted_of(code) else {
            return unknown(alloc, code);
        };
        let Some(items) = items_in(arguments) else {
            return bad_argument(alloc);
        };
        match requested(alloc, wanted, items, futures, parts)? {
            Some(request) => self.serve(alloc, task, request, parts),
            None => bad_argument(alloc),
        }
    }

    fn wake(
        &mut self,
        alloc: Global,
        key: u64,
        input: Input,
        parts: &mut Parts,
    ) -> Result<Asked, Memory> {
        let place = place_of(key);
        self.wake_at(alloc, place, input, parts)
    }

    fn act(&mut self, alloc: Global, key: u64, parts: &mut Parts) -> Result<(), Memory> {
        let place = place_of(key);
        self.act_at(alloc, place, parts)
    }

    fn item(
        &mut self,
        _alloc: Global,
        _code: i64,
        _bytes: &[u8],
        _parts: &mut Parts,
    ) -> Result<(), Memory> {
        Ok(())
    }

    fn watches(&self) -> bool {
        false
    }
}
