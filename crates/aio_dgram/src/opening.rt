//! Endpoints are opened and closed.
ghost use Rattle.std.specs.Prelude.{◌≡◌, ◌<◌, ℕ, None, Some, pos, true, IfOk, OnOk};
ghost use Rattle.std.specs.List.{AllByRecursion as Each};
ghost use Rattle.model_value.specs.Value.{Int};
ghost use Rattle.std.specs.Fmt.{decimal as plain_decimal};
ghost use Rattle.model_reach.specs.Part.{key_at, no_key};
ghost use Rattle.model_dgram.specs.Endpoints as plain;
ghost use Rattle.model_dgram.specs.Endpoints.{dgram_part, endpoint_at, next_key, on_endpoint, wait_last};
ghost use Rattle.model_dgram.specs.Opening as opening;
ghost use Rattle.law_dgram.specs.Tidy.{IsTidy};
ghost use Rattle.aio_sync.specs.Woken.{are_free};
ghost use Rattle.aio_task.specs.View.{parts as parts_of};
ghost use Rattle.aio_dgram.specs.Seen.{kept_of, own_of};
ghost use Rattle.aio_dgram.specs.Told.{is_decimal, one_more};
ghost use Rattle.aio_dgram.specs.Woken.{SaysSeen};

use crate::datagram::port_of;
use crate::dgram::{Dgram, Reached};
use crate::endpoint::Endpoint;
use crate::said::other_answer;
use crate::waiting::Waiting;
use aio_base::{Blob, Input, Kind, Memory, Value, ValueCase};
use aio_extra::Asked;
use aio_task::Parts;
use std::alloc::Global;

// So many endpoints can be numbered.
const MOST: u64 = 0x7FFF_FFFF_FFFF_FFFF;

fn forget(_value: Value) {}

fn forget_bytes(_bytes: Blob) {}

fn forget_input(_input: Input) {}

fn forget_endpoint(_it: Option<Endpoint>) {}

fn decimal(alloc: Global, number: u64) -> Result<Blob, Memory>
    ensures { IfOk result (λ text. text ≡ plain_decimal number) }
{
    let text = format!(in alloc; "{number}")?;
    Ok(Blob::of(text.into_bytes()))
}

// Whether the outside answered with this number, as it is written.
fn is_number(alloc: Global, value: &Value, number: u64) -> Result<bool, Memory>
    ensures { IfOk result (λ is. is ≡ is_decimal number value.now) }
{
    match value.case() {
        ValueCase::Bytes(bytes) => {
            let text = decimal(alloc, number)?;
            let same = bytes.as_slice() == text.items();
            forget_bytes(text);
            Ok(same)
        }
        _ => Ok(false),
    }
}

impl Dgram {
    // The outside is asked, and its answer wakes this.
    fn ask(&mut self, code: i64, bytes: Blob, it: Waiting) -> Result<Asked, Memory>
        requires room { key_at dgram_part self.old.drawn < no_key }
        requires places { Each (λ (entry : ℕ × plain.Waiting). entry.0 < self.old.drawn)
            self.old.waiting.entries }
        ensures answer { IfOk result (λ asked.
            asked ≡ Asked.Outside code bytes (next_key (kept_of self.old))) }
        ensures after { OnOk result (kept_of self.new ≡ wait_last it (kept_of self.old)) }
    {
        match self.wait(it) {
            Ok(key) => Ok(Asked::Outside { code, bytes, key }),
            Err(refused) => {
                forget_bytes(bytes);
                Err(refused)
            }
        }
    }

    /// The outside is asked for an endpoint.
    pub fn open_on(&mut self, alloc: Global, port: i64, parts: &Parts) -> Result<Asked, Memory>
        requires room { key_at dgram_part self.old.drawn < no_key }
        requires tidy { IsTidy (kept_of self.old) }
        ensures { IfOk result (λ asked. SaysSeen (kept_of self.new) parts.now parts.now asked
            (opening.open_on port (kept_of self.old))) }
    {
        let Some(port) = port_of(port) else {
            return self.raise(alloc, Kind::ValueError, "port");
        };
        let bytes = decimal(alloc, u64::from(port))?;
        self.ask(400, bytes, Waiting::opens())
    }

    // An endpoint more is open.
    fn open(&mut self, alloc: Global) -> Result<Asked, Memory>
        requires numbers { Each (λ (entry : ℕ × plain.Endpoint). entry.0 < self.old.opened)
            self.old.endpoints.entries }
        ensures answer { IfOk result (λ asked. asked ≡ Asked.Answer (Int (pos self.old.opened))) }
        ensures after { OnOk result (kept_of self.new ≡ one_more (kept_of self.old)) }
    {
        let number = self.opened;
        if number >= MOST {
            return Err(Memory);
        }
        self.opened += 1;
        forget_endpoint(self.endpoints.insert(number, Endpoint::new(alloc))?);
        Ok(Asked::Answer(Value::int(number as i64)))
    }

    /// The outside answered.
    pub fn opened(
        &mut self,
        alloc: Global,
        place: u64,
        input: Input,
        parts: &Parts,
    ) -> Result<Asked, Memory>
        requires tidy { IsTidy (kept_of self.old) }
        ensures { IfOk result (λ asked. SaysSeen (kept_of self.new) parts.now parts.now asked
            (opening.opened place input (kept_of self.old))) }
    {
        match input {
            Input::Send(value) => {
                let is_next = is_number(alloc, &value, self.opened);
                forget(value);
                let is_next = is_next?;
                self.end(place);
                if is_next {
                    return self.open(alloc);
                }
                other_answer(alloc)
            }
            Input::Throw(fault) => {
                self.end(place);
                Ok(Asked::Raise(fault))
            }
        }
    }

    // One that is open.
    fn close_it(&mut self, alloc: Global, id: u64, parts: &mut Parts) -> Result<Asked, Memory>
        requires idle { parts.old.called ≡ None }
        requires free { are_free parts.old.futures (own_of self.old) ≡ true }
        requires room { key_at dgram_part self.old.drawn < no_key }
        requires tidy { IsTidy (kept_of self.old) }
        ensures { IfOk result (λ asked. (endpoint : plain.Endpoint)
            → endpoint_at id (kept_of self.old) ≡ Some endpoint
            → SaysSeen (kept_of self.new) parts.old parts.new asked
            (opening.close id endpoint (parts_of parts.old) (kept_of self.old))) }
    {
        let Some(endpoint) = self.endpoints.remove(&id) else {
            return Ok(Asked::Answer(Value::nothing()));
        };
        endpoint.wake_all(&self.waiting, parts);
        forget_endpoint(Some(endpoint));
        let bytes = decimal(alloc, id)?;
        self.ask(403, bytes, Waiting::closes())
    }

    /// The endpoint is closed, what it holds is dropped, and all who wait are woken. The outside is
    /// asked to close it.
    pub fn close(&mut self, alloc: Global, number: i64, parts: &mut Parts) -> Result<Asked, Memory>
        requires idle { parts.old.called ≡ None }
        requires free { are_free parts.old.futures (own_of self.old) ≡ true }
        requires room { key_at dgram_part self.old.drawn < no_key }
        requires tidy { IsTidy (kept_of self.old) }
        ensures { IfOk result (λ asked. SaysSeen (kept_of self.new) parts.old parts.new asked
            (on_endpoint opening.close number (parts_of parts.old) (kept_of self.old))) }
    {
        match self.reach(alloc, number, parts)? {
            Reached::Raised(asked) => Ok(asked),
            Reached::Open(id) => self.close_it(alloc, id, parts),
        }
    }

    /// Whatever the outside answered. It takes no memory.
    pub fn closed(&mut self, place: u64, input: Input, parts: &Parts) -> Asked
        ensures { SaysSeen (kept_of self.new) parts.now parts.now result
            (opening.closed place input (kept_of self.old)) }
    {
        forget_input(input);
        self.end(place);
        Asked::Answer(Value::nothing())
    }
}
