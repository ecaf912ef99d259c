//! Datagram endpoints serve requests.
ghost use Rattle.std.specs.Prelude.{◌≡◌, ◌<◌, List, None, Some, true, IfOk, OnOk, is_some};
ghost use Rattle.model_value.specs.Value.{Value as AnyValue};
ghost use Rattle.model_machine.specs.Arguments.{as_list};
ghost use Rattle.model_reach.specs.Part.{drawing, key_at, no_key};
ghost use Rattle.model_dgram.specs.Endpoints.{dgram_part, waiting_at};
ghost use Rattle.model_dgram.specs.Serving.{asked_for, served, told, wanted_of, woken};
ghost use Rattle.law_dgram.specs.Tidy.{IsTidy};
ghost use Rattle.aio_sync.specs.Woken.{are_free};
ghost use Rattle.aio_task.specs.View.{parts as parts_of};
ghost use Rattle.aio_dgram.specs.Seen.{kept_of, own_of};
ghost use Rattle.aio_dgram.specs.Wants.{wanted_as};
ghost use Rattle.aio_dgram.specs.Woken.{CallsSeen, SaysSeen};

use crate::dgram::Dgram;
use crate::said::{bad_argument, out_of_range, passed, place_of, unknown};
use crate::waiting::Found;
use crate::wanted::{Wanted, shape_of, shaped};
use aio_base::{Input, Memory, Value, ValueCase};
use aio_extra::{Asked, Extra};
use aio_task::{FutureId, Parts};
use std::alloc::Global;

fn items_in(list: &Value) -> &[Value]
    requires { is_some (as_list list.now) ≡ true }
    ensures { as_list list.now ≡ Some result.now }
{
    match list.case() {
        ValueCase::List(items) => items.items(),
        _ => &[],
    }
}

fn forget(_wanted: Wanted) {}

impl Dgram {
    fn serve(&mut self, alloc: Global, wanted: Wanted, parts: &mut Parts) -> Result<Asked, Memory>
        requires idle { parts.old.called ≡ None }
        requires free { are_free parts.old.futures (own_of self.old) ≡ true }
        requires room { key_at dgram_part self.old.drawn < no_key }
        requires tidy { IsTidy (kept_of self.old) }
        ensures { IfOk result (λ asked. SaysSeen (kept_of self.new) parts.old parts.new asked
            (served (wanted_as wanted) (parts_of parts.old) (kept_of self.old))) }
    {
        match wanted {
            Wanted::Open(port) => self.open_on(alloc, port, parts),
            Wanted::SendTo(endpoint, port, bytes) => {
                self.send(alloc, endpoint, port, bytes, parts)
            }
            Wanted::Receive(endpoint) => self.receive(alloc, endpoint, parts),
            Wanted::Close(endpoint) => self.close(alloc, endpoint, parts),
        }
    }

    // It is served where a key can be drawn.
    fn serve_if_room(
        &mut self,
        alloc: Global,
        wanted: Wanted,
        parts: &mut Parts,
    ) -> Result<Asked, Memory>
        requires idle { parts.old.called ≡ None }
        requires free { are_free parts.old.futures (own_of self.old) ≡ true }
        requires tidy { IsTidy (kept_of self.old) }
        ensures { IfOk result (λ asked. SaysSeen (kept_of self.new) parts.old parts.new asked
            (drawing dgram_part self.old.drawn 1 (served (wanted_as wanted)
            (parts_of parts.old) (kept_of self.old)) (kept_of self.old))) }
    {
        if self.can_draw() {
            return self.serve(alloc, wanted, parts);
        }
        forget(wanted);
        out_of_range(alloc)
    }

    // What a code and its list ask for.
    fn ask_for(
        &mut self,
        alloc: Global,
        code: i64,
        items: &[Value],
        parts: &mut Parts,
    ) -> Result<Asked, Memory>
        requires idle { parts.old.called ≡ None }
        requires free { are_free parts.old.futures (own_of self.old) ≡ true }
        requires tidy { IsTidy (kept_of self.old) }
        ensures { IfOk result (λ asked. SaysSeen (kept_of self.new) parts.old parts.new asked
            (asked_for code (wanted_of code items.now) (parts_of parts.old)
            (kept_of self.old))) }
    {
        let Some(shape) = shape_of(code) else {
            return unknown(alloc, code);
        };
        match shaped(shape, items)? {
            Some(wanted) => self.serve_if_room(alloc, wanted, parts),
            None => bad_argument(alloc),
        }
    }

    // The task of the request under the key at this place goes on.
    fn woken(
        &mut self,
        alloc: Global,
        key: u64,
        place: u64,
        input: Input,
        parts: &mut Parts,
    ) -> Result<Asked, Memory>
        requires idle { parts.old.called ≡ None }
        requires free { are_free parts.old.futures (own_of self.old) ≡ true }
        requires tidy { IsTidy (kept_of self.old) }
        ensures { IfOk result (λ asked. SaysSeen (kept_of self.new) parts.old parts.new asked
            (woken (waiting_at place (kept_of self.old)) key place input (parts_of parts.old)
            (kept_of self.old))) }
    {
        match self.find(place) {
            Found::Nothing => Ok(passed(input)),
            Found::Opens => self.opened(alloc, place, input, parts),
            Found::Offers { endpoint } => self.offered(alloc, key, place, endpoint, input, parts),
            Found::Sends { endpoint } => {
                self.sends_again(alloc, key, place, endpoint, input, parts)
            }
            Found::Receives { endpoint } => {
                self.receives_again(alloc, key, place, endpoint, input, parts)
            }
            Found::Closes => Ok(self.closed(place, input, parts)),
        }
    }

    // News of the outside.
    fn told(
        &mut self,
        alloc: Global,
        code: i64,
        bytes: &[u8],
        parts: &mut Parts,
    ) -> Result<(), Memory>
        requires idle { parts.old.called ≡ None }
        requires free { are_free parts.old.futures (own_of self.old) ≡ true }
        ensures { OnOk result (CallsSeen (kept_of self.new) parts.old parts.new
            (told code bytes.now (kept_of self.old))) }
    {
        if code == 401 {
            self.has_room(bytes, parts);
            return Ok(());
        }
        if code == 402 {
            return self.came(alloc, bytes, parts);
        }
        Ok(())
    }
}

impl Extra for Dgram {
    ghost use Rattle.aio_dgram.specs.Added.{dgram_added};

    ghost added = { dgram_added };

    fn ask(
        &mut self,
        alloc: Global,
        _task: u32,
        code: i64,
        arguments: &Value,
        _futures: &[FutureId],
        parts: &mut Parts,
    ) -> Result<Asked, Memory> {
        self.ask_for(alloc, code, items_in(arguments), parts)
    }

    fn wake(
        &mut self,
        alloc: Global,
        key: u64,
        input: Input,
        parts: &mut Parts,
    ) -> Result<Asked, Memory> {
        self.woken(alloc, key, place_of(key), input, parts)
    }

    fn act(&mut self, _alloc: Global, _key: u64, _parts: &mut Parts) -> Result<(), Memory> {
        Ok(())
    }

    fn item(
        &mut self,
        alloc: Global,
        code: i64,
        bytes: &[u8],
        parts: &mut Parts,
    ) -> Result<(), Memory> {
        self.told(alloc, code, bytes, parts)
    }

    fn watches(&self) -> bool {
        self.endpoints.len() > 0
    }
}
