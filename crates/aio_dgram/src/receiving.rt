//! Datagrams are received.
ghost use Rattle.std.specs.Prelude.{◌≡◌, ◌<◌, ℕ, None, Some, true, IfOk, OnOk};
ghost use Rattle.model_value.specs.Value.{Exc};
ghost use Rattle.model_reach.specs.Part.{key_at, no_key};
ghost use Rattle.model_dgram.specs.Endpoints as plain;
ghost use Rattle.model_dgram.specs.Endpoints.{dgram_part, endpoint_at, on_endpoint, waiting_at};
ghost use Rattle.model_dgram.specs.Receiving as receiving;
ghost use Rattle.model_dgram.specs.Texts as texts;
ghost use Rattle.law_dgram.specs.Tidy.{IsTidy};
ghost use Rattle.aio_sync.specs.Woken.{are_free};
ghost use Rattle.aio_task.specs.View.{parts as parts_of};
ghost use Rattle.aio_dgram.specs.Seen.{kept_of, own_of};
ghost use Rattle.aio_dgram.specs.Woken.{CallsSeen, SaysSeen};

use crate::datagram::came_in;
use crate::dgram::{Dgram, Reached};
use crate::said::closed;
use crate::waiting::Waiting;
use aio_base::{Input, Kind, Memory, Value};
use aio_extra::Asked;
use aio_task::Parts;
use std::alloc::Global;

fn forget(_value: Value) {}

impl Dgram {
    // The task waits for the next datagram.
    fn wait_for(&mut self, alloc: Global, id: u64, parts: &mut Parts) -> Result<Asked, Memory>
        requires idle { parts.old.called ≡ None }
        requires room { key_at dgram_part self.old.drawn < no_key }
        requires tidy { IsTidy (kept_of self.old) }
        ensures { IfOk result (λ asked. (endpoint : plain.Endpoint)
            → endpoint_at id (kept_of self.old) ≡ Some endpoint
            → SaysSeen (kept_of self.new) parts.old parts.new asked
            (receiving.waits_for id endpoint (parts_of parts.old) (kept_of self.old))) }
    {
        let place = self.drawn;
        if self.is_waited_for(id) {
            return self.raise(alloc, Kind::RuntimeError, "receive is already waited for");
        }
        let on = parts.new_plain(alloc)?;
        self.set_receiver(id, Some(place));
        let key = self.wait(Waiting::receives(id, on))?;
        Ok(Asked::Wait { on, key })
    }

    // From an endpoint that is open.
    fn receive_from(&mut self, alloc: Global, id: u64, parts: &mut Parts) -> Result<Asked, Memory>
        requires idle { parts.old.called ≡ None }
        requires room { key_at dgram_part self.old.drawn < no_key }
        requires tidy { IsTidy (kept_of self.old) }
        ensures { IfOk result (λ asked. (endpoint : plain.Endpoint)
            → endpoint_at id (kept_of self.old) ≡ Some endpoint
            → SaysSeen (kept_of self.new) parts.old parts.new asked
            (receiving.receive id endpoint (parts_of parts.old) (kept_of self.old))) }
    {
        match self.take(id) {
            Some(it) => {
                let value = it.told(alloc)?;
                Ok(self.answer(value))
            }
            None => self.wait_for(alloc, id, parts),
        }
    }

    /// The first datagram that an endpoint holds, or the task waits for one.
    pub fn receive(
        &mut self,
        alloc: Global,
        number: i64,
        parts: &mut Parts,
    ) -> Result<Asked, Memory>
        requires idle { parts.old.called ≡ None }
        requires room { key_at dgram_part self.old.drawn < no_key }
        requires tidy { IsTidy (kept_of self.old) }
        ensures { IfOk result (λ asked. SaysSeen (kept_of self.new) parts.old parts.new asked
            (on_endpoint receiving.receive number (parts_of parts.old) (kept_of self.old))) }
    {
        match self.reach(alloc, number, parts)? {
            Reached::Raised(asked) => Ok(asked),
            Reached::Open(id) => self.receive_from(alloc, id, parts),
        }
    }

    // One that waited receives, or waits again.
    fn received(
        &mut self,
        alloc: Global,
        key: u64,
        place: u64,
        id: u64,
        parts: &mut Parts,
    ) -> Result<Asked, Memory>
        requires idle { parts.old.called ≡ None }
        ensures { IfOk result (λ asked. (on : ℕ) (endpoint : plain.Endpoint)
            → waiting_at place (kept_of self.old) ≡ Some (plain.Receives id on)
            → endpoint_at id (kept_of self.old) ≡ Some endpoint
            → SaysSeen (kept_of self.new) parts.old parts.new asked
            (receiving.received key place id endpoint (parts_of parts.old) (kept_of self.old))) }
    {
        match self.take(id) {
            Some(it) => {
                self.set_receiver(id, None);
                self.end(place);
                Ok(Asked::Answer(it.told(alloc)?))
            }
            None => {
                let on = parts.new_plain(alloc)?;
                self.wait_on(place, on);
                Ok(Asked::Wait { on, key })
            }
        }
    }

    // One receives no more.
    fn give_up(&mut self, place: u64, id: u64)
        ensures { (exception : Exc) → kept_of self.new
            ≡ (receiving.gives_up place id exception (kept_of self.old)).call.state }
    {
        self.set_receiver(id, None);
        self.end(place);
    }

    /// One that waited for a datagram goes on.
    pub fn receives_again(
        &mut self,
        alloc: Global,
        key: u64,
        place: u64,
        id: u64,
        input: Input,
        parts: &mut Parts,
    ) -> Result<Asked, Memory>
        requires idle { parts.old.called ≡ None }
        ensures { IfOk result (λ asked. (on : ℕ)
            → waiting_at place (kept_of self.old) ≡ Some (plain.Receives id on)
            → SaysSeen (kept_of self.new) parts.old parts.new asked
            (receiving.receives_again key place id input (parts_of parts.old)
            (kept_of self.old))) }
    {
        match input {
            Input::Send(value) => {
                forget(value);
                if self.is_open(id) {
                    return self.received(alloc, key, place, id, parts);
                }
                self.give_up(place, id);
                closed(alloc)
            }
            Input::Throw(fault) => {
                self.give_up(place, id);
                Ok(Asked::Raise(fault))
            }
        }
    }

    /// A datagram came: it is held, or dropped where as many are as may be, and who receives is
    /// woken. What names no endpoint that is open is passed over.
    pub fn came(&mut self, alloc: Global, bytes: &[u8], parts: &mut Parts) -> Result<(), Memory>
        requires idle { parts.old.called ≡ None }
        requires free { are_free parts.old.futures (own_of self.old) ≡ true }
        ensures { OnOk result (CallsSeen (kept_of self.new) parts.old parts.new
            (receiving.came (texts.came_in bytes.now) (kept_of self.old))) }
    {
        let Some(came) = came_in(bytes) else {
            return Ok(());
        };
        let Some(endpoint) = self.endpoints.get_mut(&came.endpoint) else {
            return Ok(());
        };
        endpoint.hold_if_room(alloc, came)?;
        endpoint.wake_receiver(&self.waiting, parts);
        Ok(())
    }
}
