//! Datagrams are sent.
ghost use Rattle.std.specs.Prelude.{◌≡◌, ◌<◌, ℕ, None, Some, pos, true, IfOk, OnOk, length};
ghost use Rattle.std.specs.List.{AllByRecursion as Each};
ghost use Rattle.std.specs.Rc.{rc_slice_items};
ghost use Rattle.model_value.specs.declared.input.Input.TheVariants.{Send};
ghost use Rattle.model_value.specs.Number.{number_of};
ghost use Rattle.model_reach.specs.Part.{key_at, no_key};
ghost use Rattle.model_dgram.specs.Endpoints as plain;
ghost use Rattle.model_dgram.specs.Endpoints.{dgram_part, endpoint_at, next_key, on_endpoint, wait_again, wait_last, waiting_at};
ghost use Rattle.model_dgram.specs.Sending as sending;
ghost use Rattle.model_dgram.specs.Texts as texts;
ghost use Rattle.model_dgram.specs.Texts.{offer_text};
ghost use Rattle.model_loop.specs.Parts as loops;
ghost use Rattle.law_dgram.specs.Tidy.{IsTidy};
ghost use Rattle.aio_sync.specs.Woken.{are_free};
ghost use Rattle.aio_task.specs.View.{parts as parts_of};
ghost use Rattle.refine_added.specs.Seen.{made};
ghost use Rattle.aio_dgram.specs.Keeps.{offering};
ghost use Rattle.aio_dgram.specs.Seen.{kept_of, own_of};
ghost use Rattle.aio_dgram.specs.Woken.{CallsSeen, SaysSeen};

use crate::datagram::{Datagram, is_too_long, port_of};
use crate::dgram::{Dgram, Reached};
use crate::said::{closed, send_failed};
use crate::waiting::Waiting;
use aio_base::{Blob, Input, Kind, Memory, Value, ValueCase};
use aio_extra::Asked;
use aio_task::Parts;
use aio_text::number;
use std::alloc::Global;
use std::rc::RcSlice;

const SENT: &[u8] = b"sent";

const AGAIN: &[u8] = b"again";

fn forget(_value: Value) {}

fn forget_bytes(_bytes: Blob) {}

fn forget_shared(_bytes: RcSlice<u8>) {}

fn forget_datagram(_it: Datagram) {}

// Whether the outside answered with these bytes.
fn is_answer(value: &Value, wanted: &[u8]) -> bool
    ensures { result ≡ sending.is_answer value.now wanted.now }
{
    match value.case() {
        ValueCase::Bytes(bytes) => bytes.as_slice() == wanted,
        _ => false,
    }
}

impl Dgram {
    // The outside is asked to send it.
    fn ask_to_send(&mut self, alloc: Global, id: u64, it: Datagram) -> Result<Asked, Memory>
        requires room { key_at dgram_part self.old.drawn < no_key }
        requires places { Each (λ (entry : ℕ × plain.Waiting). entry.0 < self.old.drawn)
            self.old.waiting.entries }
        ensures answer { IfOk result (λ asked.
            asked ≡ Asked.Outside (pos 401) (offer_text id it) (next_key (kept_of self.old))) }
        ensures after { OnOk result (kept_of self.new
            ≡ wait_last (plain.Offers id it) (kept_of self.old)) }
    {
        let bytes = match it.offer_text(alloc, id) {
            Ok(bytes) => bytes,
            Err(refused) => {
                forget_datagram(it);
                return Err(refused);
            }
        };
        match self.wait(Waiting::offers(id, it)) {
            Ok(key) => Ok(Asked::Outside {
                code: 401,
                bytes,
                key,
            }),
            Err(refused) => {
                forget_bytes(bytes);
                Err(refused)
            }
        }
    }

    // It waits behind the others.
    fn wait_to_send(
        &mut self,
        alloc: Global,
        id: u64,
        it: Datagram,
        parts: &mut Parts,
    ) -> Result<Asked, Memory>
        requires idle { parts.old.called ≡ None }
        requires room { key_at dgram_part self.old.drawn < no_key }
        requires places { Each (λ (entry : ℕ × plain.Waiting). entry.0 < self.old.drawn)
            self.old.waiting.entries }
        ensures answer { IfOk result (λ asked.
            asked ≡ Asked.Wait (length parts.old.futures) (next_key (kept_of self.old))) }
        ensures after { OnOk result (kept_of self.new
            ≡ wait_last (plain.Sends id it (length parts.old.futures)) (kept_of self.old)) }
        ensures parts { OnOk result (parts.new ≡ made loops.Plain parts.old) }
    {
        let on = match parts.new_plain(alloc) {
            Ok(on) => on,
            Err(refused) => {
                forget_datagram(it);
                return Err(refused);
            }
        };
        let key = self.wait(Waiting::sends(id, it, on))?;
        Ok(Asked::Wait { on, key })
    }

    // It stands last in line, and the outside is asked where nobody stood there.
    fn offer(
        &mut self,
        alloc: Global,
        id: u64,
        it: Datagram,
        parts: &mut Parts,
    ) -> Result<Asked, Memory>
        requires idle { parts.old.called ≡ None }
        requires room { key_at dgram_part self.old.drawn < no_key }
        requires tidy { IsTidy (kept_of self.old) }
        ensures { IfOk result (λ asked. (endpoint : plain.Endpoint)
            → endpoint_at id (kept_of self.old) ≡ Some endpoint
            → SaysSeen (kept_of self.new) parts.old parts.new asked
            (sending.offer it id endpoint (parts_of parts.old) (kept_of self.old))) }
    {
        let had_line = match self.stand_last(id) {
            Ok(had_line) => had_line,
            Err(refused) => {
                forget_datagram(it);
                return Err(refused);
            }
        };
        if had_line {
            return self.wait_to_send(alloc, id, it, parts);
        }
        self.ask_to_send(alloc, id, it)
    }

    // To an endpoint that is open.
    fn send_to(
        &mut self,
        alloc: Global,
        id: u64,
        port: i64,
        bytes: RcSlice<u8>,
        parts: &mut Parts,
    ) -> Result<Asked, Memory>
        requires idle { parts.old.called ≡ None }
        requires room { key_at dgram_part self.old.drawn < no_key }
        requires tidy { IsTidy (kept_of self.old) }
        ensures { IfOk result (λ asked. (endpoint : plain.Endpoint)
            → endpoint_at id (kept_of self.old) ≡ Some endpoint
            → SaysSeen (kept_of self.new) parts.old parts.new asked
            (sending.send port (rc_slice_items bytes) id endpoint (parts_of parts.old)
            (kept_of self.old))) }
    {
        let Some(port) = port_of(port) else {
            forget_shared(bytes);
            return self.raise(alloc, Kind::ValueError, "port");
        };
        let len = bytes.as_slice().len();
        if is_too_long(len) {
            forget_shared(bytes);
            return self.raise(alloc, Kind::ValueError, "datagram");
        }
        if len == 0 {
            forget_shared(bytes);
            return Ok(self.answer(Value::nothing()));
        }
        self.offer(alloc, id, Datagram::new(port, bytes), parts)
    }

    /// The bytes are sent to a port, or the task waits behind all who send.
    pub fn send(
        &mut self,
        alloc: Global,
        number: i64,
        port: i64,
        bytes: RcSlice<u8>,
        parts: &mut Parts,
    ) -> Result<Asked, Memory>
        requires idle { parts.old.called ≡ None }
        requires room { key_at dgram_part self.old.drawn < no_key }
        requires tidy { IsTidy (kept_of self.old) }
        ensures { IfOk result (λ asked. SaysSeen (kept_of self.new) parts.old parts.new asked
            (on_endpoint (sending.send port (rc_slice_items bytes)) number (parts_of parts.old)
            (kept_of self.old))) }
    {
        match self.reach(alloc, number, parts) {
            Ok(Reached::Raised(asked)) => {
                forget_shared(bytes);
                Ok(asked)
            }
            Ok(Reached::Open(id)) => self.send_to(alloc, id, port, bytes, parts),
            Err(refused) => {
                forget_shared(bytes);
                Err(refused)
            }
        }
    }

    // What is asked of the outside, to send the datagram of one who stood in line.
    fn text_again(&mut self, alloc: Global, place: u64) -> Result<Blob, Memory>
        ensures text { IfOk result (λ text. (id : ℕ) (it : texts.Datagram) (on : ℕ)
            → waiting_at place (kept_of self.old) ≡ Some (plain.Sends id it on)
            → text ≡ offer_text id it) }
        ensures after { OnOk result ((it : plain.Waiting)
            → waiting_at place (kept_of self.old) ≡ Some it
            → kept_of self.new ≡ wait_again place (offering it) (kept_of self.old)) }
    {
        match self.waiting.get_mut(&place) {
            Some(it) => it.offer(alloc),
            None => Ok(Blob::of(Vec::new(alloc))),
        }
    }

    // The outside is asked.
    fn ask_again(&mut self, alloc: Global, key: u64, place: u64) -> Result<Asked, Memory>
        ensures { IfOk result (λ asked. (id : ℕ) (it : texts.Datagram) (on : ℕ)
            → waiting_at place (kept_of self.old) ≡ Some (plain.Sends id it on)
            → (asked ≡ Asked.Outside (pos 401) (offer_text id it) key)
            × (kept_of self.new ≡ wait_again place (plain.Offers id it) (kept_of self.old))) }
    {
        let bytes = self.text_again(alloc, place)?;
        Ok(Asked::Outside {
            code: 401,
            bytes,
            key,
        })
    }

    // One that doesn't stand first waits on.
    fn wait_again(
        &mut self,
        alloc: Global,
        key: u64,
        place: u64,
        parts: &mut Parts,
    ) -> Result<Asked, Memory>
        requires idle { parts.old.called ≡ None }
        ensures { IfOk result (λ asked. (id : ℕ) (it : texts.Datagram) (on : ℕ)
            → waiting_at place (kept_of self.old) ≡ Some (plain.Sends id it on)
            → (asked ≡ Asked.Wait (length parts.old.futures) key)
            × (kept_of self.new ≡ wait_again place (plain.Sends id it (length parts.old.futures))
            (kept_of self.old)) × (parts.new ≡ made loops.Plain parts.old)) }
    {
        let on = parts.new_plain(alloc)?;
        self.wait_on(place, on);
        Ok(Asked::Wait { on, key })
    }

    // To an endpoint that is open: the outside is asked by the first in line.
    fn asks_again(
        &mut self,
        alloc: Global,
        key: u64,
        place: u64,
        id: u64,
        parts: &mut Parts,
    ) -> Result<Asked, Memory>
        requires idle { parts.old.called ≡ None }
        ensures { IfOk result (λ asked. (it : texts.Datagram) (on : ℕ) (endpoint : plain.Endpoint)
            → waiting_at place (kept_of self.old) ≡ Some (plain.Sends id it on)
            → endpoint_at id (kept_of self.old) ≡ Some endpoint
            → SaysSeen (kept_of self.new) parts.old parts.new asked
            (sending.asks_again key place id it endpoint (parts_of parts.old)
            (kept_of self.old))) }
    {
        if self.is_first(id, place) {
            return self.ask_again(alloc, key, place);
        }
        self.wait_again(alloc, key, place, parts)
    }

    /// One that stood in line goes on: the outside is asked.
    pub fn sends_again(
        &mut self,
        alloc: Global,
        key: u64,
        place: u64,
        id: u64,
        input: Input,
        parts: &mut Parts,
    ) -> Result<Asked, Memory>
        requires idle { parts.old.called ≡ None }
        requires free { are_free parts.old.futures (own_of self.old) ≡ true }
        ensures { IfOk result (λ asked. (it : texts.Datagram) (on : ℕ)
            → waiting_at place (kept_of self.old) ≡ Some (plain.Sends id it on)
            → SaysSeen (kept_of self.new) parts.old parts.new asked
            (sending.sends_again key place id it input (parts_of parts.old)
            (kept_of self.old))) }
    {
        match input {
            Input::Send(value) => {
                forget(value);
                if self.is_open(id) {
                    return self.asks_again(alloc, key, place, id, parts);
                }
                self.leave(place, id, parts);
                closed(alloc)
            }
            Input::Throw(fault) => {
                self.leave(place, id, parts);
                Ok(Asked::Raise(fault))
            }
        }
    }

    // The outside answered.
    fn answered(
        &mut self,
        alloc: Global,
        key: u64,
        place: u64,
        id: u64,
        value: &Value,
        parts: &mut Parts,
    ) -> Result<Asked, Memory>
        requires idle { parts.old.called ≡ None }
        requires free { are_free parts.old.futures (own_of self.old) ≡ true }
        ensures { IfOk result (λ asked. (it : texts.Datagram)
            → waiting_at place (kept_of self.old) ≡ Some (plain.Offers id it)
            → SaysSeen (kept_of self.new) parts.old parts.new asked
            (sending.offered key place id it (Send value.now) (parts_of parts.old)
            (kept_of self.old))) }
    {
        if is_answer(value, SENT) {
            self.leave(place, id, parts);
            return Ok(Asked::Answer(Value::nothing()));
        }
        if is_answer(value, AGAIN) {
            let on = parts.new_plain(alloc)?;
            self.wait_on(place, on);
            return Ok(Asked::Wait { on, key });
        }
        self.leave(place, id, parts);
        send_failed(alloc)
    }

    /// One that asked the outside goes on.
    pub fn offered(
        &mut self,
        alloc: Global,
        key: u64,
        place: u64,
        id: u64,
        input: Input,
        parts: &mut Parts,
    ) -> Result<Asked, Memory>
        requires idle { parts.old.called ≡ None }
        requires free { are_free parts.old.futures (own_of self.old) ≡ true }
        ensures { IfOk result (λ asked. (it : texts.Datagram)
            → waiting_at place (kept_of self.old) ≡ Some (plain.Offers id it)
            → SaysSeen (kept_of self.new) parts.old parts.new asked
            (sending.offered key place id it input (parts_of parts.old) (kept_of self.old))) }
    {
        match input {
            Input::Send(value) => {
                let asked = self.answered(alloc, key, place, id, &value, parts);
                forget(value);
                asked
            }
            Input::Throw(fault) => {
                self.leave(place, id, parts);
                Ok(Asked::Raise(fault))
            }
        }
    }

    /// An endpoint may be sent to again: who stands first is woken. It takes no memory.
    pub fn has_room(&self, bytes: &[u8], parts: &mut Parts)
        requires idle { parts.old.called ≡ None }
        requires free { are_free parts.old.futures (own_of self.now) ≡ true }
        ensures { CallsSeen (kept_of self.now) parts.old parts.new
            (sending.has_room (number_of bytes.now) (kept_of self.now)) }
    {
        if let Some(id) = number(bytes) {
            if let Some(endpoint) = self.endpoints.get(&id) {
                endpoint.wake_first(&self.waiting, parts);
            }
        }
    }
}
