//! What is kept of datagram endpoints.
ghost use Rattle.std.specs.Prelude.{◌≡◌, ◌<◌, ◌∷◌, [], List, ℕ, None, Some, true, is_some, IfNone, IfOk, OnOk, MatchOption, length, nat_lt, if◌then◌else◌};
ghost use Rattle.std.specs.List.{AllByRecursion as Each};
ghost use Rattle.model_value.specs.Value.{exception_of};
ghost use Rattle.model_machine.specs.Extra.{ExtraAnswer};
ghost use Rattle.model_reach.specs.Part.{can_draw, key_at, no_key};
ghost use Rattle.model_dgram.specs.Endpoints as plain;
ghost use Rattle.model_dgram.specs.Endpoints.{dgram_part, draw, endpoint_at, is_closed, next_key, no_endpoint, none_opened, raises, set_endpoint, wait_again, wait_last, wait_over, waiting_at};
ghost use Rattle.model_dgram.specs.Sending.{leaves, stand_last, stands_first};
ghost use Rattle.model_dgram.specs.Texts as texts;
ghost use Rattle.law_dgram.specs.Tidy.{IsTidy};
ghost use Rattle.aio_sync.specs.Woken.{are_free};
ghost use Rattle.aio_dgram.specs.Keeps.{found_of, moved};
ghost use Rattle.aio_dgram.specs.Leaves.{LeavesLine, received_by};
ghost use Rattle.aio_dgram.specs.Reaches.{Reaches};
ghost use Rattle.aio_dgram.specs.Seen.{kept_of, own_of};
ghost use Rattle.aio_dgram.specs.Woken.{CallsSeen, SaysSeen};

use crate::datagram::Datagram;
use crate::endpoint::Endpoint;
use crate::waiting::{Found, Waiting};
use aio_base::{Kind, Memory, Value, exception};
use aio_extra::Asked;
use aio_task::{FutureId, Parts};
use std::alloc::Global;
use std::collections::BTreeMap;

// So many keys can be drawn: those below 2^34.
const MOST: u64 = 4_294_967_296;

/// What serves datagram endpoints: how many keys were drawn, each request that waits, by the place
/// of its key; how many endpoints were opened, and those that are open, by their numbers.
#[derive(Drop)]
pub struct Dgram {
    pub drawn: u64,
    pub waiting: BTreeMap<u64, Waiting>,
    pub opened: u64,
    pub endpoints: BTreeMap<u64, Endpoint>,
}

/// The endpoint that a number names, or what is raised where none is open.
#[derive(Drop)]
pub enum Reached {
    Open(u64),
    Raised(Asked),
}

fn forget(_it: Option<Waiting>) {}

impl Dgram {
    /// No endpoint was opened.
    pub fn new(alloc: Global) -> Dgram
        ensures { kept_of result ≡ none_opened }
    {
        Dgram {
            drawn: 0,
            waiting: BTreeMap::new(alloc),
            opened: 0,
            endpoints: BTreeMap::new(alloc),
        }
    }

    /// Whether one more key can be drawn.
    pub fn can_draw(&self) -> bool
        ensures { result ≡ can_draw dgram_part self.now.drawn 1 }
    {
        self.drawn < MOST
    }

    /// A request is answered at once. It takes no memory.
    pub fn answer(&mut self, value: Value) -> Asked
        requires room { key_at dgram_part self.old.drawn < no_key }
        ensures answer { result ≡ Asked.Answer value }
        ensures after { kept_of self.new ≡ draw (kept_of self.old) }
    {
        self.drawn += 1;
        Asked::Answer(value)
    }

    /// It raises this.
    pub fn raise(&mut self, alloc: Global, kind: Kind, text: &str) -> Result<Asked, Memory>
        requires room { key_at dgram_part self.old.drawn < no_key }
        ensures answer { IfOk result (λ asked. asked ≡ Asked.Raise (exception_of kind text.now)) }
        ensures after { OnOk result (kept_of self.new ≡ draw (kept_of self.old)) }
    {
        let fault = exception(alloc, kind, text)?;
        self.drawn += 1;
        Ok(Asked::Raise(fault))
    }

    /// A request waits. The answer is its key.
    pub fn wait(&mut self, it: Waiting) -> Result<u64, Memory>
        requires room { key_at dgram_part self.old.drawn < no_key }
        requires places { Each (λ (entry : ℕ × plain.Waiting). entry.0 < self.old.drawn)
            self.old.waiting.entries }
        ensures key { IfOk result (λ key. key ≡ next_key (kept_of self.old)) }
        ensures after { OnOk result (kept_of self.new ≡ wait_last it (kept_of self.old)) }
    {
        let place = self.drawn;
        self.drawn += 1;
        forget(self.waiting.insert(place, it)?);
        Ok(4 * place + 3)
    }

    /// What waits under the key at this place.
    pub fn find(&self, place: u64) -> Found
        ensures { result ≡ found_of (waiting_at place (kept_of self.now)) }
    {
        match self.waiting.get(&place) {
            Some(it) => it.found(),
            None => Found::Nothing,
        }
    }

    /// A request waits no more. It takes no memory.
    pub fn end(&mut self, place: u64)
        ensures { kept_of self.new ≡ wait_over place (kept_of self.old) }
    {
        forget(self.waiting.remove(&place));
    }

    /// A request waits again, on another future. It takes no memory.
    pub fn wait_on(&mut self, place: u64, next: FutureId)
        ensures { (it : plain.Waiting) → waiting_at place (kept_of self.old) ≡ Some it
            → kept_of self.new ≡ wait_again place (moved next it) (kept_of self.old) }
    {
        if let Some(it) = self.waiting.get_mut(&place) {
            it.move_to(next);
        }
    }

    /// Whether an endpoint is open.
    pub fn is_open(&self, id: u64) -> bool
        ensures { result ≡ is_some (endpoint_at id (kept_of self.now)) }
    {
        self.endpoints.contains_key(&id)
    }

    // What a request raises on an endpoint that isn't open.
    fn not_open(&mut self, alloc: Global, id: u64, parts: &Parts) -> Result<Asked, Memory>
        requires room { key_at dgram_part self.old.drawn < no_key }
        ensures { IfOk result (λ asked. SaysSeen (kept_of self.new) parts.now parts.now asked
            (raises (if nat_lt id self.old.opened then is_closed else no_endpoint)
            (kept_of self.old))) }
    {
        if id < self.opened {
            return self.raise(alloc, Kind::RuntimeError, "closed");
        }
        self.raise(alloc, Kind::ValueError, "no such endpoint")
    }

    // What a request raises by a number that none has.
    fn no_number(&mut self, alloc: Global, parts: &Parts) -> Result<Asked, Memory>
        requires room { key_at dgram_part self.old.drawn < no_key }
        ensures { IfOk result (λ asked. SaysSeen (kept_of self.new) parts.now parts.now asked
            (raises no_endpoint (kept_of self.old))) }
    {
        self.raise(alloc, Kind::ValueError, "no such endpoint")
    }

    /// The endpoint of this number.
    pub fn reach(&mut self, alloc: Global, number: i64, parts: &Parts) -> Result<Reached, Memory>
        requires room { key_at dgram_part self.old.drawn < no_key }
        ensures { IfOk result (λ reached. Reaches reached number (kept_of self.old)
            (kept_of self.new) parts.now) }
    {
        if number < 0 {
            return Ok(Reached::Raised(self.no_number(alloc, parts)?));
        }
        let id = number as u64;
        if self.is_open(id) {
            return Ok(Reached::Open(id));
        }
        Ok(Reached::Raised(self.not_open(alloc, id, parts)?))
    }

    // It leaves the line, and where it stood first the next is woken.
    fn leave_line(&mut self, place: u64, id: u64, parts: &mut Parts)
        requires idle { parts.old.called ≡ None }
        requires free { are_free parts.old.futures (own_of self.old) ≡ true }
        ensures { LeavesLine place id (kept_of self.old) (kept_of self.new) parts.old parts.new }
    {
        if let Some(endpoint) = self.endpoints.get_mut(&id) {
            endpoint.leave_line(place, &self.waiting, parts);
        }
    }

    /// One sends no more: it leaves the line, and where it stood first the next is woken. It takes
    /// no memory.
    pub fn leave(&mut self, place: u64, id: u64, parts: &mut Parts)
        requires idle { parts.old.called ≡ None }
        requires free { are_free parts.old.futures (own_of self.old) ≡ true }
        ensures { (answer : ExtraAnswer) → CallsSeen (kept_of self.new) parts.old parts.new
            (leaves place id answer (kept_of self.old)).call }
    {
        self.leave_line(place, id, parts);
        self.end(place);
    }

    /// One stands last in line; whether somebody stood there.
    pub fn stand_last(&mut self, id: u64) -> Result<bool, Memory>
        requires tidy { IsTidy (kept_of self.old) }
        ensures had { IfOk result (λ had. (endpoint : plain.Endpoint)
            → endpoint_at id (kept_of self.old) ≡ Some endpoint
            → had ≡ nat_lt 0 (length endpoint.senders)) }
        ensures after { OnOk result ((endpoint : plain.Endpoint)
            → endpoint_at id (kept_of self.old) ≡ Some endpoint
            → kept_of self.new
            ≡ set_endpoint id (stand_last self.old.drawn endpoint) (kept_of self.old)) }
        ensures same { OnOk result ((self.new.drawn ≡ self.old.drawn)
            × (self.new.waiting ≡ self.old.waiting)) }
    {
        let place = self.drawn;
        match self.endpoints.get_mut(&id) {
            Some(endpoint) => {
                let had = endpoint.has_line();
                endpoint.stand_last(place)?;
                Ok(had)
            }
            None => Ok(false),
        }
    }

    /// The first datagram that an endpoint holds, which it holds no longer.
    pub fn take(&mut self, id: u64) -> Option<Datagram>
        ensures same { (self.new.drawn ≡ self.old.drawn)
            × (self.new.waiting ≡ self.old.waiting) }
        ensures none { IfNone result (kept_of self.new ≡ kept_of self.old) }
        ensures first { (endpoint : plain.Endpoint)
            → endpoint_at id (kept_of self.old) ≡ Some endpoint
            → MatchOption result ((endpoint.held ≡ []) × (kept_of self.new ≡ kept_of self.old))
            (λ first. (others : List texts.Datagram) × (endpoint.held ≡ first ∷ others)
            × (kept_of self.new
            ≡ set_endpoint id (record endpoint { held = others }) (kept_of self.old))) }
    {
        match self.endpoints.get_mut(&id) {
            Some(endpoint) => endpoint.take(),
            None => None,
        }
    }

    /// Whether this one stands first in line of an endpoint that is open.
    pub fn is_first(&self, id: u64, place: u64) -> bool
        ensures { (endpoint : plain.Endpoint) → endpoint_at id (kept_of self.now) ≡ Some endpoint
            → result ≡ stands_first place endpoint.senders }
    {
        match self.endpoints.get(&id) {
            Some(endpoint) => endpoint.is_first(place),
            None => false,
        }
    }

    /// Whether somebody receives from an endpoint.
    pub fn is_waited_for(&self, id: u64) -> bool
        ensures { (endpoint : plain.Endpoint) → endpoint_at id (kept_of self.now) ≡ Some endpoint
            → result ≡ is_some endpoint.receiver }
    {
        match self.endpoints.get(&id) {
            Some(endpoint) => endpoint.is_waited_for(),
            None => false,
        }
    }

    /// Who receives from an endpoint from now on, if anybody does. It takes no memory.
    pub fn set_receiver(&mut self, id: u64, receiver: Option<u64>)
        ensures after { kept_of self.new ≡ received_by id receiver (kept_of self.old) }
        ensures same { (self.new.drawn ≡ self.old.drawn)
            × (self.new.waiting ≡ self.old.waiting) }
    {
        if let Some(endpoint) = self.endpoints.get_mut(&id) {
            endpoint.set_receiver(receiver);
        }
    }
}
