//! The open endpoints of datagrams.
ghost use Rattle.std.specs.Prelude.{◌≡◌, IfOk, OnErr};
ghost use Rattle.aio_poller.specs.Opened.{Opens};

use crate::address::here;
use crate::datagrams::{datagram_in, endpoint_in, endpoint_text, port_in};
use crate::endpoint::{Mailed, Received, receive_on, send_on};
use crate::registration::Registration;
use crate::rest::Rest;
use aio_base::Blob;
use aio_wire::{Answer, Item};
use mio::event::Event;
use mio::net::UdpSocket;
use mio::{Interest, Poll, Token};
use std::alloc::Global;
use std::collections::{BTreeMap, VecDeque};
use std::io;
use std::net::Net;

/// How many datagrams one poll receives at most, so that there is room for what children tell.
const MOST_DATAGRAMS: usize = 256;

/// How many bytes they have at most as they are told.
const MOST_BYTES: usize = 131_072;

/// How many bytes one has at most as it is told: 65,507 and two numbers.
const GREATEST: usize = 65_524;

/// How often one poll tries to receive at most.
const MOST_LOOKS: u32 = 1_024;

/// The codes of added requests: what opens an endpoint; what sends, and tells of room; what tells of a datagram that came;
/// what closes.
const OPEN: i64 = 400;

const SEND: i64 = 401;

const CAME: i64 = 402;

pub const CLOSE: i64 = 403;

#[derive(Drop)]
struct Endpoint {
    socket: UdpSocket,
    registration: Registration,
    /// A send found no room, and is told when there is some.
    wants_room: bool,
    /// It rests after the system failed at what was to be received.
    rest: Rest,
}

/// The endpoints that are open, by their numbers, which go on from 0 and are given once.
#[derive(Drop)]
pub struct Endpoints {
    open: BTreeMap<u32, Endpoint>,
    /// How many were opened.
    pub made: u32,
    /// The one that received last: the next poll begins behind it.
    last: u32,
}

impl Endpoint {
    fn new(socket: UdpSocket) -> Endpoint {
        Endpoint {
            socket,
            registration: Registration::new(),
            wants_room: false,
            rest: Rest::none(),
        }
    }

    fn interest(&self) -> Interest {
        if self.wants_room {
            Interest::READABLE | Interest::WRITABLE
        } else {
            Interest::READABLE
        }
    }

    /// Watches it in this round, unless it rests; then it says for how long. Where the system refuses, it rests from now on.
    fn watch(
        &mut self,
        poll: &Poll,
        token: Token,
        round: u64,
        now: u64,
        closed: u64,
    ) -> Option<u64> {
        if self.rest.left(now, closed).is_none() {
            let interest = self.interest();
            let socket = &mut self.socket;
            if self
                .registration
                .watch(poll, socket, token, interest, round)
                .is_err()
            {
                self.rest.begin(now, closed);
            }
        }
        let left = self.rest.left(now, closed)?;
        self.registration.begin(0);
        Some(left)
    }
}

impl Endpoints {
    pub fn new(alloc: Global) -> Endpoints
        ensures { result.made ≡ 0 }
    {
        Endpoints {
            open: BTreeMap::new(alloc),
            made: 0,
            last: 0,
        }
    }

    /// What a call on an endpoint comes to. No error of one is a failure; want of memory is an error.
    pub fn answer<R: Net>(
        &mut self,
        rt: &R,
        alloc: Global,
        code: i64,
        text: &[u8],
    ) -> io::Result<Answer> {
        match code {
            OPEN => self.open(rt, alloc, text),
            SEND => self.send(alloc, text),
            CLOSE => Ok(self.close(alloc, text)),
            _ => Ok(Answer::Refused),
        }
    }

    /// Opens an endpoint at this port, with the next number.
    fn open<R: Net>(&mut self, rt: &R, alloc: Global, text: &[u8]) -> io::Result<Answer>
        ensures { IfOk result (Opens self.old.made self.new.made) }
    {
        let Some(port) = port_in(text) else {
            return Ok(Answer::Refused);
        };
        let number = self.made;
        if number == u32::MAX {
            return Ok(Answer::Refused);
        }
        let Ok(socket) = UdpSocket::bind(rt, here(port)) else {
            return Ok(Answer::Refused);
        };
        let told = endpoint_text(alloc, number)?;
        self.open.insert(number, Endpoint::new(socket))?;
        self.made = number + 1;
        Ok(Answer::Extra(told))
    }

    /// Sends a datagram, once.
    fn send(&mut self, alloc: Global, text: &[u8]) -> io::Result<Answer> {
        let Some(datagram) = datagram_in(text) else {
            return Ok(Answer::Refused);
        };
        let Some(endpoint) = self.open.get_mut(&datagram.number) else {
            return Ok(Answer::Refused);
        };
        let mailed = send_on(&mut endpoint.socket, datagram.port, datagram.bytes);
        endpoint.wants_room = endpoint.wants_room || mailed == Mailed::Again;
        Ok(Answer::Extra(Blob::of(Vec::from_slice(alloc, mailed.word())?)))
    }

    /// Closes an endpoint. Its number is not given again.
    fn close(&mut self, alloc: Global, text: &[u8]) -> Answer {
        match endpoint_in(text) {
            Some(number) if self.open.remove(&number).is_some() => Answer::Extra(Blob::of(Vec::new(
                alloc,
            ))),
            _ => Answer::Refused,
        }
    }

    /// Watches all in this round but those that rest; then it says for how long the first of them does.
    pub fn watch(&mut self, poll: &Poll, round: u64, now: u64, closed: u64) -> Option<u64> {
        let mut least: Option<u64> = None;
        for (number, endpoint) in self.open.iter_mut() {
            if let Some(rest) = endpoint.watch(poll, token(*number), round, now, closed) {
                least = Some(least.map_or(rest, |other| other.min(rest)));
            }
        }
        least
    }

    /// Ends the reports of those that this round doesn't watch. Where the system refuses, nobody looks at what it reports.
    pub fn let_rest(&mut self, poll: &Poll, round: u64) {
        for endpoint in self.open.values_mut() {
            let _ = endpoint
                .registration
                .rest(poll, &mut endpoint.socket, round);
        }
    }

    /// Notes what the system reports of the endpoint with this number.
    pub fn note(&mut self, number: u32, event: &Event) {
        if let Some(endpoint) = self.open.get_mut(&number) {
            endpoint.registration.note(event);
        }
    }

    /// Tells of each endpoint that waited for room and has some, as far as so many items go, and waits no more.
    pub fn tell_room(
        &mut self,
        alloc: Global,
        most: usize,
        items: &mut Vec<Item>,
    ) -> io::Result<()> {
        for (number, endpoint) in self.open.iter_mut() {
            if items.len() >= most {
                break;
            }
            if endpoint.wants_room && endpoint.registration.is_writable {
                endpoint.wants_room = false;
                items.push(Item::Extra {
                    code: SEND,
                    bytes: endpoint_text(alloc, *number)?,
                })?;
            }
        }
        Ok(())
    }

    /// Receives datagrams, one an endpoint and turn by turn, as far as a poll's share of them and so many items go.
    pub fn tell_datagrams(
        &mut self,
        alloc: Global,
        now: u64,
        closed: u64,
        most: usize,
        buffer: &mut [u8],
        items: &mut Vec<Item>,
    ) -> io::Result<()> {
        let mut line = self.readable(alloc)?;
        let mut share = Share::whole();
        for _ in 0..MOST_LOOKS {
            if share.is_used_up() || items.len() >= most {
                break;
            }
            let Some(number) = line.pop_front() else {
                break;
            };
            let Some(endpoint) = self.open.get_mut(&number) else {
                continue;
            };
            match receive_on(alloc, &mut endpoint.socket, number, buffer)? {
                Received::Came(bytes) => {
                    share.take(bytes.items().len());
                    items.push(Item::Extra { code: CAME, bytes })?;
                    self.last = number;
                    line.push_back(number)?;
                }
                Received::Dropped => line.push_back(number)?,
                Received::Nothing => {}
                Received::Failed => endpoint.rest.begin(now, closed),
            }
        }
        Ok(())
    }

    /// Those that are readable, from the one behind that which received last.
    fn readable(&self, alloc: Global) -> io::Result<VecDeque<u32>> {
        let mut line = VecDeque::new(alloc);
        for (number, endpoint) in self.open.iter() {
            if *number > self.last && endpoint.registration.is_readable {
                line.push_back(*number)?;
            }
        }
        for (number, endpoint) in self.open.iter() {
            if *number <= self.last && endpoint.registration.is_readable {
                line.push_back(*number)?;
            }
        }
        Ok(line)
    }
}

/// What is left of a poll's share of datagrams.
#[derive(Clone, Copy)]
struct Share {
    datagrams: usize,
    bytes: usize,
}

impl Share {
    fn whole() -> Share {
        Share {
            datagrams: MOST_DATAGRAMS,
            bytes: MOST_BYTES,
        }
    }

    /// The greatest has no place in it, so none is received that couldn't be told.
    fn is_used_up(&self) -> bool {
        self.datagrams == 0 || self.bytes < GREATEST
    }

    fn take(&mut self, bytes: usize) {
        self.datagrams = self.datagrams.saturating_sub(1);
        self.bytes = self.bytes.saturating_sub(bytes);
    }
}

/// The token of the endpoint with this number.
fn token(number: u32) -> Token {
    Token(number as usize * 4 + 2)
}
