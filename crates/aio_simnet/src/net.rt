//! The network: what each call on it comes to.
use crate::end::{End, Making};
use crate::listener::{Listener, Waiting};
use crate::odds::Odds;
use crate::service::{DAYTIME, Service, service_of};
use aio_base::Memory;
use aio_wire::{Answer, Readiness};
use std::alloc::Global;
use std::collections::VecDeque;

/// The most listeners, and the most connections.
const MOST_OPENED: usize = 1_000_000;

/// A network in which listeners and connections are numbered as the loop numbers them. Each connection has two ends.
#[derive(Drop)]
pub struct Net {
    pub(crate) alloc: Global,
    /// How many bytes each way of a connection holds.
    room: usize,
    pub(crate) ends: Vec<End>,
    /// The place of each connection's own end.
    conns: Vec<usize>,
    pub(crate) listeners: Vec<Listener>,
}

impl Net {
    /// Nothing was opened. Each way of a connection is to hold so many bytes.
    pub fn new(alloc: Global, room: u32) -> Net {
        Net {
            alloc,
            room: room as usize,
            ends: Vec::new(alloc),
            conns: Vec::new(alloc),
            listeners: Vec::new(alloc),
        }
    }

    /// Opens a listener, unless one is open on this port.
    pub fn listen(&mut self, odds: &mut Odds, port: u16) -> Result<Answer, Memory> {
        let is_refused = odds.chance.happens(odds.rates.refuse);
        if is_refused || self.listener_of(port).is_some() || self.listeners.len() >= MOST_OPENED {
            return Ok(Answer::Refused);
        }
        self.listeners.push(Listener {
            port,
            is_open: true,
            waiting: VecDeque::new(self.alloc),
        })?;
        Ok(Answer::Done)
    }

    /// The place of the listener that is open on a port.
    fn listener_of(&self, port: u16) -> Option<usize> {
        self.listeners
            .iter()
            .position(|listener| listener.is_open && listener.port == port)
    }

    /// When a listener may accept.
    pub fn listener_ready_at(&self, server: u32) -> Option<u64> {
        self.listeners.get(server as usize)?.ready_at()
    }

    /// Accepts the next connection that waits for a listener.
    pub fn accept(&mut self, odds: &mut Odds, now: u64, server: u32) -> Result<Answer, Memory> {
        if self.conns.len() >= MOST_OPENED || odds.chance.happens(odds.rates.again) {
            return Ok(Answer::Again);
        }
        let Some(listener) = self.listeners.get_mut(server as usize) else {
            return Ok(Answer::Again);
        };
        let Some(place) = listener.accept(now) else {
            return Ok(Answer::Again);
        };
        if self.is_reset(place, now) && odds.chance.below(2) == 1 {
            return Ok(Answer::Broken);
        }
        self.conns.push(place)?;
        Ok(Answer::Conn)
    }

    pub(crate) fn is_reset(&self, place: usize, now: u64) -> bool {
        match self.ends.get(place) {
            Some(end) => end.is_reset(now),
            None => false,
        }
    }

    /// Begins a connection. It meets the listener that is open on its port, else the service of that port, or is refused.
    pub fn connect(&mut self, odds: &mut Odds, now: u64, port: u16) -> Result<Answer, Memory> {
        let is_refused = odds.chance.happens(odds.rates.refuse);
        if self.conns.len() >= MOST_OPENED || (is_refused && odds.chance.below(2) == 1) {
            return Ok(Answer::Refused);
        }
        let at = odds.arrival(now);
        let back = odds.arrival(at);
        let found = if is_refused {
            None
        } else {
            self.listener_of(port)
        };
        let service = if is_refused { None } else { service_of(port) };
        let is_met = found.is_some() || service.is_some();
        let making = if is_met {
            Making::Up(back)
        } else {
            Making::Down(back)
        };
        let place = self.make(odds, making, at)?;
        if let Some(found) = found {
            self.wait_for(found, Waiting { at, place })?;
        } else if let Some(service) = service {
            self.serve(odds, place, service, at)?;
        }
        Ok(Answer::Conn)
    }

    /// Makes both ends of a connection, and gives the place of the other one.
    fn make(&mut self, odds: &mut Odds, making: Making, at: u64) -> Result<usize, Memory> {
        let mine = self.ends.len();
        let theirs = mine.saturating_add(1);
        let first = calls_left(odds);
        let second = calls_left(odds);
        self.ends.push(End::new(self.alloc, theirs, making, first))?;
        self.ends
            .push(End::new(self.alloc, mine, Making::Up(at), second))?;
        self.conns.push(mine)?;
        Ok(theirs)
    }

    /// A connection waits for a listener.
    fn wait_for(&mut self, found: usize, waiting: Waiting) -> Result<(), Memory> {
        if let Some(listener) = self.listeners.get_mut(found) {
            listener.waiting.push_back(waiting)?;
        }
        Ok(())
    }

    /// A service is at an end, from a time on.
    fn serve(
        &mut self,
        odds: &mut Odds,
        place: usize,
        service: Service,
        at: u64,
    ) -> Result<(), Memory> {
        let Some(end) = self.ends.get_mut(place) else {
            return Ok(());
        };
        end.service = Some(service);
        let other = end.other;
        match service {
            Service::Echo | Service::Discard => Ok(()),
            Service::Daytime => {
                let back = odds.arrival(at);
                self.say(other, DAYTIME.as_bytes(), back)?;
                self.say_end(other, back);
                Ok(())
            }
        }
    }

    /// Bytes come to an end at a time.
    pub(crate) fn say(&mut self, place: usize, bytes: &[u8], at: u64) -> Result<(), Memory> {
        match self.ends.get_mut(place) {
            Some(end) => end.incoming.send(bytes, at),
            None => Ok(()),
        }
    }

    /// The end comes to an end at a time.
    pub(crate) fn say_end(&mut self, place: usize, at: u64) {
        if let Some(end) = self.ends.get_mut(place) {
            end.incoming.send_end(at);
        }
    }

    /// The place of a connection's own end.
    pub(crate) fn place(&self, conn: u32) -> Option<usize> {
        self.conns.get(conn as usize).copied()
    }

    /// When it is known what becomes of a connection that is being made.
    pub fn made_at(&self, conn: u32) -> Option<u64> {
        let end = self.ends.get(self.place(conn)?)?;
        match end.making {
            Making::Up(at) | Making::Down(at) => Some(at),
        }
    }

    /// Whether a connection that is being made comes to stand.
    pub fn is_up(&self, conn: u32) -> bool {
        let Some(place) = self.place(conn) else {
            return false;
        };
        match self.ends.get(place) {
            Some(end) => matches!(end.making, Making::Up(_)),
            None => false,
        }
    }

    /// When a connection is ready for something of what is watched.
    pub fn conn_ready_at(&self, conn: u32, reads: bool, writes: bool, now: u64) -> Option<u64> {
        let place = self.place(conn)?;
        let end = self.ends.get(place)?;
        if end.is_closed {
            return None;
        }
        if writes && self.is_writable(place, now) {
            return Some(0);
        }
        if reads { end.readable_at() } else { None }
    }

    /// What a connection is ready for of what is watched.
    pub fn conn_ready(&self, conn: u32, reads: bool, writes: bool, now: u64) -> Option<Readiness> {
        let place = self.place(conn)?;
        let writes = writes && self.is_writable(place, now);
        self.ends.get(place)?.readiness(reads, writes, now)
    }

    /// Whether something can be sent, or is at once found broken.
    fn is_writable(&self, place: usize, now: u64) -> bool {
        self.is_reset(place, now) || self.is_other_closed(place) || self.room(place) > 0
    }

    /// Whether the other end is closed.
    pub(crate) fn is_other_closed(&self, place: usize) -> bool {
        let Some(end) = self.ends.get(place) else {
            return true;
        };
        match self.ends.get(end.other) {
            Some(other) => other.is_closed,
            None => true,
        }
    }

    /// How many bytes an end may send: what the other one's way holds less what wasn't heard of it. One that sends back what it
    /// hears takes no more than this end's own way holds.
    pub(crate) fn room(&self, place: usize) -> usize {
        let Some(end) = self.ends.get(place) else {
            return 0;
        };
        let Some(other) = self.ends.get(end.other) else {
            return 0;
        };
        let unheard = match other.service {
            Some(Service::Echo) => end.incoming.unheard(),
            Some(Service::Discard) | Some(Service::Daytime) | None => other.incoming.unheard(),
        };
        self.room.saturating_sub(unheard)
    }
}

/// After how many calls a connection is reset, where it is to be.
fn calls_left(odds: &mut Odds) -> Option<u32> {
    if odds.chance.happens(odds.rates.reset) {
        Some(odds.chance.below(12))
    } else {
        None
    }
}
