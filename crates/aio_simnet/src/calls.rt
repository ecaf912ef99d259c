//! The calls on a connection.
use crate::net::Net;
use crate::odds::Odds;
use crate::service::Service;
use aio_base::Memory;
use aio_wire::Answer;
use std::alloc::Global;

/// The most bytes that one receive gives.
const MOST_RECEIVED: usize = 262_144;

impl Net {
    /// Counts a call on an end, at which a reset may strike both ends. What is on its way then is lost.
    fn strike(&mut self, place: usize, now: u64) {
        let Some(end) = self.ends.get_mut(place) else {
            return;
        };
        match end.calls_left {
            Some(0) => {
                end.calls_left = None;
                end.reset(now);
                end.incoming.lose(now);
                let other = end.other;
                if let Some(other) = self.ends.get_mut(other) {
                    other.reset(now);
                    other.incoming.lose(now);
                }
            }
            Some(left) => end.calls_left = Some(left.saturating_sub(1)),
            None => (),
        }
    }

    /// How many bytes are at an end, as many as one receive gives.
    fn here(&mut self, place: usize, now: u64) -> usize {
        match self.ends.get_mut(place) {
            Some(end) => end.incoming.here(now).min(MOST_RECEIVED),
            None => 0,
        }
    }

    /// Receives on a connection.
    pub fn receive(
        &mut self,
        alloc: Global,
        odds: &mut Odds,
        now: u64,
        conn: u32,
    ) -> Result<Answer, Memory> {
        let Some(place) = self.place(conn) else {
            return Ok(Answer::Again);
        };
        self.strike(place, now);
        let here = self.here(place, now);
        let Some(end) = self.ends.get_mut(place) else {
            return Ok(Answer::Again);
        };
        if here == 0 {
            return Ok(end.nothing_here(now));
        }
        if odds.chance.happens(odds.rates.again) {
            return Ok(Answer::Again);
        }
        let count = odds.part(here, odds.rates.cut);
        let bytes = end.hear(alloc, count)?;
        Ok(Answer::Data(bytes))
    }

    /// Sends on a connection.
    pub fn send(
        &mut self,
        odds: &mut Odds,
        now: u64,
        conn: u32,
        bytes: &[u8],
    ) -> Result<Answer, Memory> {
        let Some(place) = self.place(conn) else {
            return Ok(Answer::Again);
        };
        self.strike(place, now);
        if self.is_reset(place, now) {
            return Ok(Answer::Broken);
        }
        if self.is_other_closed(place) {
            return self.send_to_closed(odds, now, place, bytes);
        }
        let most = self.room(place).min(bytes.len());
        if most == 0 || odds.chance.happens(odds.rates.again) {
            return Ok(Answer::Again);
        }
        let count = odds.part(most, odds.rates.short);
        if count <= bytes.len() {
            self.carry(odds, now, place, &bytes[..count])?;
        }
        Ok(Answer::Took(count as u64))
    }

    /// What is sent to an end that is closed is taken, and a reset comes back.
    fn send_to_closed(
        &mut self,
        odds: &mut Odds,
        now: u64,
        place: usize,
        bytes: &[u8],
    ) -> Result<Answer, Memory> {
        let at = odds.arrival(now);
        if let Some(end) = self.ends.get_mut(place) {
            end.reset(at);
            let other = end.other;
            self.say(other, bytes, at)?;
        }
        Ok(Answer::Took(bytes.len() as u64))
    }

    /// Carries bytes from an end to the other one, in one piece or in two.
    fn carry(
        &mut self,
        odds: &mut Odds,
        now: u64,
        place: usize,
        bytes: &[u8],
    ) -> Result<(), Memory> {
        let Some(end) = self.ends.get(place) else {
            return Ok(());
        };
        let other = end.other;
        let first = odds.part(bytes.len(), odds.rates.segment);
        let at = odds.arrival(now);
        self.say(other, &bytes[..first], at)?;
        self.is_heard(odds, other, first, at)?;
        if first < bytes.len() {
            let at = odds.arrival(now);
            self.say(other, &bytes[first..], at)?;
            self.is_heard(odds, other, bytes.len() - first, at)?;
        }
        Ok(())
    }

    /// Where a service is at an end, it hears what came to it at a time, so many bytes, and may send them back.
    fn is_heard(
        &mut self,
        odds: &mut Odds,
        place: usize,
        count: usize,
        at: u64,
    ) -> Result<(), Memory> {
        let alloc = self.alloc;
        let Some(end) = self.ends.get_mut(place) else {
            return Ok(());
        };
        let Some(service) = end.service else {
            return Ok(());
        };
        let other = end.other;
        let bytes = end.hear(alloc, count)?;
        if service == Service::Echo {
            let back = odds.arrival(at);
            self.say(other, bytes.items(), back)?;
        }
        Ok(())
    }

    /// Says on a connection that no more bytes are sent.
    pub fn shut(&mut self, odds: &mut Odds, now: u64, conn: u32) -> Answer {
        let at = odds.arrival(now);
        if let Some(place) = self.place(conn) {
            self.say_end_from(odds, place, at);
        }
        Answer::Done
    }

    /// The end goes from an end to the other one, and arrives at a time. A service ends then, too.
    fn say_end_from(&mut self, odds: &mut Odds, place: usize, at: u64) {
        let Some(end) = self.ends.get(place) else {
            return;
        };
        let other = end.other;
        self.say_end(other, at);
        let is_served = match self.ends.get(other) {
            Some(other) => other.service.is_some(),
            None => false,
        };
        if is_served {
            let back = odds.arrival(at);
            self.say_end(place, back);
        }
    }

    /// Closes a connection. Where bytes are left that weren't received the other end meets a reset, and else the end.
    pub fn close(&mut self, odds: &mut Odds, now: u64, conn: u32) -> Answer {
        let at = odds.arrival(now);
        if let Some(place) = self.place(conn) {
            self.close_end(odds, place, now, at);
        }
        Answer::Done
    }

    fn close_end(&mut self, odds: &mut Odds, place: usize, now: u64, at: u64) {
        let Some(end) = self.ends.get_mut(place) else {
            return;
        };
        end.is_closed = true;
        let is_left = end.incoming.here(now) > 0;
        end.incoming.lose(now);
        let other = end.other;
        if is_left {
            if let Some(other) = self.ends.get_mut(other) {
                other.reset(at);
            }
        } else {
            self.say_end_from(odds, place, at);
        }
    }

    /// Closes a listener. Whoever waits for it meets a reset.
    pub fn close_server(&mut self, odds: &mut Odds, now: u64, server: u32) -> Answer {
        let at = odds.arrival(now);
        let waiting = match self.listeners.get(server as usize) {
            Some(listener) => listener.waiting.len(),
            None => 0,
        };
        for _ in 0..waiting {
            self.drop_waiting(server, at);
        }
        if let Some(listener) = self.listeners.get_mut(server as usize) {
            listener.is_open = false;
        }
        Answer::Done
    }

    /// The first connection that waits for a listener waits no longer, and meets a reset.
    fn drop_waiting(&mut self, server: u32, at: u64) {
        let Some(listener) = self.listeners.get_mut(server as usize) else {
            return;
        };
        let Some(first) = listener.waiting.pop_front() else {
            return;
        };
        let Some(end) = self.ends.get_mut(first.place) else {
            return;
        };
        end.is_closed = true;
        let other = end.other;
        if let Some(other) = self.ends.get_mut(other) {
            other.reset(at);
        }
    }
}
