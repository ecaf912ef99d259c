//! One way of a connection.
ghost use Rattle.std.specs.Prelude.{◌≡◌, ◌+◌, ◌≤◌, ◌++◌, ℕ, List, [], length, IfOk, OnOk, OnErr};
ghost use Rattle.aio_simnet.specs.Carried.{with_taken, with_heard};

use aio_base::{Blob, Memory};
use std::alloc::Global;
use std::collections::VecDeque;
use std::marker::Model;

/// When the bytes up to a place arrive.
#[derive(Clone, Copy)]
pub(crate) struct Flight {
    pub at: u64,
    pub to: usize,
}

/// What was sent one way, and how much of it was heard. It keeps all that it took. Contracts see the bytes that it took and
/// those that were heard. Beside them stand when bytes arrive that haven't yet, how many have, when the last do, and when the
/// end does.
#[derive(Drop)]
pub struct Pipe {
    bytes: Vec<u8>,
    heard: usize,
    arrived: usize,
    flights: VecDeque<Flight>,
    last: u64,
    end: Option<u64>,
    is_cut: bool,
}

impl Model for Pipe {
    ghost use Rattle.std.specs.Prelude.{take, length, ◌≤◌};
    ghost use Rattle.aio_simnet.specs.Carried.{Carried};

    ghost Value = { Carried };

    ghost view = { λ pipe. record { taken = pipe.bytes.items; heard = take pipe.heard pipe.bytes.items } };

    ghost invariant = { λ pipe. pipe.heard ≤ length pipe.bytes.items };
}

impl Pipe {
    /// A way on which nothing was sent.
    pub fn new(alloc: Global) -> Pipe
        ensures taken { result.taken ≡ [] }
        ensures heard { result.heard ≡ [] }
    {
        Pipe {
            bytes: Vec::new(alloc),
            heard: 0,
            arrived: 0,
            flights: VecDeque::new(alloc),
            last: 0,
            end: None,
            is_cut: false,
        }
    }

    /// What was heard is a front of what it took.
    pub fn heard_is_front(&self)
        ensures { (rest : List ℕ) × (self.now.taken ≡ self.now.heard ++ rest) }
    {
        let _ = &self.heard;
    }

    /// How many bytes it took that weren't heard.
    pub fn unheard(&self) -> usize
        ensures { result + length self.now.heard ≡ length self.now.taken }
    {
        self.bytes.len() - self.heard
    }

    /// Takes bytes, which arrive at a time, or as the last ones do where that is later. After a cut they don't.
    pub fn send(&mut self, bytes: &[u8], at: u64) -> Result<(), Memory>
        ensures after { OnOk result (self.new ≡ with_taken self.old bytes.now) }
        ensures unchanged { OnErr result (self.new ≡ self.old) }
    {
        if !self.is_cut {
            self.last = at.max(self.last);
            let to = self.bytes.len().saturating_add(bytes.len());
            self.flights.push_back(Flight { at: self.last, to })?;
        }
        self.bytes.extend_from_slice(bytes)?;
        Ok(())
    }

    /// No more bytes are sent; that arrives at a time, or as the last bytes do where that is later.
    pub fn send_end(&mut self, at: u64)
        ensures { self.new ≡ self.old }
    {
        if self.end.is_none() {
            self.last = at.max(self.last);
            self.end = Some(self.last);
        }
    }

    /// How many bytes have arrived by a time and weren't heard.
    pub fn here(&mut self, now: u64) -> usize
        ensures same { self.new ≡ self.old }
        ensures most { result + length self.new.heard ≤ length self.new.taken }
    {
        let arrived = land(&mut self.flights, self.arrived, now).min(self.bytes.len());
        self.arrived = arrived;
        arrived.saturating_sub(self.heard)
    }

    /// Hears the next bytes, so many.
    #[tactic(auto, using(crate::proofs::Ways::longer))]
    pub fn hear(&mut self, alloc: Global, count: usize) -> Result<Blob, Memory>
        requires { count + length self.old.heard ≤ length self.old.taken }
        ensures after { IfOk result (λ bytes. self.new ≡ with_heard self.old bytes) }
        ensures count { IfOk result (λ bytes. length bytes ≡ count) }
        ensures unchanged { OnErr result (self.new ≡ self.old) }
    {
        let to = self.heard + count;
        let bytes = Vec::from_slice(alloc, &self.bytes[self.heard..to])?;
        self.heard = to;
        Ok(Blob::of(bytes))
    }

    /// What hasn't arrived by a time is lost, as is all that it takes from now on.
    pub fn lose(&mut self, now: u64)
        ensures { self.new ≡ self.old }
    {
        self.arrived = land(&mut self.flights, self.arrived, now);
        self.flights.clear();
        self.is_cut = true;
    }

    /// What hasn't arrived by a time is lost, and the end arrives at another.
    pub fn cut(&mut self, now: u64, at: u64)
        ensures { self.new ≡ self.old }
    {
        self.lose(now);
        self.end = Some(at);
    }

    /// When something can be heard, or the end is met; `None` where nothing more comes.
    pub fn ready_at(&self) -> Option<u64> {
        if self.heard < self.arrived.min(self.bytes.len()) {
            return Some(0);
        }
        match self.flights.front() {
            Some(flight) => Some(flight.at),
            None => self.end,
        }
    }

    /// Whether the end is met: nothing is on its way, all that arrived was heard, and the end has arrived.
    pub fn is_over(&self, now: u64) -> bool {
        match self.end {
            Some(at) => at <= now && self.flights.is_empty() && self.arrived <= self.heard,
            None => false,
        }
    }
}

/// Takes away the flights that have arrived by a time, and gives up to which place they bring what has arrived.
fn land(flights: &mut VecDeque<Flight>, arrived: usize, now: u64) -> usize {
    let mut arrived = arrived;
    for _ in 0..flights.len() {
        match flights.front() {
            Some(flight) if flight.at <= now => arrived = flight.to,
            _ => break,
        }
        let _ = flights.pop_front();
    }
    arrived
}
