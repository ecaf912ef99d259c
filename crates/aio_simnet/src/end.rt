//! One end of a connection.
ghost use Rattle.std.specs.Prelude.{◌≡◌, true, None, OnOk, OnErr, IfOk};
ghost use Rattle.aio_simnet.specs.Heard.{Hears};

use crate::pipe::Pipe;
use crate::service::Service;
use aio_base::{Blob, Memory};
use aio_wire::{Answer, Readiness};
use std::alloc::Global;

/// What becomes of a connection that is being made.
#[derive(Clone, Copy)]
pub(crate) enum Making {
    /// It stands from this time on.
    Up(u64),
    /// It can't be made, which is known at this time.
    Down(u64),
}

/// One end of a connection: the other end's place among all ends, what comes to it, and what else is known of it.
#[derive(Drop)]
pub(crate) struct End {
    pub other: usize,
    pub incoming: Pipe,
    pub making: Making,
    /// When it meets a reset, where one is on its way.
    pub reset_at: Option<u64>,
    /// After how many calls it is reset, where that is to happen.
    pub calls_left: Option<u32>,
    pub is_closed: bool,
    /// Who is at this end, where it is no task.
    pub service: Option<Service>,
}

impl End {
    /// An end to which nothing has come.
    pub fn new(alloc: Global, other: usize, making: Making, calls_left: Option<u32>) -> End {
        End {
            other,
            incoming: Pipe::new(alloc),
            making,
            reset_at: None,
            calls_left,
            is_closed: false,
            service: None,
        }
    }

    /// Whether it has met a reset.
    pub fn is_reset(&self, now: u64) -> bool {
        has_come(self.reset_at, now)
    }

    /// It meets a reset at a time, or at the one that is on its way already where that is sooner.
    pub fn reset(&mut self, at: u64)
        ensures { self.new.incoming ≡ self.old.incoming }
    {
        self.reset_at = Some(sooner(self.reset_at, at));
    }

    /// When something can be received: bytes, the end or a reset.
    pub fn readable_at(&self) -> Option<u64> {
        match self.incoming.ready_at() {
            Some(at) => Some(sooner(self.reset_at, at)),
            None => self.reset_at,
        }
    }

    /// What it is ready for of what is watched; nothing once it is closed.
    pub fn readiness(&self, reads: bool, writes: bool, now: u64) -> Option<Readiness>
        ensures { self.now.is_closed ≡ true → result ≡ None }
    {
        if self.is_closed {
            return None;
        }
        let reads = reads && has_come(self.readable_at(), now);
        match (reads, writes) {
            (true, true) => Some(Readiness::Both),
            (true, false) => Some(Readiness::Read),
            (false, true) => Some(Readiness::Write),
            (false, false) => None,
        }
    }

    /// Receives the next bytes, so many.
    pub fn hear(&mut self, alloc: Global, count: usize) -> Result<Blob, Memory>
        ensures hears { IfOk result (λ bytes. Hears self.old.incoming self.new.incoming bytes) }
        ensures unchanged { OnErr result (self.new.incoming ≡ self.old.incoming) }
    {
        let count = count.min(self.incoming.unheard());
        self.incoming.hear(alloc, count)
    }

    /// What a receive finds where no byte is there.
    pub fn nothing_here(&self, now: u64) -> Answer {
        if self.is_reset(now) {
            return Answer::Broken;
        }
        if self.incoming.is_over(now) {
            return Answer::Eof;
        }
        Answer::Again
    }
}

/// The sooner of two times, the first of which may be none.
pub(crate) fn sooner(first: Option<u64>, second: u64) -> u64 {
    match first {
        Some(at) => at.min(second),
        None => second,
    }
}

/// Whether a time has come.
pub(crate) fn has_come(at: Option<u64>, now: u64) -> bool {
    match at {
        Some(at) => at <= now,
        None => false,
    }
}
