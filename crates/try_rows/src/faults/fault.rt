//! Which call of the outside fails.
use aio_base::Memory;
use std::alloc::Global;

/// A part of the outside.
#[derive(Clone, Copy)]
pub enum Part {
    Wire,
    Shelf,
    Sink,
}

impl Part {
    /// Its name.
    pub fn word(self) -> &'static str {
        match self {
            Part::Wire => "wire",
            Part::Shelf => "shelf",
            Part::Sink => "sink",
        }
    }
}

/// The call that fails: one of a part, counted from 1. No call has the number 0.
#[derive(Clone, Copy)]
pub struct Fault {
    pub part: Part,
    pub number: u64,
}

/// No call fails.
pub const NONE: Fault = Fault {
    part: Part::Wire,
    number: 0,
};

impl Fault {
    /// Which calls of the wire fail.
    pub fn of_wire(self, alloc: Global) -> Result<Vec<u64>, Memory> {
        let mut calls = Vec::new(alloc);
        if matches!(self.part, Part::Wire) {
            calls.push(self.number)?;
        }
        Ok(calls)
    }
}
