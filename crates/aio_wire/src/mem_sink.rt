//! A sink in memory.
ghost use Rattle.std.specs.Prelude.{◌≡◌, ℕ, List, [], ◌++◌, Some, length, IfOk, OnErr, OnOk};

use crate::sink::{Sink, SinkTook};
use aio_base::Memory;
use std::alloc::Global;
use std::marker::Model;

/// A sink that keeps what it took, all of each piece. It never fails. Contracts see the bytes that
/// it took.
#[derive(Drop)]
pub struct MemSink {
    bytes: Vec<u8>,
}

impl Model for MemSink {
    ghost Value = { List ℕ };

    ghost view = { λ sink. sink.bytes.items };
}

impl MemSink {
    /// A sink that took nothing yet.
    pub fn new(alloc: Global) -> MemSink
        ensures { result ≡ [] }
    {
        MemSink {
            bytes: Vec::new(alloc),
        }
    }

    /// What was taken so far.
    pub fn taken(&self) -> &[u8]
        ensures { result.now ≡ self.now }
    {
        self.bytes.as_slice()
    }
}

impl Sink for MemSink {
    ghost seen = { λ sink. record { taken = Some sink; faults = 0 } };

    fn write(&mut self, _alloc: Global, piece: &[u8]) -> Result<SinkTook, Memory>
        ensures whole { IfOk result (λ took. took ≡ SinkTook.Took (length piece.now)) }
        ensures after { OnOk result (self.new ≡ self.old ++ piece.now) }
        ensures unchanged { OnErr result (self.new ≡ self.old) }
    {
        self.bytes.extend_from_slice(piece)?;
        Ok(SinkTook::Took(piece.len()))
    }
}
