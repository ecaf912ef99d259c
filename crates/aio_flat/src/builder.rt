//! Code of a body, operation by operation.
ghost use Rattle.std.specs.Prelude.{◌≡◌, ◌<◌, [], length, IfOk, OnOk};
ghost use Rattle.aio_flat.specs.Built.{built};
ghost use Rattle.aio_flat.specs.Grows.{with_op, with_range, put_op};

use crate::body::{Op, Range};
use aio_base::Memory;
use std::alloc::Global;

/// The operations and the ranges of a body so far.
#[derive(Drop)]
pub struct BodyBuilder {
    pub ops: Vec<Op>,
    pub ranges: Vec<Range>,
}

impl BodyBuilder {
    /// No operations, ranges and variables yet.
    pub fn new(alloc: Global) -> BodyBuilder
        ensures { built result ≡ record { ops = []; ranges = []; variables = [] } }
    {
        BodyBuilder {
            ops: Vec::new(alloc),
            ranges: Vec::new(alloc),
        }
    }

    /// Where the next operation will stand.
    pub fn next_place(&self) -> usize
        ensures { result ≡ length self.now.ops.items }
    {
        self.ops.len()
    }

    /// Puts an operation behind the others.
    pub fn push_op(&mut self, op: Op) -> Result<(), Memory>
        ensures { OnOk result (built self.new ≡ with_op op (built self.old)) }
    {
        self.ops.push(op)?;
        Ok(())
    }

    /// Another operation stands at a place.
    pub fn put_op(&mut self, place: usize, op: Op)
        requires { place < length self.old.ops.items }
        ensures { built self.new ≡ put_op place op (built self.old) }
    {
        self.ops[place] = op;
    }

    /// A further range, with its number.
    pub fn push_range(&mut self, range: Range) -> Result<usize, Memory>
        ensures number { IfOk result (λ number. number ≡ length self.old.ranges.items) }
        ensures range { OnOk result (built self.new ≡ with_range range (built self.old)) }
    {
        let number = self.ranges.len();
        self.ranges.push(range)?;
        Ok(number)
    }
}
