//! What answers the loop's calls.
ghost use Rattle.std.specs.Prelude.{◌≡◌, IfOk, OnErr};
ghost use Rattle.aio_wire.specs.Outside.{Outside};
ghost use Rattle.aio_wire.specs.Replied.{Replied, Unreplied, Stays, UnlessFailed};

use crate::call::{Answer, Call};
use aio_base::Memory;
use std::alloc::Global;

/// A journal's line that is no entry: its number from 1, and the cause.
#[derive(Clone, Copy, Debug, PartialEq, Eq)]
pub struct JournalFault {
    pub line: u64,
    pub cause: u8,
}

/// What a wire replies to a call.
#[derive(Drop)]
pub enum Reply {
    Got(Answer),
    /// No answer is left.
    Over,
    /// The next answer is a line that is none.
    Bad(JournalFault),
    /// The wire failed: its count of faults rose.
    Failed,
}

/// What answers the loop's calls: the real outside, or a journal of what it answered.
pub trait Wire {
    /// What is seen of it, that each call fails, what stays from call to call, what stays as long
    /// as no call fails, and the laws of these.
    ghost outside: { Outside Self };

    /// Asks one call. Want of memory is no failure.
    fn ask(&mut self, alloc: Global, call: &Call) -> Result<Reply, Memory>
        ensures replied { IfOk result
            (Replied call.now (outside.seen self.old) (outside.seen self.new)) }
        ensures unreplied { OnErr result
            (Unreplied call.now (outside.seen self.old) (outside.seen self.new)) }
        ensures stays { Stays (outside.seen self.old) (outside.seen self.new) }
        ensures fails { outside.fails self.old → IfOk result (λ reply. reply ≡ Reply.Failed) }
        ensures keeps { outside.keeps self.old self.new }
        ensures quiet { IfOk result (UnlessFailed (outside.quiet self.old self.new)) }
        ensures err { OnErr result (outside.quiet self.old self.new) };
}
