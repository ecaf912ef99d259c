//! One child.
ghost use Rattle.std.specs.Prelude.{◌≡◌, true, false, None, IsSome};

use crate::program::Reading;
use aio_simnet::Pipe;
use std::alloc::Global;

/// When something is seen, and the code of an exit.
#[derive(Clone, Copy)]
pub(crate) struct Exit {
    pub at: u64,
    pub code: i64,
}

/// A child: what it does with what it reads, what it has read and not said, its two pipes, when it ends, and what is seen of
/// that and when.
#[derive(Drop)]
pub(crate) struct Child {
    pub reading: Reading,
    pub held: Vec<u8>,
    pub out: Pipe,
    pub errs: Pipe,
    /// When it ends, where that is known.
    pub ends_at: Option<u64>,
    /// When its exit is seen, and with which code.
    pub exit: Option<Exit>,
    /// When its standard input is seen to be broken.
    pub broken_at: Option<u64>,
    /// How much longer others hold its pipes.
    pub left: u32,
    pub is_exit_told: bool,
    pub is_broken_told: bool,
    pub is_out_told: bool,
    pub is_errs_told: bool,
}

impl Child {
    /// One that has done nothing.
    pub fn new(alloc: Global) -> Child {
        Child {
            reading: Reading::Ignores,
            held: Vec::new(alloc),
            out: Pipe::new(alloc),
            errs: Pipe::new(alloc),
            ends_at: None,
            exit: None,
            broken_at: None,
            left: 0,
            is_exit_told: false,
            is_broken_told: false,
            is_out_told: false,
            is_errs_told: false,
        }
    }

    /// Whether it has ended by a time.
    pub fn has_ended(&self, now: u64) -> bool {
        has_come(self.ends_at, now)
    }

    /// Whether its standard input is seen to be broken.
    pub fn is_broken(&self, now: u64) -> bool {
        has_come(self.broken_at, now)
    }

    /// How many bytes it was fed or has said that nobody has heard.
    pub fn unheard(&self) -> usize {
        self.held.len().saturating_add(self.out.unheard())
    }

    /// When its exit can be told, once.
    pub fn exit_at(&self) -> Option<u64>
        ensures { self.now.is_exit_told ≡ true → result ≡ None }
    {
        if self.is_exit_told {
            return None;
        }
        match self.exit {
            Some(exit) => Some(exit.at),
            None => None,
        }
    }

    /// The code of its exit, where that is to be told by now; it is told once.
    pub fn tell_exit(&mut self, now: u64) -> Option<i64>
        ensures once { self.old.is_exit_told ≡ true → result ≡ None }
        ensures told { IsSome result → self.new.is_exit_told ≡ true }
        ensures stays { self.old.is_exit_told ≡ true → self.new.is_exit_told ≡ true }
    {
        if self.is_exit_told {
            return None;
        }
        match self.exit {
            Some(exit) if exit.at <= now => {
                self.is_exit_told = true;
                Some(exit.code)
            }
            _ => None,
        }
    }

    /// When it can be told that its standard input is broken, once.
    pub fn breaks_at(&self) -> Option<u64> {
        if self.is_broken_told {
            None
        } else {
            self.broken_at
        }
    }

    /// Whether it is to be told by now that its standard input is broken; it is told once.
    pub fn tell_broken(&mut self, now: u64) -> bool
        ensures once { self.old.is_broken_told ≡ true → result ≡ false }
        ensures told { result ≡ true → self.new.is_broken_told ≡ true }
    {
        if self.is_broken_told || !self.is_broken(now) {
            return false;
        }
        self.is_broken_told = true;
        true
    }

    /// When its standard output has something to tell.
    pub fn out_at(&self) -> Option<u64> {
        if self.is_out_told {
            None
        } else {
            self.out.ready_at()
        }
    }

    /// When its standard error has something to tell.
    pub fn errs_at(&self) -> Option<u64> {
        if self.is_errs_told {
            None
        } else {
            self.errs.ready_at()
        }
    }

    /// Whether the end of its standard output is to be told by now; it is told once.
    pub fn tell_out_end(&mut self, now: u64) -> bool
        ensures once { self.old.is_out_told ≡ true → result ≡ false }
        ensures told { result ≡ true → self.new.is_out_told ≡ true }
    {
        if self.is_out_told || !self.out.is_over(now) {
            return false;
        }
        self.is_out_told = true;
        true
    }

    /// Whether the end of its standard error is to be told by now; it is told once.
    pub fn tell_errs_end(&mut self, now: u64) -> bool
        ensures once { self.old.is_errs_told ≡ true → result ≡ false }
        ensures told { result ≡ true → self.new.is_errs_told ≡ true }
    {
        if self.is_errs_told || !self.errs.is_over(now) {
            return false;
        }
        self.is_errs_told = true;
        true
    }
}

/// Whether a time has come.
pub(crate) fn has_come(at: Option<u64>, now: u64) -> bool {
    match at {
        Some(at) => at <= now,
        None => false,
    }
}
