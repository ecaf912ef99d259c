//! For what a socket is registered with the system, and what the system reported of it.
use mio::event::{Event, Source};
use mio::{Interest, Poll, Token};
use std::io;

/// A round is one poll. The system reports a change once; to hear of it again, a socket is registered again.
#[derive(Clone, Copy)]
pub struct Registration {
    /// For what the socket is registered.
    interest: Option<Interest>,
    /// It was reported since it was registered.
    is_spent: bool,
    /// The last round that watched it.
    round: u64,
    /// What this round reported.
    pub is_readable: bool,
    pub is_writable: bool,
}

impl Registration {
    pub const fn new() -> Registration {
        Registration {
            interest: None,
            is_spent: false,
            round: 0,
            is_readable: false,
            is_writable: false,
        }
    }

    /// Notes what the system reports. A failure is told to who reads and to who writes.
    pub fn note(&mut self, event: &Event) {
        let failed = event.is_error() || event.is_read_closed() || event.is_write_closed();
        self.is_spent = true;
        self.is_readable = event.is_readable() || failed;
        self.is_writable = event.is_writable() || failed;
    }

    /// Has the system report the socket for this interest in this round.
    pub fn watch<S: Source>(
        &mut self,
        poll: &Poll,
        socket: &mut S,
        token: Token,
        interest: Interest,
        round: u64,
    ) -> io::Result<()> {
        self.begin(round);
        match self.interest {
            None => poll.registry().register(socket, token, interest)?,
            Some(before) => {
                if self.is_spent || before != interest {
                    poll.registry().reregister(socket, token, interest)?;
                }
            }
        }
        self.interest = Some(interest);
        self.is_spent = false;
        Ok(())
    }

    /// Nothing is reported so far in this round.
    pub fn begin(&mut self, round: u64) {
        self.round = round;
        self.is_readable = false;
        self.is_writable = false;
    }

    /// Ends the reports of a socket that this round does not watch.
    pub fn rest<S: Source>(&mut self, poll: &Poll, socket: &mut S, round: u64) -> io::Result<()> {
        if self.round == round || self.interest.is_none() {
            return Ok(());
        }
        self.interest = None;
        poll.registry().deregister(socket)
    }
}
