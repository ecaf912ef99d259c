//! A request that waits.
ghost use Rattle.std.specs.Prelude.{◌≡◌, ℕ, Some, IfOk, OnOk};
ghost use Rattle.model_dgram.specs.Endpoints as plain;
ghost use Rattle.model_dgram.specs.Texts.{offer_text, Datagram as PlainDatagram};
ghost use Rattle.aio_dgram.specs.Keeps.{found_of, future_of, moved, offering};

use crate::datagram::Datagram;
use aio_base::{Blob, Memory};
use aio_task::FutureId;
use std::alloc::Global;
use std::marker::Model;

/// A request that waits on a future, or for what the outside answers. A sender without a future has
/// asked the outside.
#[derive(Drop)]
pub enum Case {
    Opens,
    Sends {
        endpoint: u64,
        datagram: Datagram,
        on: Option<FutureId>,
    },
    Receives {
        endpoint: u64,
        on: FutureId,
    },
    Closes,
}

/// A request that waits. Contracts see it as the definitions have it.
#[derive(Drop)]
pub struct Waiting {
    case: Case,
}

impl Model for Waiting {
    ghost use Rattle.model_dgram.specs.Endpoints.{Waiting as PlainWaiting};
    ghost use Rattle.aio_dgram.specs.Code.{coded_waiting};
    ghost use Rattle.aio_dgram.specs.Keeps.{waiting_as};

    ghost Value = { PlainWaiting };

    ghost coded = { coded_waiting };

    ghost view = { λ a. waiting_as a.case };
}

/// Which it is, and on which endpoint.
#[derive(Clone, Copy)]
pub enum Found {
    Nothing,
    Opens,
    Offers { endpoint: u64 },
    Sends { endpoint: u64 },
    Receives { endpoint: u64 },
    Closes,
}

impl Waiting {
    /// It asked the outside for an endpoint.
    pub fn opens() -> Waiting
        ensures { result ≡ plain.Opens }
    {
        Waiting { case: Case::Opens }
    }

    /// It asked the outside to send a datagram.
    pub fn offers(endpoint: u64, datagram: Datagram) -> Waiting
        ensures { result ≡ plain.Offers endpoint datagram }
    {
        Waiting {
            case: Case::Sends {
                endpoint,
                datagram,
                on: None,
            },
        }
    }

    /// It stands in line to send a datagram.
    pub fn sends(endpoint: u64, datagram: Datagram, on: FutureId) -> Waiting
        ensures { result ≡ plain.Sends endpoint datagram on }
    {
        Waiting {
            case: Case::Sends {
                endpoint,
                datagram,
                on: Some(on),
            },
        }
    }

    /// It waits for a datagram.
    pub fn receives(endpoint: u64, on: FutureId) -> Waiting
        ensures { result ≡ plain.Receives endpoint on }
    {
        Waiting {
            case: Case::Receives { endpoint, on },
        }
    }

    /// It asked the outside to close an endpoint.
    pub fn closes() -> Waiting
        ensures { result ≡ plain.Closes }
    {
        Waiting { case: Case::Closes }
    }

    /// Which it is.
    pub fn found(&self) -> Found
        ensures { result ≡ found_of (Some self.now) }
    {
        match &self.case {
            Case::Opens => Found::Opens,
            Case::Sends {
                endpoint,
                datagram: _,
                on: None,
            } => Found::Offers {
                endpoint: *endpoint,
            },
            Case::Sends {
                endpoint,
                datagram: _,
                on: Some(_),
            } => Found::Sends {
                endpoint: *endpoint,
            },
            Case::Receives { endpoint, on: _ } => Found::Receives {
                endpoint: *endpoint,
            },
            Case::Closes => Found::Closes,
        }
    }

    /// The future on which it waits, if it waits on one.
    pub fn future(&self) -> Option<FutureId>
        ensures { result ≡ future_of self.now }
    {
        match &self.case {
            Case::Opens => None,
            Case::Sends {
                endpoint: _,
                datagram: _,
                on,
            } => *on,
            Case::Receives { endpoint: _, on } => Some(*on),
            Case::Closes => None,
        }
    }

    /// It waits on another future.
    pub fn move_to(&mut self, next: FutureId)
        ensures { self.new ≡ moved next self.old }
    {
        match &mut self.case {
            Case::Opens => {}
            Case::Sends {
                endpoint: _,
                datagram: _,
                on,
            } => *on = Some(next),
            Case::Receives { endpoint: _, on } => *on = next,
            Case::Closes => {}
        }
    }

    // What is asked of the outside to send its datagram.
    fn offer_text(&self, alloc: Global) -> Result<Blob, Memory>
        ensures { IfOk result (λ text. (id : ℕ) (it : PlainDatagram) (on : ℕ)
            → self.now ≡ plain.Sends id it on → text ≡ offer_text id it) }
    {
        match &self.case {
            Case::Sends {
                endpoint,
                datagram,
                on: _,
            } => datagram.offer_text(alloc, *endpoint),
            Case::Opens => Ok(Blob::of(Vec::new(alloc))),
            Case::Receives { endpoint: _, on: _ } => Ok(Blob::of(Vec::new(alloc))),
            Case::Closes => Ok(Blob::of(Vec::new(alloc))),
        }
    }

    // It waits on no future.
    fn leave_future(&mut self)
        ensures { self.new ≡ offering self.old }
    {
        match &mut self.case {
            Case::Opens => {}
            Case::Sends {
                endpoint: _,
                datagram: _,
                on,
            } => *on = None,
            Case::Receives { endpoint: _, on: _ } => {}
            Case::Closes => {}
        }
    }

    /// The outside is asked to send its datagram: what is asked.
    pub fn offer(&mut self, alloc: Global) -> Result<Blob, Memory>
        ensures text { IfOk result (λ text. (id : ℕ) (it : PlainDatagram) (on : ℕ)
            → self.old ≡ plain.Sends id it on → text ≡ offer_text id it) }
        ensures after { OnOk result (self.new ≡ offering self.old) }
    {
        let text = self.offer_text(alloc)?;
        self.leave_future();
        Ok(text)
    }
}
