//! Datagrams, and how they are told to the outside and by it.
ghost use Rattle.std.specs.Prelude.{◌≡◌, ◌<◌, ◌^◌, None, Some, IfOk, nat_lt, pos};
ghost use Rattle.std.specs.Option.{option_map};
ghost use Rattle.std.specs.Rc.{rc_slice_items};
ghost use Rattle.model_dgram.specs.Texts as plain;
ghost use Rattle.model_dgram.specs.Receiving.{told_as};
ghost use Rattle.aio_dgram.specs.Told.{came_as};

use aio_base::{Blob, Memory, Value};
use aio_fields::numbered;
use std::alloc::Global;
use std::marker::Model;
use std::rc::RcSlice;

// The most bytes that one may have.
const MOST: usize = 65_507;

/// A datagram, with the port that it goes to or came from.
#[derive(Drop)]
pub struct Datagram {
    port: u16,
    bytes: RcSlice<u8>,
}

impl Model for Datagram {
    ghost use Rattle.std.specs.Rc.{rc_slice_items};
    ghost use Rattle.model_dgram.specs.Texts.{Datagram as PlainDatagram};
    ghost use Rattle.aio_dgram.specs.Code.{coded_datagram};

    ghost Value = { PlainDatagram };

    ghost coded = { coded_datagram };

    ghost view = { λ a. record { port = a.port; bytes = rc_slice_items a.bytes } };
}

/// A datagram that came to an endpoint, as it is told.
#[derive(Clone, Copy)]
pub struct Came<'a> {
    pub endpoint: u64,
    pub port: u16,
    pub bytes: &'a [u8],
}

fn port_in(port: u64) -> Option<u16>
    ensures { result ≡ plain.port_in port }
{
    if port >= 1 && port <= 65_535 {
        Some(port as u16)
    } else {
        None
    }
}

/// A port, where it is one.
pub fn port_of(port: i64) -> Option<u16>
    ensures { result ≡ plain.port_of port }
{
    if port < 0 {
        return None;
    }
    port_in(port as u64)
}

/// Whether that are more bytes than a datagram may have.
pub fn is_too_long(len: usize) -> bool
    ensures { result ≡ nat_lt plain.most_sent len }
{
    len > MOST
}

/// Which datagram came to which endpoint; none where the text has another form.
pub fn came_in(text: &[u8]) -> Option<Came<'_>>
    ensures { option_map came_as result ≡ plain.came_in text.now }
{
    let Some((endpoint, rest)) = numbered(text) else {
        return None;
    };
    let Some((port, bytes)) = numbered(rest) else {
        return None;
    };
    match port_in(port) {
        Some(port) => Some(Came {
            endpoint,
            port,
            bytes,
        }),
        None => None,
    }
}

fn forget(_bytes: Blob) {}

impl Datagram {
    /// Bytes that go to a port.
    pub fn new(port: u16, bytes: RcSlice<u8>) -> Datagram
        ensures { result ≡ record { port = port; bytes = rc_slice_items bytes } }
    {
        Datagram { port, bytes }
    }

    /// One that came, of which the bytes are copied.
    pub fn of(alloc: Global, came: Came<'_>) -> Result<Datagram, Memory>
        ensures { IfOk result (λ it. it ≡ (came_as came.entry).datagram) }
    {
        Ok(Datagram {
            port: came.port,
            bytes: RcSlice::from_slice(alloc, came.bytes)?,
        })
    }

    /// As it is told to the outside, for an endpoint.
    pub fn offer_text(&self, alloc: Global, endpoint: u64) -> Result<Blob, Memory>
        ensures { IfOk result (λ text. text ≡ plain.offer_text endpoint self.now) }
    {
        let port = self.port;
        let front = format!(in alloc; "{endpoint} {port} ")?;
        let mut text = Blob::of(front.into_bytes());
        if let Err(refused) = text.extend(self.bytes.as_slice()) {
            forget(text);
            return Err(refused);
        }
        Ok(text)
    }

    /// As a script sees it.
    pub fn told(self, alloc: Global) -> Result<Value, Memory>
        ensures { IfOk result (λ value. value ≡ told_as self) }
    {
        let Datagram { port, bytes } = self;
        let items = vec![in alloc; Value::int(i64::from(port)), Value::bytes(bytes)]?;
        Value::list_from(alloc, items)
    }
}
