//! A connection.
use crate::registration::Registration;
use mio::net::TcpStream;
use std::io;
use std::io::ErrorKind;

#[derive(Drop)]
pub struct Conn {
    pub stream: TcpStream,
    pub registration: Registration,
    /// Whether it stands, once that is known.
    is_up: Option<bool>,
}

impl Conn {
    /// One that was accepted.
    pub fn accepted(stream: TcpStream) -> Conn {
        Conn {
            stream,
            registration: Registration::new(),
            is_up: Some(true),
        }
    }

    /// One that is being made.
    pub fn begun(stream: TcpStream) -> Conn {
        Conn {
            stream,
            registration: Registration::new(),
            is_up: None,
        }
    }

    /// Whether it stands; none while that is open. The system says only once why it doesn't.
    /// Source: `selector_events.py`, `_sock_connect_cb`.
    pub fn outcome(&mut self) -> io::Result<Option<bool>> {
        if self.is_up.is_none() && self.registration.is_writable {
            self.is_up = outcome(&self.stream)?;
        }
        Ok(self.is_up)
    }
}

fn outcome(stream: &TcpStream) -> io::Result<Option<bool>> {
    if stream.take_error()?.is_some() {
        return Ok(Some(false));
    }
    match stream.peer_addr() {
        Ok(_) => Ok(Some(true)),
        Err(error) if error.kind() == ErrorKind::NotConnected => Ok(None),
        Err(error) => Err(error),
    }
}
