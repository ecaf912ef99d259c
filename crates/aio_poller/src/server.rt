//! A listener.
use crate::registration::Registration;
use crate::rest::Rest;
use mio::net::TcpListener;

#[derive(Drop)]
pub struct Server {
    pub listener: TcpListener,
    pub registration: Registration,
    /// It rests after the system had no descriptor left.
    pub rest: Rest,
}

impl Server {
    /// The server of a listener that was just opened: nothing is registered of it.
    pub fn new(listener: TcpListener) -> Server {
        Server {
            listener,
            registration: Registration::new(),
            rest: Rest::none(),
        }
    }
}
