//! The open sockets. A call may fail; that is counted above.
use crate::address::here;
use crate::answers::{read_from, shut, write_to};
use crate::bell::PollerBell;
use crate::conn::Conn;
use crate::endpoints::{CLOSE, Endpoints};
use crate::errors::{is_failing, is_short, refused, unready};
use crate::server::Server;
use aio_base::Memory;
use aio_wire::{Answer, Call, Item, Readiness, Watch};
use indexmap::IndexMap;
use mio::event::Event;
use mio::net::{TcpListener, TcpStream};
use mio::{Events, Interest, Poll, Token, Waker};
use std::alloc::Global;
use std::io;
use std::io::ErrorKind;
use std::net::{Net, Shutdown};
use std::sync::Arc;
use std::time::Duration;

/// The most bytes that one recv takes.
const MOST_BYTES: usize = 262_144;

/// The most items that one poll finds.
const MOST_ITEMS: usize = 4_096;

/// The bell's token. That of listener N is four times N, that of connection N one more, that of endpoint N two more.
const BELL: Token = Token(usize::MAX);

#[derive(Drop)]
pub struct Sockets {
    poll: Poll,
    events: Events,
    waker: Arc<Waker, Global>,
    servers: IndexMap<u32, Server>,
    conns: IndexMap<u32, Conn>,
    endpoints: Endpoints,
    servers_made: u32,
    conns_made: u32,
    /// How many sockets were closed.
    closed: u64,
    round: u64,
    buffer: Vec<u8>,
}

impl Sockets {
    /// No socket.
    pub fn make<R: Net>(rt: &R, alloc: Global) -> io::Result<Sockets> {
        let poll = Poll::new(rt)?;
        let waker = Arc::new(alloc, Waker::new(poll.registry(), BELL)?)?;
        Ok(Sockets {
            poll,
            events: Events::with_capacity(alloc, MOST_ITEMS)?,
            waker,
            servers: IndexMap::new(alloc),
            conns: IndexMap::new(alloc),
            endpoints: Endpoints::new(alloc),
            servers_made: 0,
            conns_made: 0,
            closed: 0,
            round: 0,
            buffer: vec![in alloc; 0; MOST_BYTES]?,
        })
    }

    /// A bell that wakes this poller from any thread. Only want of memory fails.
    pub fn bell(&self) -> Result<PollerBell, Memory> {
        Ok(PollerBell::of(Arc::try_clone(&self.waker)?))
    }

    /// Waits for what is watched, from now on. What was found stands in the sockets.
    pub fn wait_for(&mut self, now: u64, wait: Option<u64>, watch: &[Watch]) -> io::Result<()> {
        self.round = self.round.wrapping_add(1);
        let mut wait = wait;
        for entry in watch {
            if let Some(rest) = self.watch_entry(*entry, now)? {
                wait = Some(wait.map_or(rest, |other| other.min(rest)));
            }
        }
        self.let_others_rest()?;
        match self
            .poll
            .poll(&mut self.events, wait.map(Duration::from_millis))
        {
            Ok(()) => {
                self.note_events();
                Ok(())
            }
            Err(error) if error.kind() == ErrorKind::Interrupted => Ok(()),
            Err(error) => Err(error),
        }
    }

    fn note_events(&mut self) {
        for event in self.events.iter() {
            note(
                &mut self.servers,
                &mut self.conns,
                &mut self.endpoints,
                event,
            );
        }
    }

    /// Watches an entry. A listener or an endpoint that rests isn't watched; then it says for how long.
    fn watch_entry(&mut self, entry: Watch, now: u64) -> io::Result<Option<u64>> {
        match entry {
            Watch::Server(number) => self.watch_server(number, now),
            Watch::Making(number) => self.watch_conn(number, Interest::WRITABLE),
            Watch::Conn {
                conn,
                reads,
                writes,
            } => match (reads, writes) {
                (true, true) => self.watch_conn(conn, Interest::READABLE | Interest::WRITABLE),
                (true, false) => self.watch_conn(conn, Interest::READABLE),
                (false, true) => self.watch_conn(conn, Interest::WRITABLE),
                (false, false) => Ok(None),
            },
            Watch::Child { .. } => Ok(None),
            Watch::Extra => Ok(
                self.endpoints
                    .watch(&self.poll, self.round, now, self.closed),
            ),
        }
    }

    fn watch_server(&mut self, number: u32, now: u64) -> io::Result<Option<u64>> {
        let Some(server) = self.servers.get_mut(&number) else {
            return Ok(None);
        };
        if let Some(rest) = server.rest.left(now, self.closed) {
            server.registration.begin(0);
            return Ok(Some(rest));
        }
        server.registration.watch(
            &self.poll,
            &mut server.listener,
            Token(number as usize * 4),
            Interest::READABLE,
            self.round,
        )?;
        Ok(None)
    }

    fn watch_conn(&mut self, number: u32, interest: Interest) -> io::Result<Option<u64>> {
        if let Some(conn) = self.conns.get_mut(&number) {
            conn.registration.watch(
                &self.poll,
                &mut conn.stream,
                Token(number as usize * 4 + 1),
                interest,
                self.round,
            )?;
        }
        Ok(None)
    }

    fn let_others_rest(&mut self) -> io::Result<()> {
        for server in self.servers.values_mut() {
            server
                .registration
                .rest(&self.poll, &mut server.listener, self.round)?;
        }
        for conn in self.conns.values_mut() {
            conn.registration
                .rest(&self.poll, &mut conn.stream, self.round)?;
        }
        self.endpoints.let_rest(&self.poll, self.round);
        Ok(())
    }

    /// What was found of what is watched, in that order, at this time.
    pub fn items_of(&mut self, alloc: Global, now: u64, watch: &[Watch]) -> io::Result<Vec<Item>> {
        let mut items = Vec::new(alloc);
        for entry in watch {
            if items.len() >= MOST_ITEMS {
                break;
            }
            if matches!(entry, Watch::Extra) {
                self.add_datagrams(alloc, now, &mut items)?;
            } else if let Some(item) = self.item_of(*entry)? {
                items.push(item)?;
            }
        }
        Ok(items)
    }

    /// Adds what came to endpoints.
    fn add_datagrams(&mut self, alloc: Global, now: u64, items: &mut Vec<Item>) -> io::Result<()> {
        self.endpoints.tell_room(alloc, MOST_ITEMS, items)?;
        self.endpoints.tell_datagrams(
            alloc,
            now,
            self.closed,
            MOST_ITEMS,
            self.buffer.as_mut_slice(),
            items,
        )
    }

    fn item_of(&mut self, entry: Watch) -> io::Result<Option<Item>> {
        match entry {
            Watch::Server(number) => Ok(self.server_item(number)),
            Watch::Making(number) => self.making_item(number),
            Watch::Conn {
                conn,
                reads,
                writes,
            } => Ok(self.conn_item(conn, reads, writes)),
            Watch::Child { .. } | Watch::Extra => Ok(None),
        }
    }

    fn server_item(&self, number: u32) -> Option<Item> {
        let server = self.servers.get(&number)?;
        server
            .registration
            .is_readable
            .then_some(Item::ReadableServer(number))
    }

    fn making_item(&mut self, number: u32) -> io::Result<Option<Item>> {
        let Some(conn) = self.conns.get_mut(&number) else {
            return Ok(None);
        };
        Ok(match conn.outcome()? {
            Some(true) => Some(Item::Up(number)),
            Some(false) => Some(Item::Down(number)),
            None => None,
        })
    }

    fn conn_item(&self, conn: u32, reads: bool, writes: bool) -> Option<Item> {
        let registration = self.conns.get(&conn)?.registration;
        let ready = match (
            reads && registration.is_readable,
            writes && registration.is_writable,
        ) {
            (true, true) => Readiness::Both,
            (true, false) => Readiness::Read,
            (false, true) => Readiness::Write,
            (false, false) => return None,
        };
        Some(Item::Ready { conn, ready })
    }

    /// What a call on a socket comes to, at this time.
    pub fn answer<R: Net>(
        &mut self,
        rt: &R,
        alloc: Global,
        call: &Call,
        now: u64,
    ) -> io::Result<Answer> {
        match call {
            Call::Listen(port) => self.listen(rt, *port),
            Call::Accept(server) => self.accept(*server, now),
            Call::Connect(port) => self.connect(rt, *port),
            Call::Recv(conn) => self.recv(alloc, *conn),
            Call::Send { conn, bytes } => self.send(*conn, bytes.items()),
            Call::Shut(conn) => self.shut(*conn),
            Call::Close(conn) => {
                self.conns.swap_remove(conn);
                self.closed = self.closed.wrapping_add(1);
                Ok(Answer::Done)
            }
            Call::CloseServer(server) => {
                self.servers.swap_remove(server);
                self.closed = self.closed.wrapping_add(1);
                Ok(Answer::Done)
            }
            Call::Extra { code, bytes } => self.on_endpoint(rt, alloc, *code, bytes.items()),
            Call::Select { .. }
            | Call::Feed { .. }
            | Call::End(_)
            | Call::Kill(_)
            | Call::Launch(_) => Err(io::Error::from(ErrorKind::Unsupported)),
        }
    }

    fn on_endpoint<R: Net>(
        &mut self,
        rt: &R,
        alloc: Global,
        code: i64,
        text: &[u8],
    ) -> io::Result<Answer> {
        let answer = self.endpoints.answer(rt, alloc, code, text)?;
        if code == CLOSE {
            self.closed = self.closed.wrapping_add(1);
        }
        Ok(answer)
    }

    fn listen<R: Net>(&mut self, rt: &R, port: u16) -> io::Result<Answer> {
        let listener = match TcpListener::bind(rt, here(port)) {
            Ok(listener) => listener,
            Err(error) => return refused(error),
        };
        let number = self.servers_made;
        self.servers.insert(number, Server::new(listener))?;
        self.servers_made = number.saturating_add(1);
        Ok(Answer::Done)
    }

    fn accept(&mut self, number: u32, now: u64) -> io::Result<Answer> {
        let Some(server) = self.servers.get_mut(&number) else {
            return Ok(Answer::Broken);
        };
        match server.listener.accept() {
            Ok((stream, _)) => self.keep(Conn::accepted(stream)),
            Err(error) if is_short(&error) || is_failing(&error) => {
                server.rest.begin(now, self.closed);
                Ok(Answer::Again)
            }
            Err(error) => unready(error),
        }
    }

    fn connect<R: Net>(&mut self, rt: &R, port: u16) -> io::Result<Answer> {
        match TcpStream::connect(rt, here(port)) {
            Ok(stream) => self.keep(Conn::begun(stream)),
            Err(error) => refused(error),
        }
    }

    /// A connection of which the system refuses to send small pieces at once is kept all the same.
    fn keep(&mut self, conn: Conn) -> io::Result<Answer> {
        let _ = conn.stream.set_nodelay(true);
        let number = self.conns_made;
        self.conns.insert(number, conn)?;
        self.conns_made = number.saturating_add(1);
        Ok(Answer::Conn)
    }

    fn recv(&mut self, alloc: Global, conn: u32) -> io::Result<Answer> {
        let Some(conn) = self.conns.get(&conn) else {
            return Ok(Answer::Broken);
        };
        read_from(alloc, &mut &conn.stream, self.buffer.as_mut_slice())
    }

    fn send(&mut self, conn: u32, bytes: &[u8]) -> io::Result<Answer> {
        let Some(conn) = self.conns.get(&conn) else {
            return Ok(Answer::Broken);
        };
        write_to(&mut &conn.stream, bytes)
    }

    fn shut(&mut self, conn: u32) -> io::Result<Answer> {
        let Some(conn) = self.conns.get(&conn) else {
            return Ok(Answer::Done);
        };
        shut(conn.stream.shutdown(Shutdown::Write))
    }
}

/// Notes an event at the socket that its token names.
fn note(
    servers: &mut IndexMap<u32, Server>,
    conns: &mut IndexMap<u32, Conn>,
    endpoints: &mut Endpoints,
    event: &Event,
) {
    let Token(token) = event.token();
    let Ok(number) = u32::try_from(token / 4) else {
        return;
    };
    match token % 4 {
        0 => {
            if let Some(server) = servers.get_mut(&number) {
                server.registration.note(event);
            }
        }
        1 => {
            if let Some(conn) = conns.get_mut(&number) {
                conn.registration.note(event);
            }
        }
        _ => endpoints.note(number, event),
    }
}
