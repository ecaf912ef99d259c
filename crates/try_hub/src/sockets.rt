//! Cases over the system's own sockets, one after another over one poller.
ghost use Rattle.std.specs.Prelude.{◌≡◌, true};
ghost use Rattle.model_hub.specs.Told.{is_socket};

use crate::datagrams::run_datagrams;
use crate::telling::{is_told, say_items};
use aio_base::Memory;
use aio_hub::{Polled, Poller};
use aio_poller::RealPoller;
use aio_pump::Bell;
use aio_wire::{Call, ItemList, Watch, WatchList};
use std::alloc::Global;
use std::io;
use std::net::Net;
use std::time::Clock;
use try_row::{RowCount, Wanted, blob_of};

/// The ports that are tried, from the first, until one is free.
const FIRST_PORT: u16 = 28_411;

const PORTS: u16 = 200;

/// A poll that waits for an item asks so often.
const POLLS: u32 = 200;

/// What a poll waits for at most, in milliseconds.
const WAIT: u64 = 100;

/// Longer than any case takes, in milliseconds.
const LONG: u64 = 30_000;

/// What a case does over the poller.
#[derive(Clone, Copy)]
enum Does {
    /// Listens at the first port that is free.
    Find,
    Listen,
    Accept,
    Connect,
    Recv(u32),
    /// Sends `hello` from connection 0.
    Hello,
    Shut(u32),
    Close(u32),
    CloseServer,
    /// Polls until something comes of this: the listener, a connection that is being made, one that reads, or one that reads and
    /// writes.
    Waits(Watch),
    Reads(u32),
    ReadsOrWrites(u32),
    /// A poll that waits long, and whose bell was rung, ends before.
    Rings,
}

/// Each case's name, what it does, and what is answered: two connections of one listener, with bytes from one to the other; one
/// side ends, and then the other closes; nobody listens.
static CASES: [(&str, Does, &str); 25] = [
    ("a port", Does::Find, "ok"),
    ("the same port", Does::Listen, "refused"),
    ("nobody came", Does::Accept, "again"),
    ("a connection", Does::Connect, "conn"),
    ("it comes", Does::Waits(Watch::Making(0)), "; 0 up"),
    (
        "the listener",
        Does::Waits(Watch::Server(0)),
        "; 0 readable",
    ),
    ("it is taken", Does::Accept, "conn"),
    ("nobody else", Does::Accept, "again"),
    ("nothing yet", Does::Recv(1), "again"),
    ("it may write", Does::ReadsOrWrites(0), "; 0 w"),
    ("hello", Does::Hello, "took 5"),
    ("hello comes", Does::Reads(1), "; 1 r"),
    ("hello is read", Does::Recv(1), "data hello"),
    ("a side ends", Does::Shut(0), "ok"),
    ("the end comes", Does::Reads(1), "; 1 r"),
    ("the end is read", Does::Recv(1), "eof"),
    ("it closes", Does::Close(1), "ok"),
    ("the other hears", Does::Reads(0), "; 0 r"),
    ("and reads", Does::Recv(0), "eof"),
    ("and closes", Does::Close(0), "ok"),
    ("no such connection", Does::Recv(0), "broken"),
    ("the listener closes", Does::CloseServer, "ok"),
    ("another connection", Does::Connect, "conn"),
    ("nobody listens", Does::Waits(Watch::Making(2)), "; 2 down"),
    ("a bell", Does::Rings, ""),
];

/// Runs all cases, prints what came of them, and answers how many differed.
pub fn run_sockets<R: Net + Clock + Print + Copy>(rt: R, alloc: Global) -> io::Result<u64> {
    let poller = RealPoller::make(rt, alloc)?;
    let mut sockets = Sockets {
        poller,
        port: FIRST_PORT,
    };
    let ran = sockets.run(&rt, alloc);
    drop(sockets);
    let mut tally = ran?;
    run_datagrams(rt, alloc, &mut tally)?;
    tally.print(&rt)
}

#[derive(Drop)]
struct Sockets<R> {
    poller: RealPoller<R>,
    port: u16,
}

impl<R: Net + Clock> Sockets<R> {
    fn run<P: Print>(&mut self, rt: &P, alloc: Global) -> io::Result<RowCount> {
        let mut tally = RowCount::new();
        for (name, does, told) in &CASES {
            let right = self.is_right(alloc, *does, told);
            tally.count(rt, name, right)?;
        }
        Ok(tally)
    }

    fn is_right(&mut self, alloc: Global, does: Does, told: &str) -> bool {
        match does {
            Does::Find => self.finds_port(alloc, told),
            Does::Waits(entry) => self.comes(alloc, entry, told),
            Does::Reads(conn) => self.comes(alloc, watch_of(conn, false), told),
            Does::ReadsOrWrites(conn) => self.comes(alloc, watch_of(conn, true), told),
            Does::Rings => self.rings(alloc),
            Does::Listen
            | Does::Accept
            | Does::Connect
            | Does::Recv(_)
            | Does::Hello
            | Does::Shut(_)
            | Does::Close(_)
            | Does::CloseServer => self.answers(alloc, call_of(alloc, self.port, does), told),
        }
    }

    fn finds_port(&mut self, alloc: Global, told: &str) -> bool {
        for other in 0..PORTS {
            self.port = FIRST_PORT + other;
            if self.answers(alloc, Call::Listen(self.port), told) {
                return true;
            }
        }
        false
    }

    fn answers(&mut self, alloc: Global, call: Call, told: &str) -> bool
        requires { is_socket call ≡ true }
    {
        let said = self.poller.net(alloc, &call);
        drop(call);
        let right = is_told(&said, told);
        drop(said);
        right
    }

    /// Polls until something comes, and says whether it is told so.
    fn comes(&mut self, alloc: Global, entry: Watch, told: &str) -> bool {
        for _ in 0..POLLS {
            if let Some(right) = self.look(alloc, entry, told) {
                return right;
            }
        }
        false
    }

    // One poll: nothing where nothing came.
    fn look(&mut self, alloc: Global, entry: Watch, told: &str) -> Option<bool> {
        match Vec::from_slice(alloc, &[entry]) {
            Ok(watch) => match self.poll(alloc, WAIT, WatchList::of(watch)) {
                Some((_now, items)) => {
                    let came = came_of(&items, told);
                    drop(items);
                    came
                }
                None => Some(false),
            },
            Err(_) => Some(false),
        }
    }

    // When a poll was done that waits so long, and what came; nothing where it failed.
    fn poll(&mut self, alloc: Global, wait: u64, watch: WatchList) -> Option<(u64, ItemList)> {
        let polled = self.poller.poll(alloc, Some(wait), &watch);
        drop(watch);
        match polled {
            Ok(Polled::Ready { now, items }) => Some((now, items)),
            Ok(Polled::Failed) | Err(Memory) => None,
        }
    }

    fn rings(&mut self, alloc: Global) -> bool {
        let before = self.time(alloc, 0);
        let rang = self.ring();
        let after = self.time(alloc, LONG);
        match (before, after) {
            (Some(before), Some(after)) => rang && after.saturating_sub(before) < LONG,
            _ => false,
        }
    }

    fn ring(&self) -> bool {
        match self.poller.bell() {
            Ok(mut bell) => {
                bell.ring();
                drop(bell);
                true
            }
            Err(Memory) => false,
        }
    }

    // When a poll of nothing was done that waits so long.
    fn time(&mut self, alloc: Global, wait: u64) -> Option<u64> {
        match self.poll(alloc, wait, WatchList::of(Vec::new(alloc))) {
            Some((now, items)) => {
                drop(items);
                Some(now)
            }
            None => None,
        }
    }
}

fn watch_of(conn: u32, writes: bool) -> Watch {
    Watch::Conn {
        conn,
        reads: true,
        writes,
    }
}

fn came_of(items: &ItemList, told: &str) -> Option<bool> {
    if items.items().is_empty() {
        return None;
    }
    let mut wanted = Wanted::new(told.as_bytes());
    say_items(items.items(), &mut wanted);
    Some(wanted.is_told())
}

// The call that a case asks. What is no call of a case closes the listener.
fn call_of(alloc: Global, port: u16, does: Does) -> Call
    ensures { is_socket result ≡ true }
{
    match does {
        Does::Find | Does::Listen => Call::Listen(port),
        Does::Accept => Call::Accept(0),
        Does::Connect => Call::Connect(port),
        Does::Recv(conn) => Call::Recv(conn),
        Does::Hello => Call::Send {
            conn: 0,
            bytes: blob_of(alloc, b"hello"),
        },
        Does::Shut(conn) => Call::Shut(conn),
        Does::Close(conn) => Call::Close(conn),
        Does::CloseServer
        | Does::Waits(_)
        | Does::Reads(_)
        | Does::ReadsOrWrites(_)
        | Does::Rings => Call::CloseServer(0),
    }
}
