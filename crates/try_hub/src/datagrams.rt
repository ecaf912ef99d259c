//! Cases of endpoints of datagrams over the system's own sockets, one after another over one poller.
ghost use Rattle.std.specs.Prelude.{◌≡◌, true, IfSome};
ghost use Rattle.model_hub.specs.Told.{is_socket};

use crate::telling::is_told;
use aio_base::{Blob, Memory};
use aio_hub::{Polled, Poller, is_datagram};
use aio_poller::RealPoller;
use aio_wire::{Call, Item, ItemList, Watch, WatchList};
use std::alloc::Global;
use std::io;
use std::net::Net;
use std::time::Clock;
use try_row::{RowCount, blob_of};

/// How many ports are tried for an endpoint, from its first.
const PORTS: u16 = 200;

/// A poll that waits for an item asks so often.
const POLLS: u32 = 200;

/// What a poll waits for at most, in milliseconds.
const WAIT: u64 = 100;

/// Ports, and endpoints by their numbers.
const A: usize = 0;

const B: usize = 1;

/// What a case does over the poller, and what must come of it.
#[derive(Clone, Copy)]
enum Does {
    /// Opens an endpoint at the first free port of some, which is so named: its number.
    Find(usize, &'static str),
    /// Opens one at this port.
    Open(usize, &'static str),
    /// The endpoint with this number sends these bytes to this port.
    Send(u32, usize, &'static [u8], &'static str),
    /// The same with so many bytes.
    SendLong(u32, usize, usize, &'static str),
    /// Any added request with this code and text.
    Ask(i64, &'static [u8], &'static str),
    /// These come to the endpoint with this number from this port, in order, and nothing else.
    Come(u32, usize, &'static [&'static [u8]]),
    /// One poll brings so many datagrams of the endpoint with the number 1, and so many of that with the number 2.
    Share(usize, usize),
    /// The endpoint with this number sends so many datagrams to each of the two ports.
    Flood(u32, u32),
    /// A poll that doesn't watch for datagrams finds none, and waits for as long as it may.
    Unwatched,
}

static CASES: [(&str, Does); 28] = [
    ("an endpoint", Does::Find(A, "extra 0")),
    ("another endpoint", Does::Find(B, "extra 1")),
    ("a port that is taken", Does::Open(A, "refused")),
    ("a port that is none", Does::Ask(400, b"0", "refused")),
    ("no port", Does::Ask(400, b"x", "refused")),
    ("hello", Does::Send(0, B, b"hello", "extra sent")),
    ("hello comes", Does::Come(1, A, &[b"hello"])),
    ("one way", Does::Send(0, B, b"one", "extra sent")),
    ("the same way", Does::Send(0, B, b"two", "extra sent")),
    ("nobody looks", Does::Unwatched),
    ("two come in order", Does::Come(1, A, &[b"one", b"two"])),
    ("the other way", Does::Send(1, A, b"a b", "extra sent")),
    ("a space comes", Does::Come(0, B, &[b"a b"])),
    (
        "what comes isn't asked for",
        Does::Ask(402, b"0", "refused"),
    ),
    ("a number of none", Does::Ask(401, b"9 10 ab", "refused")),
    ("a text of none", Does::Ask(401, b"0 ab", "refused")),
    ("the greatest", Does::SendLong(0, B, 65_507, "extra sent")),
    (
        "the greatest again",
        Does::SendLong(0, B, 65_507, "extra sent"),
    ),
    ("behind them", Does::Send(0, B, b"end", "extra sent")),
    (
        "one byte more",
        Does::SendLong(0, B, 65_508, "extra failed"),
    ),
    ("two fill a poll's share", Does::Share(2, 0)),
    ("the last", Does::Come(1, A, &[b"end"])),
    ("an endpoint closes", Does::Ask(403, b"0", "extra ")),
    ("it is closed", Does::Ask(403, b"0", "refused")),
    (
        "its port is free, its number isn't",
        Does::Open(A, "extra 2"),
    ),
    ("a flood", Does::Flood(1, 150)),
    ("each in its turn", Does::Share(128, 128)),
    ("what is left", Does::Share(22, 22)),
];

/// Runs all cases, counts them, and prints the names of those that differed.
pub fn run_datagrams<R: Net + Clock + Print + Copy>(
    rt: R,
    alloc: Global,
    tally: &mut RowCount,
) -> io::Result<()> {
    let poller = RealPoller::make(rt, alloc)?;
    let mut endpoints = Endpoints {
        poller,
        ports: (28_711, 28_911),
    };
    let ran = endpoints.run(&rt, alloc, tally);
    drop(endpoints);
    ran
}

#[derive(Drop)]
struct Endpoints<R> {
    poller: RealPoller<R>,
    ports: (u16, u16),
}

impl<R: Net + Clock> Endpoints<R> {
    fn run<P: Print>(&mut self, rt: &P, alloc: Global, tally: &mut RowCount) -> io::Result<()> {
        for (name, does) in &CASES {
            let right = self.is_right(alloc, *does);
            tally.count(rt, name, right)?;
        }
        Ok(())
    }

    fn is_right(&mut self, alloc: Global, does: Does) -> bool {
        match does {
            Does::Find(port, told) => self.finds(alloc, port, told),
            Does::Open(port, told) => self.opens(alloc, port, told),
            Does::Send(from, to, bytes, told) => self.sends(alloc, from, to, bytes, told),
            Does::SendLong(from, to, size, told) => self.sends_long(alloc, from, to, size, told),
            Does::Ask(code, text, told) => self.answers(alloc, code, blob_of(alloc, text), told),
            Does::Come(to, from, wanted) => self.come(alloc, to, from, wanted),
            Does::Share(one, other) => self.shares(alloc, one, other),
            Does::Flood(from, count) => self.floods(alloc, from, count),
            Does::Unwatched => self.finds_none(alloc),
        }
    }

    fn port(&self, name: usize) -> u16 {
        if name == A {
            self.ports.0
        } else {
            self.ports.1
        }
    }

    fn finds(&mut self, alloc: Global, port: usize, told: &str) -> bool {
        for _ in 0..PORTS {
            if self.opens(alloc, port, told) {
                return true;
            }
            self.next_port(port);
        }
        false
    }

    fn next_port(&mut self, name: usize) {
        if name == A {
            self.ports.0 = self.ports.0.saturating_add(1);
        } else {
            self.ports.1 = self.ports.1.saturating_add(1);
        }
    }

    fn opens(&mut self, alloc: Global, port: usize, told: &str) -> bool {
        let text = port_text(alloc, self.port(port));
        self.answers(alloc, 400, text, told)
    }

    fn sends(&mut self, alloc: Global, from: u32, to: usize, bytes: &[u8], told: &str) -> bool {
        let text = datagram_text(alloc, from, self.port(to), bytes);
        self.answers(alloc, 401, text, told)
    }

    fn sends_long(&mut self, alloc: Global, from: u32, to: usize, size: usize, told: &str) -> bool {
        match vec![in alloc; b'x'; size] {
            Ok(bytes) => self.sends(alloc, from, to, bytes.as_slice(), told),
            Err(_) => false,
        }
    }

    fn floods(&mut self, alloc: Global, from: u32, count: u32) -> bool {
        for _ in 0..count {
            if !self.sends(alloc, from, A, b"ab", "extra sent") {
                return false;
            }
            if !self.sends(alloc, from, B, b"ab", "extra sent") {
                return false;
            }
        }
        true
    }

    // Whether an added request is answered so; one that isn't the poller's is none of the cases.
    fn answers(&mut self, alloc: Global, code: i64, text: Blob, told: &str) -> bool {
        match call_of(code, text) {
            Some(call) => self.is_answered(alloc, call, told),
            None => false,
        }
    }

    fn is_answered(&mut self, alloc: Global, call: Call, told: &str) -> bool
        requires { is_socket call ≡ true }
    {
        let said = self.poller.net(alloc, &call);
        drop(call);
        let right = is_told(&said, told);
        drop(said);
        right
    }

    fn come(&mut self, alloc: Global, to: u32, from: usize, wanted: &[&[u8]]) -> bool {
        let port = self.port(from);
        let mut came = 0;
        for _ in 0..POLLS {
            if came >= wanted.len() {
                return true;
            }
            match self.poll(alloc, WAIT, &[Watch::Extra]) {
                Some(items) => {
                    let more = came_after(alloc, items.items(), to, port, wanted, came);
                    drop(items);
                    match more {
                        Some(more) => came = more,
                        None => return false,
                    }
                }
                None => return false,
            }
        }
        came >= wanted.len()
    }

    fn shares(&mut self, alloc: Global, one: usize, other: usize) -> bool {
        match self.poll(alloc, WAIT, &[Watch::Extra]) {
            Some(items) => {
                let right = count_of(items.items(), b'1') == one
                    && count_of(items.items(), b'2') == other
                    && items.items().len() == one.saturating_add(other);
                drop(items);
                right
            }
            None => false,
        }
    }

    fn finds_none(&mut self, alloc: Global) -> bool {
        match self.poll(alloc, WAIT, &[]) {
            Some(items) => {
                let right = items.items().is_empty();
                drop(items);
                right
            }
            None => false,
        }
    }

    // What came; nothing where the poll failed.
    fn poll(&mut self, alloc: Global, wait: u64, watch: &[Watch]) -> Option<ItemList> {
        let Ok(watch) = Vec::from_slice(alloc, watch) else {
            return None;
        };
        let watch = WatchList::of(watch);
        let polled = self.poller.poll(alloc, Some(wait), &watch);
        drop(watch);
        match polled {
            Ok(Polled::Ready { now: _, items }) => Some(items),
            Ok(Polled::Failed) | Err(Memory) => None,
        }
    }
}

// The added request with this code and text, where it is one on endpoints.
fn call_of(code: i64, text: Blob) -> Option<Call>
    ensures { IfSome result (λ call. is_socket call ≡ true) }
{
    if is_datagram(code) {
        return Some(Call::Extra { code, bytes: text });
    }
    drop(text);
    None
}

fn port_text(alloc: Global, port: u16) -> Blob {
    match port.to_string(alloc) {
        Ok(text) => blob_of(alloc, text.as_bytes()),
        Err(_) => blob_of(alloc, b""),
    }
}

// A datagram as it is told; nothing where memory is refused.
fn datagram_text(alloc: Global, number: u32, port: u16, bytes: &[u8]) -> Blob {
    match format!(in alloc; "{number} {port} ") {
        Ok(front) => {
            let mut text = Vec::new(alloc);
            let _front = text.extend_from_slice(front.as_bytes());
            let _bytes = text.extend_from_slice(bytes);
            Blob::of(text)
        }
        Err(_) => blob_of(alloc, b""),
    }
}

// How many of these came by now, where so many had come before and the items tell of the next, to this endpoint from this port;
// nothing where they tell of others.
fn came_after(
    alloc: Global,
    items: &[Item],
    to: u32,
    from: u16,
    wanted: &[&[u8]],
    before: usize,
) -> Option<usize> {
    let mut came = before;
    for item in items {
        match wanted.get(came) {
            Some(next) if tells(alloc, item, to, from, next) => came = came.saturating_add(1),
            _ => return None,
        }
    }
    Some(came)
}

fn tells(alloc: Global, item: &Item, to: u32, from: u16, bytes: &[u8]) -> bool {
    match item {
        Item::Extra {
            code: 402,
            bytes: text,
        } => {
            let wanted = datagram_text(alloc, to, from, bytes);
            let right = text.items() == wanted.items();
            drop(wanted);
            right
        }
        _ => false,
    }
}

// How many datagrams came to the endpoint whose number is this digit.
fn count_of(items: &[Item], number: u8) -> usize {
    items.iter().filter(|item| is_to(item, number)).count()
}

fn is_to(item: &Item, number: u8) -> bool {
    match item {
        Item::Extra { code: 402, bytes } => bytes.items().starts_with(&[number, b' ']),
        _ => false,
    }
}
