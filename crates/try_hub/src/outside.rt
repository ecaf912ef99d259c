//! Parts of the outside in memory: a source, calls that are made to fail, and the bytes that a journal's wire hands on.
use aio_base::Memory;
use aio_memwire::{FailAt, Handed, JournalWire};
use aio_wire::{Answer, Call, MemShelf, MemSource, Reply, Shelf, Source, SourceGot, Wire};
use std::alloc::Global;
use try_row::{blob_of, numbers_of};

/// What is read or asked, and what must come of it.
#[derive(Clone, Copy)]
pub enum Outside {
    /// Three bytes are read, two at most at a time, and then the end.
    SourceInOrder,
    /// Of five reads of such a source the second and the fourth fail.
    ReadsThatFail,
    /// Two sends to a connection and a feed to a child are asked, of three bytes each, of which as many are taken as the journal
    /// says, and handed on.
    HandedOn,
    /// Of three sends over a journal of two answers the second fails. The others get the answers in order, and only of theirs
    /// bytes are handed on.
    AsksThatFail,
}

pub static OUTSIDE: [(&str, Outside); 4] = [
    ("source read in order", Outside::SourceInOrder),
    ("bytes handed on", Outside::HandedOn),
    ("listed reads of a source fail", Outside::ReadsThatFail),
    ("listed asks of a wire fail", Outside::AsksThatFail),
];

/// What a read of at most two bytes gives.
#[derive(Clone, Copy)]
enum Got {
    Bytes(&'static [u8]),
    End,
    Fails,
}

static IN_ORDER: [Got; 3] = [Got::Bytes(b"ab"), Got::Bytes(b"c"), Got::End];

static WITH_FAILURES: [Got; 5] = [
    Got::Bytes(b"ab"),
    Got::Fails,
    Got::Bytes(b"c"),
    Got::Fails,
    Got::End,
];

impl Outside {
    /// Whether it does what it must. Where memory is refused it does not.
    pub fn is_right(self, alloc: Global) -> bool {
        match self {
            Outside::SourceInOrder => {
                let mut source = MemSource::new(alloc, blob_of(alloc, b"abc"));
                reads(alloc, &mut source, &IN_ORDER)
            }
            Outside::ReadsThatFail => {
                let inner = MemSource::new(alloc, blob_of(alloc, b"abc"));
                let mut source = FailAt::new(inner, numbers_of(alloc, &[2, 4]));
                reads(alloc, &mut source, &WITH_FAILURES)
            }
            Outside::HandedOn => HANDED_ON.is_right(alloc),
            Outside::AsksThatFail => ASKS_THAT_FAIL.is_right(alloc),
        }
    }
}

// Whether reads give this, in order.
fn reads<S: Source>(alloc: Global, source: &mut S, wanted: &[Got]) -> bool {
    for one in wanted {
        let read = source.read(alloc, 2);
        let right = is_got(&read, *one);
        drop(read);
        if !right {
            return false;
        }
    }
    true
}

fn is_got(read: &Result<SourceGot, Memory>, wanted: Got) -> bool {
    match (read, wanted) {
        (Ok(SourceGot::Bytes(bytes)), Got::Bytes(held)) => bytes.items() == held,
        (Ok(SourceGot::End), Got::End) => true,
        (Ok(SourceGot::Failed), Got::Fails) => true,
        _ => false,
    }
}

/// A call of three bytes, `abc`.
#[derive(Clone, Copy)]
enum Gives {
    /// To connection 7.
    Send,
    /// To child 7.
    Feed,
}

/// The answers of a journal; which calls fail; the calls, with how many bytes are taken, or that they fail; and what
/// connection 7 and child 7 were handed then.
struct Asking {
    journal: &'static [u8],
    failing: &'static [u64],
    asks: &'static [(Gives, Option<u64>)],
    conn: &'static [u8],
    child: &'static [u8],
}

static HANDED_ON: Asking = Asking {
    journal: b"took 2\ntook 1\ntook 3\n",
    failing: &[],
    asks: &[
        (Gives::Send, Some(2)),
        (Gives::Send, Some(1)),
        (Gives::Feed, Some(3)),
    ],
    conn: b"aba",
    child: b"abc",
};

static ASKS_THAT_FAIL: Asking = Asking {
    journal: b"took 2\ntook 1\n",
    failing: &[2],
    asks: &[
        (Gives::Send, Some(2)),
        (Gives::Send, None),
        (Gives::Send, Some(1)),
    ],
    conn: b"aba",
    child: b"",
};

impl Asking {
    fn is_right(&self, alloc: Global) -> bool {
        let mut shelf = MemShelf::new(alloc);
        let stands = shelf.append(alloc, "j", self.journal).is_ok();
        let right = stands && self.is_handed(alloc, &mut shelf);
        drop(shelf);
        right
    }

    fn is_handed(&self, alloc: Global, shelf: &mut MemShelf) -> bool {
        let inner = JournalWire::new(alloc, shelf, "j");
        let mut wire = FailAt::new(inner, numbers_of(alloc, self.failing));
        let right = self.is_replied(alloc, &mut wire)
            && wire.inner.handed(Handed::Conn(7)) == self.conn
            && wire.inner.handed(Handed::Child(7)) == self.child
            && wire.inner.handed(Handed::Conn(0)).is_empty();
        drop(wire);
        right
    }

    fn is_replied<W: Wire>(&self, alloc: Global, wire: &mut W) -> bool {
        for (gives, wanted) in self.asks {
            if !takes(alloc, wire, *gives, *wanted) {
                return false;
            }
        }
        true
    }
}

// Whether so many bytes are taken, or the call fails.
fn takes<W: Wire>(alloc: Global, wire: &mut W, gives: Gives, wanted: Option<u64>) -> bool {
    let bytes = blob_of(alloc, b"abc");
    let call = match gives {
        Gives::Send => Call::Send { conn: 7, bytes },
        Gives::Feed => Call::Feed { child: 7, bytes },
    };
    let said = wire.ask(alloc, &call);
    let right = is_wanted(&said, wanted);
    drop(said);
    drop(call);
    right
}

fn is_wanted(said: &Result<Reply, Memory>, wanted: Option<u64>) -> bool {
    match said {
        Ok(Reply::Got(Answer::Took(count))) => wanted == Some(*count),
        Ok(Reply::Failed) => wanted.is_none(),
        _ => false,
    }
}
