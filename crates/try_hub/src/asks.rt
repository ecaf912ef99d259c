//! The calls of rows, and what is replied to them.
use crate::telling::is_told;
use aio_base::Blob;
use aio_wire::{Call, Watch, WatchList, Wire, WordList};
use std::alloc::Global;
use try_row::blob_of;

/// A call.
#[derive(Clone, Copy)]
pub enum Ask {
    /// A launch without words; a launcher in memory looks at none.
    Launch,
    /// The same, and then a select that watches all of that child, whatever is replied to it. Of these the first launches
    /// child 0.
    Live,
    /// A select without a bound.
    Select(&'static [Look]),
    /// Feeds two bytes to a child.
    Feed(u32),
    End(u32),
    Kill(u32),
    Accept(u32),
    Extra(i64),
}

/// What is watched of the child with this number.
#[derive(Clone, Copy)]
pub enum Look {
    /// All that it tells.
    All(u32),
    /// Its standard input: whether it may be fed, and its break.
    Stdin(u32),
    /// Its standard output alone.
    Out(u32),
    /// Its exit alone.
    Exits(u32),
}

fn watch_of(look: Look) -> Watch {
    let (child, feeds, stdin, out, errs, exit) = match look {
        Look::All(child) => (child, false, true, true, true, true),
        Look::Stdin(child) => (child, true, true, false, false, false),
        Look::Out(child) => (child, false, false, true, false, false),
        Look::Exits(child) => (child, false, false, false, false, true),
    };
    Watch::Child {
        child,
        feeds,
        stdin,
        out,
        errs,
        exit,
    }
}

// Where memory is refused the last of them aren't watched.
fn select_of(alloc: Global, looks: &[Look]) -> Call {
    let mut watch = Vec::new(alloc);
    for look in looks {
        let _pushed = watch.push(watch_of(*look));
    }
    Call::Select {
        wait: None,
        watch: WatchList::of(watch),
    }
}

fn call_of(alloc: Global, ask: Ask) -> Call {
    match ask {
        Ask::Launch | Ask::Live => Call::Launch(WordList::of(Vec::new(alloc))),
        Ask::Select(looks) => select_of(alloc, looks),
        Ask::Feed(child) => Call::Feed {
            child,
            bytes: blob_of(alloc, b"ab"),
        },
        Ask::End(child) => Call::End(child),
        Ask::Kill(child) => Call::Kill(child),
        Ask::Accept(server) => Call::Accept(server),
        Ask::Extra(code) => Call::Extra {
            code,
            bytes: Blob::of(Vec::new(alloc)),
        },
    }
}

fn is_replied<W: Wire>(alloc: Global, wire: &mut W, call: Call, told: &str) -> bool {
    let said = wire.ask(alloc, &call);
    let right = is_told(&said, told);
    drop(said);
    drop(call);
    right
}

/// Whether this is replied to a call, which is asked for the time with this number, counted from 0.
pub fn replies<W: Wire>(alloc: Global, wire: &mut W, ask: Ask, number: u32, told: &str) -> bool {
    let right = is_replied(alloc, wire, call_of(alloc, ask), told);
    if matches!(ask, Ask::Live) {
        let watches = select_of(alloc, &[Look::All(number)]);
        let _whatever = is_replied(alloc, wire, watches, "");
    }
    right
}
