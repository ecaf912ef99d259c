//! Which answers fit a call.
ghost use Rattle.std.specs.Prelude.{◌≡◌, ◌&&◌, map, sum, nat_le, IfOk};
ghost use Rattle.std.specs.List.{list_all, list_any};
ghost use Rattle.model_wire.specs.Fits.{fits, turn_fits, are_few, are_awaited, is_awaited, is_some_within, is_ready_for, is_told, is_watched_by, is_watched, interest_of, news_interest, clashes, stand_apart, bytes_in, news_bytes, is_sized, is_piece, most_bytes};

use crate::apart::stand_apart;
use crate::awaited::each_is_awaited;
use crate::call::{Answer, Call};
use crate::lists::{Item, Watch};
use aio_base::{ChildItem, Memory};
use model_wire::{Interest, Readiness};
use std::alloc::Global;

/// The greatest number of bytes that one recv, one turn or one answer to an extra has.
const MOST_BYTES: u64 = 262_144;

/// The greatest number of bytes in one piece of a child's output.
const MOST_PIECE: u64 = 65_536;

/// The greatest number of items in one turn.
const MOST_ITEMS: usize = 4_096;

/// The greatest time, in milliseconds.
const MOST_TIME: u64 = 0x7FFF_FFFF_FFFF_FFFF;

/// Whether an answer fits a call. A turn fits where its time is in range, each item is watched, no
/// listener, connection or letter of a child stands twice, and there are not too many items and
/// bytes. It takes about as many steps as there are items and watch entries.
pub fn fits(alloc: Global, call: &Call, answer: &Answer) -> Result<bool, Memory>
    ensures { IfOk result (λ it_fits. it_fits ≡ fits call.now answer.now) }
{
    Ok(match call {
        Call::Select { watch, .. } => match answer {
            Answer::Turn { now, items } => turn_fits(alloc, watch.items(), *now, items.items())?,
            _ => false,
        },
        Call::Listen(_) => matches!(answer, Answer::Done | Answer::Refused),
        Call::Accept(_) => matches!(answer, Answer::Conn | Answer::Again | Answer::Broken),
        Call::Connect(_) => matches!(answer, Answer::Conn | Answer::Refused),
        Call::Recv(_) => match answer {
            Answer::Data(bytes) => is_some_within(MOST_BYTES, bytes.items().len() as u64),
            Answer::Eof | Answer::Again | Answer::Broken => true,
            _ => false,
        },
        Call::Send { bytes, .. } | Call::Feed { bytes, .. } => match answer {
            Answer::Took(count) => is_some_within(bytes.items().len() as u64, *count),
            Answer::Again | Answer::Broken => true,
            _ => false,
        },
        Call::Shut(_) | Call::Close(_) | Call::CloseServer(_) | Call::End(_) | Call::Kill(_) =>
            matches!(answer, Answer::Done),
        Call::Launch(_) => matches!(answer, Answer::Child | Answer::Refused),
        Call::Extra { .. } => match answer {
            Answer::Extra(bytes) => bytes.items().len() as u64 <= MOST_BYTES,
            Answer::Refused => true,
            _ => false,
        },
    })
}

/// Whether a turn fits a select with this watch list.
pub fn turn_fits(alloc: Global, watch: &[Watch], now: u64, items: &[Item]) -> Result<bool, Memory>
    ensures { IfOk result (λ it_fits. it_fits ≡ turn_fits watch.now now items.now) }
{
    Ok(
        now <= MOST_TIME
            && are_few(items)
            && each_is_awaited(alloc, watch, items)?
            && stand_apart(alloc, items)?,
    )
}

fn are_few(items: &[Item]) -> bool
    ensures { result ≡ are_few items.now }
{
    items.len() <= MOST_ITEMS && bytes_of(items) <= MOST_BYTES
}

/// Whether an item of a turn is one that these watch entries await, and no piece in it is empty or over
/// 65,536 bytes.
pub fn is_awaited(watch: &[Watch], item: &Item) -> bool
    ensures { result ≡ is_awaited watch.now item.now }
{
    is_watched(watch, item) && is_sized(item)
}

fn is_some_within(bound: u64, count: u64) -> bool
    ensures { result ≡ is_some_within bound count }
{
    0 < count && count <= bound
}

fn is_watched(watch: &[Watch], item: &Item) -> bool
    ensures { result ≡ is_watched watch.now item.now }
{
    watch.iter().any(|entry| is_watched_by(item, entry))
}

/// Whether an entry of a watch awaits what an item tells.
pub fn is_watched_by(item: &Item, entry: &Watch) -> bool
    ensures { result ≡ is_watched_by item.now entry.now }
{
    match (item, entry) {
        (Item::ReadableServer(server), Watch::Server(watched)) => server == watched,
        (
            Item::Ready { conn, ready },
            Watch::Conn {
                conn: watched,
                reads,
                writes,
            },
        ) => conn == watched && is_ready_for(*ready, *reads, *writes),
        (Item::Up(conn), Watch::Making(watched)) => conn == watched,
        (Item::Down(conn), Watch::Making(watched)) => conn == watched,
        (
            Item::WritableChild(child),
            Watch::Child {
                child: watched,
                feeds,
                ..
            },
        ) => child == watched && *feeds,
        (
            Item::Child { child, item },
            Watch::Child {
                child: watched,
                stdin,
                out,
                errs,
                exit,
                ..
            },
        ) => child == watched && is_told(item, *stdin, *out, *errs, *exit),
        (Item::Extra { .. }, Watch::Extra) => true,
        _ => false,
    }
}

fn is_ready_for(ready: Readiness, reads: bool, writes: bool) -> bool
    ensures { result ≡ is_ready_for ready reads writes }
{
    match ready {
        Readiness::Read => reads,
        Readiness::Write => writes,
        Readiness::Both => reads && writes,
    }
}

fn is_told(item: &ChildItem, stdin: bool, out: bool, errs: bool, exit: bool) -> bool
    ensures { result ≡ is_told item.now stdin out errs exit }
{
    match item {
        ChildItem::Broken => stdin,
        ChildItem::Out(_) | ChildItem::OutEnd => out,
        ChildItem::Errs(_) | ChildItem::ErrsEnd => errs,
        ChildItem::Exit(_) => exit,
    }
}

/// What an item takes up, and of which listener, connection or child.
pub fn interest_of(item: &Item) -> Option<(Interest, u32)>
    ensures { result ≡ interest_of item.now }
{
    match item {
        Item::ReadableServer(server) => Some((Interest::Server, *server)),
        Item::Ready { conn, .. } => Some((Interest::Conn, *conn)),
        Item::Up(conn) => Some((Interest::Conn, *conn)),
        Item::Down(conn) => Some((Interest::Conn, *conn)),
        Item::WritableChild(child) => Some((Interest::Feed, *child)),
        Item::Child { child, item } => Some((news_interest(item), *child)),
        Item::Extra { .. } => None,
    }
}

fn news_interest(item: &ChildItem) -> Interest
    ensures { result ≡ news_interest item.now }
{
    match item {
        ChildItem::Broken => Interest::Stdin,
        ChildItem::Out(_) | ChildItem::OutEnd => Interest::Out,
        ChildItem::Errs(_) | ChildItem::ErrsEnd => Interest::Errs,
        ChildItem::Exit(_) => Interest::Exit,
    }
}

/// Whether two items are news of the same kind of one connection, listener or child: an answer of a turn
/// holds one of them at most.
pub fn clashes(first: &Item, second: &Item) -> bool
    ensures { result ≡ clashes first.now second.now }
{
    let Some((interest, id)) = interest_of(first) else {
        return false;
    };
    let Some((other, other_id)) = interest_of(second) else {
        return false;
    };
    interest == other && id == other_id
}

/// Whether a piece of a child's output has a byte, and no more than a read takes. Other items have no such piece.
pub fn is_sized(item: &Item) -> bool
    ensures { result ≡ is_sized item.now }
{
    match item {
        Item::Child { item, .. } => is_piece(item),
        Item::ReadableServer(_)
        | Item::Ready { .. }
        | Item::Up(_)
        | Item::Down(_)
        | Item::WritableChild(_)
        | Item::Extra { .. } => true,
    }
}

fn is_piece(item: &ChildItem) -> bool
    ensures { result ≡ is_piece item.now }
{
    match item {
        ChildItem::Out(bytes) => is_some_within(MOST_PIECE, bytes.items().len() as u64),
        ChildItem::Errs(bytes) => is_some_within(MOST_PIECE, bytes.items().len() as u64),
        ChildItem::Broken | ChildItem::OutEnd | ChildItem::ErrsEnd | ChildItem::Exit(_) => true,
    }
}

/// How many bytes items bring, or the type's last value where that is more.
fn bytes_of(items: &[Item]) -> u64
    ensures { nat_le result most_bytes ≡ nat_le (sum (map bytes_in items.now)) most_bytes }
{
    let mut total = 0u64;
    for item in items {
        total = total.saturating_add(bytes_in(item));
    }
    total
}

/// How many bytes an item brings. The items of one turn bring 262,144 at most.
pub fn bytes_in(item: &Item) -> u64
    ensures { result ≡ bytes_in item.now }
{
    match item {
        Item::Child { item, .. } => news_bytes(item),
        Item::Extra { bytes, .. } => bytes.items().len() as u64,
        Item::ReadableServer(_)
        | Item::Ready { .. }
        | Item::Up(_)
        | Item::Down(_)
        | Item::WritableChild(_) => 0,
    }
}

fn news_bytes(item: &ChildItem) -> u64
    ensures { result ≡ news_bytes item.now }
{
    match item {
        ChildItem::Out(bytes) => bytes.items().len() as u64,
        ChildItem::Errs(bytes) => bytes.items().len() as u64,
        ChildItem::Broken | ChildItem::OutEnd | ChildItem::ErrsEnd | ChildItem::Exit(_) => 0,
    }
}
