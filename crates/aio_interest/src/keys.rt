//! What items take up, as numbers, and sets of these.
ghost use Rattle.std.specs.Prelude.{◌≡◌, ℕ, ◌==◌, ◌||◌, ◌&&◌, IfOk, OnErr};
ghost use Rattle.std.specs.List.{list_any};
ghost use Rattle.std.specs.HashSet.{IsUnchanged};
ghost use Rattle.model_wire.specs.declared.item.Interest.TheVariants as interest;
ghost use Rattle.model_wire.specs.Fits.{news_interest, clashes};
ghost use Rattle.aio_interest.specs.Keys.{code_of, key_at, key_of, has, has_key, is_marked_in, Marks};

use aio_base::{ChildItem, Memory};
use aio_wire::Item;
use model_wire::Interest;
use std::collections::HashSet;

fn code_of(interest: Interest) -> u64
    ensures { result ≡ code_of interest }
{
    match interest {
        Interest::Server => 0,
        Interest::Conn => 1,
        Interest::Feed => 2,
        Interest::Stdin => 3,
        Interest::Out => 4,
        Interest::Errs => 5,
        Interest::Exit => 6,
    }
}

/// The number of this of one listener, connection or child.
pub(crate) fn key_at(interest: Interest, id: u32) -> u64
    ensures { result ≡ key_at interest id }
{
    8 * id as u64 + code_of(interest)
}

fn news_interest(item: &ChildItem) -> Interest
    ensures { result ≡ news_interest item.now }
{
    match item {
        ChildItem::Broken => Interest::Stdin,
        ChildItem::Out(_) | ChildItem::OutEnd => Interest::Out,
        ChildItem::Errs(_) | ChildItem::ErrsEnd => Interest::Errs,
        ChildItem::Exit(_) => Interest::Exit,
    }
}

/// The number of what an item takes up: two items clash where they have the same.
pub(crate) fn key_of(item: &Item) -> Option<u64>
    ensures { result ≡ key_of item.now }
{
    match item {
        Item::ReadableServer(server) => Some(key_at(Interest::Server, *server)),
        Item::Ready { conn, .. } => Some(key_at(Interest::Conn, *conn)),
        Item::Up(conn) => Some(key_at(Interest::Conn, *conn)),
        Item::Down(conn) => Some(key_at(Interest::Conn, *conn)),
        Item::WritableChild(child) => Some(key_at(Interest::Feed, *child)),
        Item::Child { child, item } => Some(key_at(news_interest(item), *child)),
        Item::Extra { .. } => None,
    }
}

/// Whether what an item takes up is in a set.
pub fn is_marked(marks: &HashSet<u64>, item: &Item) -> bool
    ensures { result ≡ is_marked_in marks.now item.now }
{
    match key_of(item) {
        Some(key) => marks.contains(&key),
        None => false,
    }
}

/// Adds a number to a set where this holds. After want of memory the set is as before.
pub(crate) fn mark_if(marks: &mut HashSet<u64>, holds: bool, key: u64) -> Result<(), Memory>
    ensures added { IfOk result (λ _. (k : ℕ) → has marks.new k ≡ ((holds && key == k) || has
        marks.old k)) }
    ensures err { OnErr result (IsUnchanged marks.old marks.new) }
{
    if holds {
        marks.insert(key)?;
    }
    Ok(())
}

/// Adds what an item takes up to a set. After want of memory the set is as before.
pub fn mark(marks: &mut HashSet<u64>, item: &Item) -> Result<(), Memory>
    ensures added { IfOk result (λ _. (k : ℕ) → has marks.new k ≡ (has_key k item.now || has
        marks.old k)) }
    ensures err { OnErr result (IsUnchanged marks.old marks.new) }
{
    match key_of(item) {
        Some(key) => mark_if(marks, true, key),
        None => Ok(()),
    }
}
