//! Whether each item of a turn is awaited.
ghost use Rattle.std.specs.Prelude.{◌≡◌, map, IfOk, IfSome};
ghost use Rattle.std.specs.List.{list_all};
ghost use Rattle.indexmap.specs.IndexMap.{IsUnique};
ghost use Rattle.model_wire.specs.Fits.{is_awaited, is_watched};
ghost use Rattle.aio_wire.specs.Places.{is_same_place, place_of, place_of_item, placed};

use crate::fitting::{is_awaited, is_sized, is_watched_by};
use crate::lists::{Item, Watch};
use aio_base::Memory;
use indexmap::IndexMap;
use std::alloc::Global;

/// So many items at most are looked for along the watch list; more by a table of it.
const FEW: usize = 4;

/// What a watch entry is about.
#[derive(Clone, Copy, PartialEq, Eq, Hash)]
pub enum Subject {
    Server,
    Conn,
    Making,
    Child,
    Extra,
}

fn place_of(entry: &Watch) -> (Subject, u32)
    ensures { result ≡ place_of entry.now }
{
    match entry {
        Watch::Server(server) => (Subject::Server, *server),
        Watch::Conn { conn, .. } => (Subject::Conn, *conn),
        Watch::Making(conn) => (Subject::Making, *conn),
        Watch::Child { child, .. } => (Subject::Child, *child),
        Watch::Extra => (Subject::Extra, 0),
    }
}

/// The only entry that may await an item.
fn place_of_item(item: &Item) -> (Subject, u32)
    ensures { result ≡ place_of_item item.now }
{
    match item {
        Item::ReadableServer(server) => (Subject::Server, *server),
        Item::Ready { conn, .. } => (Subject::Conn, *conn),
        Item::Up(conn) => (Subject::Making, *conn),
        Item::Down(conn) => (Subject::Making, *conn),
        Item::WritableChild(child) => (Subject::Child, *child),
        Item::Child { child, .. } => (Subject::Child, *child),
        Item::Extra { .. } => (Subject::Extra, 0),
    }
}

/// The watch entries by what they are about, in order; none where two are about the same.
fn table_of(
    alloc: Global,
    watch: &[Watch],
) -> Result<Option<IndexMap<(Subject, u32), Watch>>, Memory>
    ensures entries { IfOk result (λ found. IfSome found (λ table. table.entries ≡ map placed watch.now)) }
    ensures unique { IfOk result (λ found. IfSome found (λ table. IsUnique is_same_place table)) }
{
    let mut table = IndexMap::new(alloc);
    for entry in watch {
        if table.insert(place_of(entry), *entry)?.is_some() {
            return Ok(None);
        }
    }
    Ok(Some(table))
}

fn is_watched_in(table: &IndexMap<(Subject, u32), Watch>, watch: &[Watch], item: &Item) -> bool
    requires entries { table.now.entries ≡ map placed watch.now }
    requires unique { IsUnique is_same_place table.now }
    ensures { result ≡ is_watched watch.now item.now }
{
    match table.get(&place_of_item(item)) {
        Some(entry) => is_watched_by(item, entry),
        None => false,
    }
}

fn is_awaited_by(table: &IndexMap<(Subject, u32), Watch>, watch: &[Watch], item: &Item) -> bool
    requires entries { table.now.entries ≡ map placed watch.now }
    requires unique { IsUnique is_same_place table.now }
    ensures { result ≡ is_awaited watch.now item.now }
{
    is_watched_in(table, watch, item) && is_sized(item)
}

fn are_awaited_by(table: &IndexMap<(Subject, u32), Watch>, watch: &[Watch], items: &[Item]) -> bool
    requires entries { table.now.entries ≡ map placed watch.now }
    requires unique { IsUnique is_same_place table.now }
    ensures { result ≡ list_all (is_awaited watch.now) items.now }
{
    for item in items {
        if !is_awaited_by(table, watch, item) {
            return false;
        }
    }
    true
}

/// Whether each item is awaited. It looks at each item once, and at each watch entry, unless two
/// entries are about the same.
pub fn each_is_awaited(alloc: Global, watch: &[Watch], items: &[Item]) -> Result<bool, Memory>
    ensures { IfOk result (λ all. all ≡ list_all (is_awaited watch.now) items.now) }
{
    if items.len() > FEW {
        if let Some(table) = table_of(alloc, watch)? {
            return Ok(are_awaited_by(&table, watch, items));
        }
    }
    Ok(items.iter().all(|item| is_awaited(watch, item)))
}
