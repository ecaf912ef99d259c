//! The items of a poller's answer, in a list that can grow.
ghost use Rattle.std.specs.Prelude.{◌≡◌, IfOk};

use aio_base::{Blob, ChildItem, Memory};
use aio_wire::{Item, ItemList};
use std::alloc::Global;

fn copy_of_bytes(alloc: Global, bytes: &Blob) -> Result<Blob, Memory>
    ensures { IfOk result (λ copy. copy ≡ bytes.now) }
{
    Ok(Blob::of(Vec::from_slice(alloc, bytes.items())?))
}

fn copy_of_news(alloc: Global, news: &ChildItem) -> Result<ChildItem, Memory>
    ensures { IfOk result (λ copy. copy ≡ news.now) }
{
    Ok(match news {
        ChildItem::Broken => ChildItem::Broken,
        ChildItem::Out(bytes) => ChildItem::Out(copy_of_bytes(alloc, bytes)?),
        ChildItem::OutEnd => ChildItem::OutEnd,
        ChildItem::Errs(bytes) => ChildItem::Errs(copy_of_bytes(alloc, bytes)?),
        ChildItem::ErrsEnd => ChildItem::ErrsEnd,
        ChildItem::Exit(code) => ChildItem::Exit(*code),
    })
}

fn copy_of_item(alloc: Global, item: &Item) -> Result<Item, Memory>
    ensures { IfOk result (λ copy. copy ≡ item.now) }
{
    Ok(match item {
        Item::ReadableServer(server) => Item::ReadableServer(*server),
        Item::Ready { conn, ready } => Item::Ready {
            conn: *conn,
            ready: *ready,
        },
        Item::Up(conn) => Item::Up(*conn),
        Item::Down(conn) => Item::Down(*conn),
        Item::WritableChild(child) => Item::WritableChild(*child),
        Item::Child { child, item } => Item::Child {
            child: *child,
            item: copy_of_news(alloc, item)?,
        },
        Item::Extra { code, bytes } => Item::Extra {
            code: *code,
            bytes: copy_of_bytes(alloc, bytes)?,
        },
    })
}

/// Copies of the items, in order.
pub(crate) fn copies_of(alloc: Global, items: &ItemList) -> Result<Vec<Item>, Memory>
    ensures { IfOk result (λ copies. copies.items ≡ items.now) }
{
    let mut copies = Vec::new(alloc);
    for item in items.items() {
        copies.push(copy_of_item(alloc, item)?)?;
    }
    Ok(copies)
}
