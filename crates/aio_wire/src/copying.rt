//! Copies of calls and answers, which stand in the events besides where they are used.
ghost use Rattle.std.specs.Prelude.{◌≡◌, IfOk};

use crate::call::{Answer, Call};
use crate::lists::{Item, ItemList, WatchList, WordList};
use aio_base::{Blob, ChildItem, Memory};
use std::alloc::Global;

/// A copy of a call.
pub fn copy_of_call(alloc: Global, call: &Call) -> Result<Call, Memory>
    ensures { IfOk result (λ copy. copy ≡ call.now) }
{
    Ok(match call {
        Call::Select { wait, watch } => Call::Select {
            wait: *wait,
            watch: WatchList::of(Vec::from_slice(alloc, watch.items())?),
        },
        Call::Listen(port) => Call::Listen(*port),
        Call::Accept(server) => Call::Accept(*server),
        Call::Connect(port) => Call::Connect(*port),
        Call::Recv(conn) => Call::Recv(*conn),
        Call::Send { conn, bytes } => Call::Send {
            conn: *conn,
            bytes: copy_of_bytes(alloc, bytes)?,
        },
        Call::Feed { child, bytes } => Call::Feed {
            child: *child,
            bytes: copy_of_bytes(alloc, bytes)?,
        },
        Call::Shut(conn) => Call::Shut(*conn),
        Call::Close(conn) => Call::Close(*conn),
        Call::CloseServer(server) => Call::CloseServer(*server),
        Call::End(child) => Call::End(*child),
        Call::Kill(child) => Call::Kill(*child),
        Call::Launch(words) => Call::Launch(copy_of_words(alloc, words)?),
        Call::Extra { code, bytes } => Call::Extra {
            code: *code,
            bytes: copy_of_bytes(alloc, bytes)?,
        },
    })
}

/// A copy of an answer.
pub fn copy_of_answer(alloc: Global, answer: &Answer) -> Result<Answer, Memory>
    ensures { IfOk result (λ copy. copy ≡ answer.now) }
{
    Ok(match answer {
        Answer::Turn { now, items } => Answer::Turn {
            now: *now,
            items: copy_of_items(alloc, items)?,
        },
        Answer::Done => Answer::Done,
        Answer::Refused => Answer::Refused,
        Answer::Conn => Answer::Conn,
        Answer::Again => Answer::Again,
        Answer::Broken => Answer::Broken,
        Answer::Data(bytes) => Answer::Data(copy_of_bytes(alloc, bytes)?),
        Answer::Eof => Answer::Eof,
        Answer::Took(count) => Answer::Took(*count),
        Answer::Child => Answer::Child,
        Answer::Extra(bytes) => Answer::Extra(copy_of_bytes(alloc, bytes)?),
    })
}

/// A copy of bytes.
pub fn copy_of_bytes(alloc: Global, bytes: &Blob) -> Result<Blob, Memory>
    ensures { IfOk result (λ copy. copy ≡ bytes.now) }
{
    Ok(Blob::of(Vec::from_slice(alloc, bytes.items())?))
}

/// A copy of words.
pub fn copy_of_words(alloc: Global, words: &WordList) -> Result<WordList, Memory>
    ensures { IfOk result (λ copy. copy ≡ words.now) }
{
    let mut copies = Vec::new(alloc);
    for word in words.items() {
        copies.push(word.clone()?)?;
    }
    Ok(WordList::of(copies))
}

fn copy_of_items(alloc: Global, items: &ItemList) -> Result<ItemList, Memory>
    ensures { IfOk result (λ copy. copy ≡ items.now) }
{
    let mut copies = Vec::new(alloc);
    for item in items.items() {
        copies.push(copy_of_item(alloc, item)?)?;
    }
    Ok(ItemList::of(copies))
}

fn copy_of_item(alloc: Global, item: &Item) -> Result<Item, Memory>
    ensures { IfOk result (λ copy. copy ≡ item.now) }
{
    Ok(match item {
        Item::ReadableServer(server) => Item::ReadableServer(*server),
        Item::Ready { conn, ready } => Item::Ready {
            conn: *conn,
            ready: *ready,
        },
        Item::Up(conn) => Item::Up(*conn),
        Item::Down(conn) => Item::Down(*conn),
        Item::WritableChild(child) => Item::WritableChild(*child),
        Item::Child { child, item } => Item::Child {
            child: *child,
            item: copy_of_news(alloc, item)?,
        },
        Item::Extra { code, bytes } => Item::Extra {
            code: *code,
            bytes: copy_of_bytes(alloc, bytes)?,
        },
    })
}

/// A copy of what is told of a child.
pub fn copy_of_news(alloc: Global, item: &ChildItem) -> Result<ChildItem, Memory>
    ensures { IfOk result (λ copy. copy ≡ item.now) }
{
    Ok(match item {
        ChildItem::Broken => ChildItem::Broken,
        ChildItem::Out(bytes) => ChildItem::Out(copy_of_bytes(alloc, bytes)?),
        ChildItem::OutEnd => ChildItem::OutEnd,
        ChildItem::Errs(bytes) => ChildItem::Errs(copy_of_bytes(alloc, bytes)?),
        ChildItem::ErrsEnd => ChildItem::ErrsEnd,
        ChildItem::Exit(code) => ChildItem::Exit(*code),
    })
}
