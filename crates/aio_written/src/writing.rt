//! How calls and answers are written. Each function appends; on `Memory` a front of
//! its text may stand there.
ghost use Rattle.std.specs.Prelude.{◌≡◌, ◌++◌, OnOk, map, codes};
ghost use Rattle.std.specs.List.{flat_map};
ghost use Rattle.std.specs.Fmt.{decimal, signed_decimal};
ghost use Rattle.model_value.specs.Escapes.{bytes_literal};
ghost use Rattle.model_value.specs.Shown.{shown};
ghost use Rattle.model_value.specs.Value.{Text, Items, values};
ghost use Rattle.aio_written.specs.Watched.{watched_after};
ghost use Rattle.model_wire.specs.Call.{written_call, written, wait_text, watch_text, letter_if, ready_text, news_text, spaced_item};

use aio_base::{Memory, Value, ValueList, push_bytes_literal, show};
use aio_wire::{Answer, Call, ChildItem, Item, Readiness, Watch, WordList};
use std::alloc::Global;
use std::rc::Rc;

/// Appends a call as it is written.
pub fn push_call(alloc: Global, call: &Call, out: &mut Vec<u8>) -> Result<(), Memory>
    ensures { OnOk result (out.new.items ≡ out.old.items ++ written_call call.now) }
{
    match call {
        Call::Select { wait, watch } => {
            push_wait(alloc, *wait, out)?;
            push_watch_list(alloc, watch.items(), out)
        }
        Call::Listen(port) => push_number(alloc, b"listen ", u64::from(*port), out),
        Call::Accept(server) => push_number(alloc, b"accept L", u64::from(*server), out),
        Call::Connect(port) => push_number(alloc, b"connect ", u64::from(*port), out),
        Call::Recv(conn) => {
            push_number(alloc, b"recv C", u64::from(*conn), out)?;
            out.extend_from_slice(b" 262144")?;
            Ok(())
        }
        Call::Send { conn, bytes } => {
            push_number(alloc, b"send C", u64::from(*conn), out)?;
            push_spaced_bytes(bytes.items(), out)
        }
        Call::Feed { child, bytes } => {
            push_number(alloc, b"feed P", u64::from(*child), out)?;
            push_spaced_bytes(bytes.items(), out)
        }
        Call::Shut(conn) => push_number(alloc, b"shut C", u64::from(*conn), out),
        Call::Close(conn) => push_number(alloc, b"close C", u64::from(*conn), out),
        Call::CloseServer(server) => push_number(alloc, b"close L", u64::from(*server), out),
        Call::End(child) => push_number(alloc, b"end P", u64::from(*child), out),
        Call::Kill(child) => push_number(alloc, b"kill P", u64::from(*child), out),
        Call::Launch(words) => push_launch(alloc, words, out),
        Call::Extra { code, bytes } => {
            push_signed(alloc, b"extra ", *code, out)?;
            push_spaced_bytes(bytes.items(), out)
        }
    }
}

/// Appends an answer as it is written: a journal's line, without its newline.
pub fn push_answer(alloc: Global, answer: &Answer, out: &mut Vec<u8>) -> Result<(), Memory>
    ensures { OnOk result (out.new.items ≡ out.old.items ++ written answer.now) }
{
    match answer {
        Answer::Turn { now, items } => {
            push_number(alloc, b"turn ", *now, out)?;
            push_items(alloc, items.items(), out)
        }
        Answer::Done => push_text(b"ok", out),
        Answer::Refused => push_text(b"refused", out),
        Answer::Conn => push_text(b"conn", out),
        Answer::Again => push_text(b"again", out),
        Answer::Broken => push_text(b"broken", out),
        Answer::Data(bytes) => {
            push_text(b"data", out)?;
            push_spaced_bytes(bytes.items(), out)
        }
        Answer::Eof => push_text(b"eof", out),
        Answer::Took(count) => push_number(alloc, b"took ", *count, out),
        Answer::Child => push_text(b"child", out),
        Answer::Extra(bytes) => {
            push_text(b"extra", out)?;
            push_spaced_bytes(bytes.items(), out)
        }
    }
}

fn push_text(text: &[u8], out: &mut Vec<u8>) -> Result<(), Memory>
    ensures { OnOk result (out.new.items ≡ out.old.items ++ text.now) }
{
    out.extend_from_slice(text)?;
    Ok(())
}

/// Appends a front and a number.
fn push_number(alloc: Global, front: &[u8], number: u64, out: &mut Vec<u8>) -> Result<(), Memory>
    ensures { OnOk result (out.new.items ≡ out.old.items ++ (front.now ++ decimal number)) }
{
    out.extend_from_slice(front)?;
    out.extend_from_slice(number.to_string(alloc)?.as_bytes())?;
    Ok(())
}

/// Appends a front and a number with its sign.
fn push_signed(alloc: Global, front: &[u8], number: i64, out: &mut Vec<u8>) -> Result<(), Memory>
    ensures { OnOk result (out.new.items ≡ out.old.items ++ (front.now ++ signed_decimal number)) }
{
    out.extend_from_slice(front)?;
    out.extend_from_slice(number.to_string(alloc)?.as_bytes())?;
    Ok(())
}

/// Appends a space and a literal of bytes.
fn push_spaced_bytes(bytes: &[u8], out: &mut Vec<u8>) -> Result<(), Memory>
    ensures { OnOk result
        (out.new.items ≡ out.old.items ++ (codes " " ++ bytes_literal bytes.now)) }
{
    out.push(b' ')?;
    push_bytes_literal(bytes, out)
}

fn push_wait(alloc: Global, wait: Option<u64>, out: &mut Vec<u8>) -> Result<(), Memory>
    ensures { OnOk result (out.new.items ≡ out.old.items ++ (codes "select " ++ wait_text wait)) }
{
    match wait {
        None => push_text(b"select none", out),
        Some(wait) => push_number(alloc, b"select ", wait, out),
    }
}

fn push_watch_list(alloc: Global, watch: &[Watch], out: &mut Vec<u8>) -> Result<(), Memory>
    ensures { OnOk result (out.new.items ≡ out.old.items ++ flat_map watch_text watch.now) }
{
    for entry in watch {
        push_watch(alloc, entry, out)?;
    }
    Ok(())
}

fn push_watch(alloc: Global, watch: &Watch, out: &mut Vec<u8>) -> Result<(), Memory>
    ensures { OnOk result (out.new.items ≡ out.old.items ++ watch_text watch.now) }
{
    let mut letters = Vec::new(alloc);
    match watch {
        Watch::Server(server) => {
            letters.push(b'r')?;
            push_watched(alloc, b" L", *server, letters.as_slice(), out)
        }
        Watch::Making(conn) => {
            letters.push(b'c')?;
            push_watched(alloc, b" C", *conn, letters.as_slice(), out)
        }
        Watch::Conn {
            conn,
            reads,
            writes,
        } => {
            push_letter_if(*reads, b'r', &mut letters)?;
            push_letter_if(*writes, b'w', &mut letters)?;
            push_watched(alloc, b" C", *conn, letters.as_slice(), out)
        }
        Watch::Child {
            child,
            feeds,
            stdin,
            out: reads_out,
            errs,
            exit,
        } => {
            push_letter_if(*feeds, b'w', &mut letters)?;
            push_letter_if(*stdin, b'b', &mut letters)?;
            push_letter_if(*reads_out, b'o', &mut letters)?;
            push_letter_if(*errs, b'e', &mut letters)?;
            push_letter_if(*exit, b'x', &mut letters)?;
            push_watched(alloc, b" P", *child, letters.as_slice(), out)
        }
        Watch::Extra => push_text(b" X", out),
    }
}

fn push_letter_if(holds: bool, letter: u8, letters: &mut Vec<u8>) -> Result<(), Memory>
    ensures { OnOk result (letters.new.items ≡ letters.old.items ++ letter_if holds letter) }
{
    if holds {
        letters.push(letter)?;
    }
    Ok(())
}

/// Appends an id and its letters, where it has any. The front is a space and the id's letter.
fn push_watched(
    alloc: Global,
    front: &[u8],
    id: u32,
    letters: &[u8],
    out: &mut Vec<u8>,
) -> Result<(), Memory>
    ensures { OnOk result
        (out.new.items ≡ out.old.items ++ watched_after (front.now ++ decimal id) letters.now) }
{
    if letters.is_empty() {
        return Ok(());
    }
    push_number(alloc, front, u64::from(id), out)?;
    out.push(b' ')?;
    push_text(letters, out)
}

fn push_items(alloc: Global, items: &[Item], out: &mut Vec<u8>) -> Result<(), Memory>
    ensures { OnOk result (out.new.items ≡ out.old.items ++ flat_map spaced_item items.now) }
{
    for item in items {
        push_item(alloc, item, out)?;
    }
    Ok(())
}

/// Appends a space and an item.
fn push_item(alloc: Global, item: &Item, out: &mut Vec<u8>) -> Result<(), Memory>
    ensures { OnOk result (out.new.items ≡ out.old.items ++ spaced_item item.now) }
{
    match item {
        Item::ReadableServer(server) => push_about(alloc, b" L", *server, b" r", out),
        Item::Ready { conn, ready } => {
            push_about(alloc, b" C", *conn, b" ", out)?;
            push_text(ready_text(*ready), out)
        }
        Item::Up(conn) => push_about(alloc, b" C", *conn, b" up", out),
        Item::Down(conn) => push_about(alloc, b" C", *conn, b" down", out),
        Item::WritableChild(child) => push_about(alloc, b" P", *child, b" w", out),
        Item::Child { child, item } => {
            push_about(alloc, b" P", *child, b" ", out)?;
            push_news(alloc, item, out)
        }
        Item::Extra { code, bytes } => {
            push_signed(alloc, b" X ", *code, out)?;
            push_spaced_bytes(bytes.items(), out)
        }
    }
}

/// Appends an id after its front, and what is said of it.
fn push_about(
    alloc: Global,
    front: &[u8],
    id: u32,
    said: &[u8],
    out: &mut Vec<u8>,
) -> Result<(), Memory>
    ensures { OnOk result (out.new.items ≡ out.old.items ++ (front.now ++ decimal id ++ said.now)) }
{
    push_number(alloc, front, u64::from(id), out)?;
    push_text(said, out)
}

fn ready_text(ready: Readiness) -> &'static [u8]
    ensures { result.now ≡ ready_text ready }
{
    match ready {
        Readiness::Read => b"r",
        Readiness::Write => b"w",
        Readiness::Both => b"rw",
    }
}

fn push_news(alloc: Global, item: &ChildItem, out: &mut Vec<u8>) -> Result<(), Memory>
    ensures { OnOk result (out.new.items ≡ out.old.items ++ news_text item.now) }
{
    match item {
        ChildItem::Broken => push_text(b"broken", out),
        ChildItem::Out(bytes) => {
            push_text(b"out", out)?;
            push_spaced_bytes(bytes.items(), out)
        }
        ChildItem::OutEnd => push_text(b"outend", out),
        ChildItem::Errs(bytes) => {
            push_text(b"err", out)?;
            push_spaced_bytes(bytes.items(), out)
        }
        ChildItem::ErrsEnd => push_text(b"errend", out),
        ChildItem::Exit(code) => push_signed(alloc, b"exit ", *code, out),
    }
}

fn push_launch(alloc: Global, words: &WordList, out: &mut Vec<u8>) -> Result<(), Memory>
    ensures { OnOk result
        (out.new.items
        ≡ out.old.items ++ (codes "launch " ++ shown (Items (values (map Text words.now))))) }
{
    let mut texts = Vec::new(alloc);
    for word in words.items() {
        texts.push(Value::text(word.clone()?))?;
    }
    let list = Value::list(Rc::new(alloc, ValueList::of(texts))?);
    push_text(b"launch ", out)?;
    show(alloc, &list, out)
}
