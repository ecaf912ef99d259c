//! The items of a turn.
ghost use Rattle.std.specs.Prelude.{◌≡◌, ◌≤◌, IfOk, OnOk, length, option_map};
ghost use Rattle.model_wire.specs.JournalText.{items_of, minus};
ghost use Rattle.aio_journal.specs.Steps.{Takes, word_at, bytes_at, code_at, server_item, conn_item, child_item, child_step, about, word_step, item_step, StepIs};

use crate::tokens::EntryToken;
use crate::words::Words;
use aio_base::{Blob, Memory};
use aio_wire::{ChildItem, Item, Readiness};
use model_wire::{EntryWord, IdLetter};
use std::alloc::Global;

/// The items that words say, or nothing where they say none.
pub fn read_items(alloc: Global, words: &mut Words<'_>) -> Result<Option<Vec<Item>>, Memory>
    ensures { IfOk result (λ items. items_of words.old ≡ option_map (λ list. list.items) items) }
{
    let mut items = Vec::new(alloc);
    while let Some(subject) = words.next(alloc)? {
        let Some(item) = read_item(alloc, subject, words)? else {
            return Ok(None);
        };
        items.push(item)?;
    }
    Ok(Some(items))
}

/// The item that begins with this word.
fn read_item(
    alloc: Global,
    subject: EntryToken,
    words: &mut Words<'_>,
) -> Result<Option<Item>, Memory>
    ensures step { IfOk result (StepIs (item_step subject words.old) words.new) }
    ensures shorter { OnOk result (length words.new ≤ length words.old) }
{
    match subject {
        EntryToken::Id { letter, number } => {
            let Some(known) = next_word(alloc, words)? else {
                return Ok(None);
            };
            read_about(alloc, letter, number, known, words)
        }
        EntryToken::Word(EntryWord::News) => read_extra(alloc, words),
        _ => Ok(None),
    }
}

/// The item of a listener, a connection or a child that is said by this word.
fn read_about(
    alloc: Global,
    letter: IdLetter,
    number: u32,
    word: EntryWord,
    words: &mut Words<'_>,
) -> Result<Option<Item>, Memory>
    ensures step { IfOk result (StepIs (about letter number word words.old) words.new) }
    ensures shorter { OnOk result (length words.new ≤ length words.old) }
{
    match letter {
        IdLetter::Server => Ok(server_item(number, word)),
        IdLetter::Conn => Ok(conn_item(number, word)),
        IdLetter::Child => read_child(alloc, number, word, words),
    }
}

fn server_item(server: u32, word: EntryWord) -> Option<Item>
    ensures { result ≡ server_item server word }
{
    match word {
        EntryWord::Read => Some(Item::ReadableServer(server)),
        _ => None,
    }
}

fn conn_item(conn: u32, word: EntryWord) -> Option<Item>
    ensures { result ≡ conn_item conn word }
{
    match word {
        EntryWord::Read => Some(Item::Ready {
            conn,
            ready: Readiness::Read,
        }),
        EntryWord::Write => Some(Item::Ready {
            conn,
            ready: Readiness::Write,
        }),
        EntryWord::Both => Some(Item::Ready {
            conn,
            ready: Readiness::Both,
        }),
        EntryWord::Up => Some(Item::Up(conn)),
        EntryWord::Down => Some(Item::Down(conn)),
        _ => None,
    }
}

fn child_item(child: u32, word: EntryWord) -> Option<Item>
    ensures { result ≡ child_item child word }
{
    match word {
        EntryWord::Write => Some(Item::WritableChild(child)),
        EntryWord::Broken => Some(Item::Child {
            child,
            item: ChildItem::Broken,
        }),
        EntryWord::OutEnd => Some(Item::Child {
            child,
            item: ChildItem::OutEnd,
        }),
        EntryWord::ErrsEnd => Some(Item::Child {
            child,
            item: ChildItem::ErrsEnd,
        }),
        _ => None,
    }
}

fn read_child(
    alloc: Global,
    child: u32,
    word: EntryWord,
    words: &mut Words<'_>,
) -> Result<Option<Item>, Memory>
    ensures step { IfOk result (StepIs (child_step child word words.old) words.new) }
    ensures shorter { OnOk result (length words.new ≤ length words.old) }
{
    match word {
        EntryWord::Out => {
            let Some(bytes) = next_bytes(alloc, words)? else {
                return Ok(None);
            };
            let item = ChildItem::Out(bytes);
            Ok(Some(Item::Child { child, item }))
        }
        EntryWord::Errs => {
            let Some(bytes) = next_bytes(alloc, words)? else {
                return Ok(None);
            };
            let item = ChildItem::Errs(bytes);
            Ok(Some(Item::Child { child, item }))
        }
        EntryWord::Exit => {
            let Some(code) = next_code(alloc, words)? else {
                return Ok(None);
            };
            let item = ChildItem::Exit(code);
            Ok(Some(Item::Child { child, item }))
        }
        _ => Ok(child_item(child, word)),
    }
}

fn read_extra(alloc: Global, words: &mut Words<'_>) -> Result<Option<Item>, Memory>
    ensures step { IfOk result (StepIs (word_step EntryWord.News words.old) words.new) }
    ensures shorter { OnOk result (length words.new ≤ length words.old) }
{
    let Some(code) = next_code(alloc, words)? else {
        return Ok(None);
    };
    let Some(bytes) = next_bytes(alloc, words)? else {
        return Ok(None);
    };
    Ok(Some(Item::Extra { code, bytes }))
}

/// The next word, where it is one of an entry's.
pub fn next_word(alloc: Global, words: &mut Words<'_>) -> Result<Option<EntryWord>, Memory>
    ensures takes { IfOk result (Takes word_at words.old words.new) }
    ensures shorter { OnOk result (length words.new ≤ length words.old) }
{
    match words.next(alloc)? {
        Some(EntryToken::Word(word)) => Ok(Some(word)),
        _ => Ok(None),
    }
}

/// The next word, where it is a literal.
pub fn next_bytes(alloc: Global, words: &mut Words<'_>) -> Result<Option<Blob>, Memory>
    ensures takes { IfOk result (Takes bytes_at words.old words.new) }
    ensures shorter { OnOk result (length words.new ≤ length words.old) }
{
    match words.next(alloc)? {
        Some(EntryToken::Bytes(bytes)) => Ok(Some(bytes)),
        _ => Ok(None),
    }
}

/// The next word, where it is a number with or without its sign.
fn next_code(alloc: Global, words: &mut Words<'_>) -> Result<Option<i64>, Memory>
    ensures takes { IfOk result (Takes code_at words.old words.new) }
    ensures shorter { OnOk result (length words.new ≤ length words.old) }
{
    match words.next(alloc)? {
        Some(EntryToken::Number(code)) => Ok(Some(code as i64)),
        Some(EntryToken::Minus(code)) => Ok(Some(minus(code))),
        _ => Ok(None),
    }
}

/// A number with a minus sign before it.
fn minus(number: u64) -> i64
    requires { number ≤ 0x8000_0000_0000_0000 }
    ensures { result ≡ minus number }
{
    if number == 0 {
        0
    } else {
        -((number - 1) as i64) - 1
    }
}
