//! The answers that lines say.
ghost use Rattle.std.specs.Prelude.{◌≡◌, IfOk};
ghost use Rattle.std.specs.List.{list_all};
ghost use Rattle.model_wire.specs.JournalText.{answer_of, exits_fit, item_exit_fits, exit_fits, is_exit_code};
ghost use Rattle.aio_journal.specs.Steps.{Takes, number_at, bare_answer, answer_after, at_end};

use crate::items::{next_bytes, next_word, read_items};
use crate::tokens::EntryToken;
use crate::words::Words;
use aio_base::Memory;
use aio_wire::{Answer, ChildItem, Item, ItemList};
use model_wire::EntryWord;
use std::alloc::Global;

/// The answer that words say, or nothing where they say none.
pub fn read_answer(alloc: Global, words: &mut Words<'_>) -> Result<Option<Answer>, Memory>
    ensures { IfOk result (λ said. said ≡ answer_of words.old) }
{
    let Some(word) = next_word(alloc, words)? else {
        return Ok(None);
    };
    read_after(alloc, word, words)
}

/// The answer that begins with this word, by the words after it.
fn read_after(
    alloc: Global,
    word: EntryWord,
    words: &mut Words<'_>,
) -> Result<Option<Answer>, Memory>
    ensures { IfOk result (λ said. said ≡ answer_after word words.old) }
{
    match word {
        EntryWord::Turn => read_turn(alloc, words),
        EntryWord::Data => {
            let Some(bytes) = next_bytes(alloc, words)? else {
                return Ok(None);
            };
            at_end(alloc, Some(Answer::Data(bytes)), words)
        }
        EntryWord::Took => {
            let Some(count) = next_number(alloc, words)? else {
                return Ok(None);
            };
            at_end(alloc, Some(Answer::Took(count)), words)
        }
        EntryWord::Extra => {
            let Some(bytes) = next_bytes(alloc, words)? else {
                return Ok(None);
            };
            at_end(alloc, Some(Answer::Extra(bytes)), words)
        }
        _ => at_end(alloc, bare_answer(word), words),
    }
}

fn read_turn(alloc: Global, words: &mut Words<'_>) -> Result<Option<Answer>, Memory>
    ensures { IfOk result (λ said. said ≡ answer_after EntryWord.Turn words.old) }
{
    let Some(now) = next_number(alloc, words)? else {
        return Ok(None);
    };
    match read_items(alloc, words)? {
        Some(items) => Ok(Some(Answer::Turn {
            now,
            items: ItemList::of(items),
        })),
        None => Ok(None),
    }
}

/// The answer of one word.
fn bare_answer(word: EntryWord) -> Option<Answer>
    ensures { result ≡ bare_answer word }
{
    match word {
        EntryWord::Done => Some(Answer::Done),
        EntryWord::Refused => Some(Answer::Refused),
        EntryWord::Conn => Some(Answer::Conn),
        EntryWord::Again => Some(Answer::Again),
        EntryWord::Broken => Some(Answer::Broken),
        EntryWord::Eof => Some(Answer::Eof),
        EntryWord::Child => Some(Answer::Child),
        _ => None,
    }
}

/// The answer, where no word is left.
fn at_end(
    alloc: Global,
    said: Option<Answer>,
    words: &mut Words<'_>,
) -> Result<Option<Answer>, Memory>
    ensures { IfOk result (λ answer. answer ≡ at_end said words.old) }
{
    match words.next(alloc)? {
        Some(_) => Ok(None),
        None => Ok(said),
    }
}

/// The next word, where it is a number without a sign.
fn next_number(alloc: Global, words: &mut Words<'_>) -> Result<Option<u64>, Memory>
    ensures { IfOk result (Takes number_at words.old words.new) }
{
    match words.next(alloc)? {
        Some(EntryToken::Number(number)) => Ok(Some(number)),
        _ => Ok(None),
    }
}

/// Whether each exit code is in its range, -128 to 255.
pub fn exits_fit(answer: &Answer) -> bool
    ensures { result ≡ exits_fit answer.now }
{
    match answer {
        Answer::Turn { items, .. } => each_exit_fits(items.items()),
        _ => true,
    }
}

fn each_exit_fits(items: &[Item]) -> bool
    ensures { result ≡ list_all item_exit_fits items.now }
{
    items.iter().all(|item| item_exit_fits(item))
}

fn item_exit_fits(item: &Item) -> bool
    ensures { result ≡ item_exit_fits item.now }
{
    match item {
        Item::Child { item, .. } => news_exit_fits(item),
        _ => true,
    }
}

fn news_exit_fits(item: &ChildItem) -> bool
    ensures { result ≡ exit_fits item.now }
{
    match item {
        ChildItem::Exit(code) => is_exit_code(*code),
        _ => true,
    }
}

fn is_exit_code(code: i64) -> bool
    ensures { result ≡ is_exit_code code }
{
    code >= -128 && code <= 255
}
