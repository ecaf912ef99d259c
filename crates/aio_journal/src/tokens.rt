//! What the words of an entry are.
ghost use Rattle.std.specs.Prelude.{◌≡◌, ◌<◌, IfOk, IsTrue, find, slice_index, length};
ghost use Rattle.std.specs.Str.{bytes_eq};
ghost use Rattle.model_text.specs.Letters.{is_quote};
ghost use Rattle.model_wire.specs.JournalText.{token_of, word_token, entry_word_text, entry_words};

use crate::literal::literal_token;
use crate::numbers::{id_token, minus_token, number_token};
use aio_base::{Blob, Memory};
use model_wire::{EntryWord, IdLetter};
use std::alloc::Global;

/// What a word of an entry is.
pub type EntryToken = model_wire::EntryToken<Blob>;

/// The words of entries.
static ENTRY_WORDS: [EntryWord; 22] = [
    EntryWord::Turn,
    EntryWord::Done,
    EntryWord::Refused,
    EntryWord::Conn,
    EntryWord::Again,
    EntryWord::Broken,
    EntryWord::Data,
    EntryWord::Eof,
    EntryWord::Took,
    EntryWord::Child,
    EntryWord::Extra,
    EntryWord::Read,
    EntryWord::Write,
    EntryWord::Both,
    EntryWord::Up,
    EntryWord::Down,
    EntryWord::Out,
    EntryWord::OutEnd,
    EntryWord::Errs,
    EntryWord::ErrsEnd,
    EntryWord::Exit,
    EntryWord::News,
];

/// What a word is.
pub fn token_of(alloc: Global, word: &[u8]) -> Result<EntryToken, Memory>
    ensures { IfOk result (λ token. token ≡ token_of word.now) }
{
    let [first, rest @ ..] = word else {
        return Ok(EntryToken::Other);
    };
    match first {
        b'0'..=b'9' => Ok(number_token(word)),
        b'-' => Ok(minus_token(rest)),
        b'L' => Ok(id_token(IdLetter::Server, rest)),
        b'C' => Ok(id_token(IdLetter::Conn, rest)),
        b'P' => Ok(id_token(IdLetter::Child, rest)),
        b'b' if opens(rest) => literal_token(alloc, &rest[1..]),
        _ => Ok(word_token(word)),
    }
}

/// Whether a quote comes first.
fn opens(rest: &[u8]) -> bool
    ensures value { result ≡ is_quote (slice_index rest.now 0) }
    ensures room { IsTrue result → 0 < length rest.now }
{
    !rest.is_empty() && rest[0] == b'"'
}

fn word_token(word: &[u8]) -> EntryToken
    ensures { result ≡ word_token word.now }
{
    match entry_word(word) {
        Some(known) => EntryToken::Word(known),
        None => EntryToken::Other,
    }
}

/// The word that is spelled so.
fn entry_word(word: &[u8]) -> Option<EntryWord>
    ensures { result ≡ find (λ known. bytes_eq (entry_word_text known) word.now) entry_words }
{
    ENTRY_WORDS
        .iter()
        .copied()
        .find(|known| spelling(*known) == word)
}

fn spelling(word: EntryWord) -> &'static [u8]
    ensures { result.now ≡ entry_word_text word }
{
    match word {
        EntryWord::Turn => b"turn",
        EntryWord::Done => b"ok",
        EntryWord::Refused => b"refused",
        EntryWord::Conn => b"conn",
        EntryWord::Again => b"again",
        EntryWord::Broken => b"broken",
        EntryWord::Data => b"data",
        EntryWord::Eof => b"eof",
        EntryWord::Took => b"took",
        EntryWord::Child => b"child",
        EntryWord::Extra => b"extra",
        EntryWord::Read => b"r",
        EntryWord::Write => b"w",
        EntryWord::Both => b"rw",
        EntryWord::Up => b"up",
        EntryWord::Down => b"down",
        EntryWord::Out => b"out",
        EntryWord::OutEnd => b"outend",
        EntryWord::Errs => b"err",
        EntryWord::ErrsEnd => b"errend",
        EntryWord::Exit => b"exit",
        EntryWord::News => b"X",
    }
}
