//! The words of a line.
ghost use Rattle.std.specs.Prelude.{◌≡◌, ◌≤◌, ◌<◌, [], ◌∷◌, length, IfOk, OnOk, IsSome, MatchOption};
ghost use Rattle.model_wire.specs.JournalText.{Outside, QuoteState, words_of, tokens_of, is_outside, standing_after};
ghost use Rattle.aio_journal.specs.Words.{plain_place, word_len, NextIs, IsBounded};

use crate::tokens::{EntryToken, token_of};
use aio_base::Memory;
use std::alloc::Global;
use std::marker::Model;

/// Where a byte stands.
#[derive(Clone, Copy, PartialEq, Eq)]
pub enum QuoteState {
    Outside,
    /// In a literal.
    Inside,
    /// In a literal, after a backslash that takes it along.
    Escaped,
}

/// The words that are left of a line. Contracts see what each is.
#[derive(Drop)]
pub struct Words<'a> {
    rest: &'a [u8],
}

impl<'a> Model for Words<'a> {
    ghost use Rattle.std.specs.Prelude.{List};
    ghost use Rattle.model_wire.specs.JournalText.{EntryToken, tokens_of};

    ghost Value = { List EntryToken };

    ghost view = { λ words. tokens_of words.rest.now };
}

impl<'a> Words<'a> {
    /// The words of a line, from its first byte on.
    pub fn new(line: &'a [u8]) -> Words<'a>
        ensures { result ≡ tokens_of line.now }
    {
        Words { rest: line }
    }

    /// Takes the next word: what it is, or nothing where none is left.
    pub fn next(&mut self, alloc: Global) -> Result<Option<EntryToken>, Memory>
        ensures next { IfOk result (NextIs self.old self.new) }
        ensures bounded { IfOk result IsBounded }
        ensures shorter { OnOk result (length self.new ≤ length self.old) }
        ensures smaller { IfOk result (λ token. IsSome token → length self.new < length self.old) }
    {
        let Some((word, rest)) = next_word(self.rest) else {
            return Ok(None);
        };
        let token = token_of(alloc, word)?;
        self.rest = rest;
        Ok(Some(token))
    }
}

/// The first word of a text, and what follows it; nothing where there is none.
fn next_word(text: &[u8]) -> Option<(&[u8], &[u8])>
    ensures { MatchOption result (words_of text.now ≡ [])
        (λ found. words_of text.now ≡ found.0.now ∷ words_of found.1.now) }
{
    let text = without_spaces(text);
    let len = word_len(text);
    if len == 0 {
        return None;
    }
    Some((&text[..len], &text[len..]))
}

/// A text without the spaces that it begins with.
fn without_spaces(text: &[u8]) -> &[u8]
    ensures words { words_of result.now ≡ words_of text.now }
    ensures first { word_len Outside result.now ≡ 0 → result.now ≡ [] }
{
    for (at, byte) in text.iter().enumerate() {
        if *byte != b' ' {
            return &text[at..];
        }
    }
    &text[text.len()..]
}

/// How many bytes the word has that a text begins with.
fn word_len(text: &[u8]) -> usize
    ensures value { result ≡ word_len Outside text.now }
    ensures within { result ≤ length text.now }
{
    let mut place = QuoteState::Outside;
    for (at, byte) in text.iter().enumerate() {
        if is_outside(place) && *byte == b' ' {
            return at;
        }
        place = place_after(place, *byte);
    }
    text.len()
}

fn is_outside(place: QuoteState) -> bool
    ensures { result ≡ is_outside (plain_place place) }
{
    matches!(place, QuoteState::Outside)
}

/// Where the byte after this one stands.
fn place_after(place: QuoteState, byte: u8) -> QuoteState
    ensures { plain_place result ≡ standing_after (plain_place place) byte }
{
    match place {
        QuoteState::Outside => {
            if byte == b'"' {
                QuoteState::Inside
            } else {
                QuoteState::Outside
            }
        }
        QuoteState::Inside => match byte {
            b'"' => QuoteState::Outside,
            b'\\' => QuoteState::Escaped,
            _ => QuoteState::Inside,
        },
        QuoteState::Escaped => QuoteState::Inside,
    }
}
