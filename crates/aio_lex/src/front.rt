//! What stands at the front of what is left of a line.

ghost use Rattle.std.specs.Prelude.{◌≡◌, ◌<◌, ◌≤◌, ◌+◌, ◌^◌, false, length, slice_index, drop, IsTrue, take_while, IfOk, IsAscii, string_bytes, Some};
ghost use Rattle.model_text.specs.Letters.{is_word, is_quote};
ghost use Rattle.model_text.specs.Symbols.{symbol_at};
ghost use Rattle.model_text.specs.Literals.{inside_of};
ghost use Rattle.model_text.specs.Pieces.{Comment, Word, Numeral, literal_at, punctuation_at};
ghost use Rattle.aio_lex.specs.Token.{plain_content};
ghost use Rattle.aio_lex.specs.Fronts.{FrontIs, first_piece};

use crate::fault::LexFault;
use crate::literal::{closing, literal_bytes};
use crate::number::number;
use crate::symbols::{symbol, symbol_len};
use crate::token::{Content, Span, Token};
use crate::words::{bad_place, is_word, word_len};
use model_text::Literal;
use std::alloc::{AllocError, Global};

/// A token or none, and how many bytes it takes.
#[derive(Drop)]
pub struct Front {
    pub token: Option<Token>,
    pub len: usize,
}

impl Front {
    /// A token that begins in this column.
    fn token(content: Content, column: usize, len: usize) -> Self
        requires { column + len < 2 ^ 64 }
        ensures token { result.token
            ≡ Some (record { class = plain_content content; start = column; end = column + len }) }
        ensures len { result.len ≡ len }
    {
        let span = Span {
            start: column,
            end: column + len,
        };
        Front {
            token: Some(Token::new(content, span)),
            len,
        }
    }
}

#[tactic(auto, unfolding(model_text::specs::Tokens::piece_tokens))]
fn comment(text: &[u8], column: usize) -> Result<Front, LexFault>
    requires { column + length text.now < 2 ^ 64 }
    ensures { FrontIs column (Comment text.now) result }
{
    match bad_place(text) {
        Some(place) => Err(LexFault::BadByte(column + place)),
        None => Ok(Front {
            token: None,
            len: text.len(),
        }),
    }
}

fn ascii_text(alloc: Global, bytes: &[u8]) -> Result<String, AllocError>
    requires { IsAscii bytes.now }
    ensures { IfOk result (λ text. string_bytes text ≡ bytes.now) }
{
    String::from_str(alloc, str::from_utf8(bytes).unwrap())
}

#[tactic(auto, unfolding(model_text::specs::Tokens::piece_tokens))]
fn word(alloc: Global, rest: &[u8], column: usize) -> Result<Front, LexFault>
    requires { column + length rest.now < 2 ^ 64 }
    ensures { FrontIs column (Word (take_while is_word rest.now)) result }
{
    let len = word_len(rest);
    let name = ascii_text(alloc, &rest[..len])?;
    Ok(Front::token(Content::Name(name), column, len))
}

#[tactic(auto, unfolding(model_text::specs::Tokens::piece_tokens))]
fn numeral(rest: &[u8], column: usize) -> Result<Front, LexFault>
    requires { column + length rest.now < 2 ^ 64 }
    ensures { FrontIs column (Numeral (take_while is_word rest.now)) result }
{
    let len = word_len(rest);
    match number(&rest[..len]) {
        Some(number) => Ok(Front::token(Content::Int(number), column, len)),
        None => Err(LexFault::BadNumber(column)),
    }
}

/// A literal, by the bytes behind its opening quote.
#[tactic(auto, unfolding(model_text::specs::Tokens::piece_tokens))]
fn literal(alloc: Global, literal: Literal, bytes: &[u8], column: usize) -> Result<Front, LexFault>
    requires { column + 2 + length bytes.now < 2 ^ 64 }
    ensures { FrontIs column (literal_at literal bytes.now (inside_of false bytes.now)) result }
{
    let Some(place) = closing(bytes) else {
        return Err(LexFault::OpenText(column));
    };
    let opening = match literal {
        Literal::OfText => 1,
        Literal::OfBytes => 2,
    };
    let said = literal_bytes(alloc, literal, &bytes[..place], column + opening)?;
    let content = match literal {
        Literal::OfText => Content::Text(String::from_utf8(said).unwrap()),
        Literal::OfBytes => Content::Bytes(said),
    };
    Ok(Front::token(content, column, opening + place + 1))
}

#[tactic(auto, unfolding(model_text::specs::Tokens::piece_tokens))]
fn punctuation(rest: &[u8], column: usize) -> Result<Front, LexFault>
    requires some { 0 < length rest.now }
    requires fits { column + length rest.now < 2 ^ 64 }
    ensures { FrontIs column (punctuation_at (slice_index rest.now 0) (symbol_at rest.now)) result }
{
    match symbol(rest) {
        Some(symbol) => {
            let len = symbol_len(symbol);
            Ok(Front::token(Content::Symbol(symbol), column, len))
        }
        None => Err(LexFault::BadByte(column)),
    }
}

/// Whether a quote touches the first byte.
fn opens_bytes(rest: &[u8]) -> bool
    requires { 0 < length rest.now }
    ensures value { result ≡ is_quote (slice_index (drop 1 rest.now) 0) }
    ensures room { IsTrue result → 2 ≤ length rest.now }
{
    rest.len() > 1 && rest[1] == b'"'
}

/// What stands at the front of the rest of a line, which begins in this column.
pub fn read_front(alloc: Global, rest: &[u8], column: usize) -> Result<Front, LexFault>
    requires some { 0 < length rest.now }
    requires fits { column + 1 + length rest.now < 2 ^ 64 }
    ensures { FrontIs column (first_piece rest.now) result }
{
    let first = rest[0];
    match first {
        b' ' => Ok(Front {
            token: None,
            len: 1,
        }),
        b'#' => comment(rest, column),
        b'"' => literal(alloc, Literal::OfText, &rest[1..], column),
        b'b' if opens_bytes(rest) => literal(alloc, Literal::OfBytes, &rest[2..], column),
        b'0'..=b'9' => numeral(rest, column),
        _ if is_word(first) => word(alloc, rest, column),
        _ => punctuation(rest, column),
    }
}
