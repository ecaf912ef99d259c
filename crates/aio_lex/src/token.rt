use model_text::Symbol;
use std::marker::Model;

/// What a token is, with its value.
#[derive(Clone, Copy, PartialEq, Eq)]
pub enum TokenClass<'a> {
    /// A letter or `_`, then letters, digits and `_`.
    Name(&'a str),
    /// A decimal number, which has no sign: 0 to 9223372036854775807.
    Int(i64),
    /// What a literal `"..."` says, in ASCII.
    Text(&'a str),
    /// What a literal `b"..."` says.
    Bytes(&'a [u8]),
    Symbol(Symbol),
}

/// Where a token stands in its line: the column of its first byte, from 1, and the
/// column behind its last.
#[derive(Clone, Copy, PartialEq, Eq)]
pub struct Span {
    pub start: usize,
    pub end: usize,
}

/// A token with the content that it owns.
#[derive(Drop)]
pub(crate) enum Content {
    Name(String),
    Int(i64),
    Text(String),
    Bytes(Vec<u8>),
    Symbol(Symbol),
}

/// A token of a line: its class with its value, and its span.
#[derive(Drop)]
pub struct Token {
    content: Content,
    span: Span,
}

impl Model for Token {
    ghost use Rattle.model_text.specs.Tokens.{Token as PlainToken};

    ghost Value = { PlainToken };

    ghost use Rattle.aio_lex.specs.Token.{plain_token};

    ghost view = { plain_token };
}

impl Token {
    ghost use Rattle.std.specs.Prelude.{◌≡◌};
    ghost use Rattle.aio_lex.specs.Token.{plain_class, plain_content};

    pub(crate) fn new(content: Content, span: Span) -> Self
        ensures { result ≡ record {
          class = plain_content content;
          start = span.start;
          end = span.end;
        } }
    {
        Token { content, span }
    }

    /// Its class, with the value of a number or a literal.
    pub fn class(&self) -> TokenClass<'_>
        ensures { plain_class result ≡ self.now.class }
    {
        match &self.content {
            Content::Name(name) => TokenClass::Name(name.as_str()),
            Content::Int(number) => TokenClass::Int(*number),
            Content::Text(text) => TokenClass::Text(text.as_str()),
            Content::Bytes(bytes) => TokenClass::Bytes(bytes.as_slice()),
            Content::Symbol(symbol) => TokenClass::Symbol(*symbol),
        }
    }

    /// Its columns, from 1: that of its first byte, and the one behind its last.
    pub fn span(&self) -> Span
        ensures start { result.start ≡ self.now.start }
        ensures end { result.end ≡ self.now.end }
    {
        self.span
    }
}
