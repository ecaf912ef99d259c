//! Tokens without their columns.
ghost use Rattle.std.specs.Prelude.{◌≡◌, IfOk, map};
ghost use Rattle.model_text.specs.Tokens.{Name as PlainName};
ghost use Rattle.model_text.specs.Words.{reserved_of, reserved_text, lexeme_of, lexemes_of};
ghost use Rattle.aio_lex.specs.Token.{plain_class};
ghost use Rattle.script_term.specs.Lexeme.{plain_lexeme};

use aio_lex::{Symbol, TokenClass, TokenList};
use model_text::ReservedWord;
use std::alloc::{AllocError, Global};
use std::rc::{RcSlice, RcStr};

/// A token without its columns. Reserved words are no names.
#[derive(Drop)]
pub enum Lexeme {
    Reserved(ReservedWord),
    Named(RcStr),
    Number(i64),
    Texts(RcStr),
    Octets(RcSlice<u8>),
    Sign(Symbol),
}

const RESERVED_WORDS: [ReservedWord; 25] = [
    ReservedWord::Profile,
    ReservedWord::Def,
    ReservedWord::End,
    ReservedWord::Yield,
    ReservedWord::From,
    ReservedWord::Print,
    ReservedWord::Raise,
    ReservedWord::Return,
    ReservedWord::Pass,
    ReservedWord::If,
    ReservedWord::Else,
    ReservedWord::While,
    ReservedWord::Try,
    ReservedWord::Except,
    ReservedWord::As,
    ReservedWord::Finally,
    ReservedWord::With,
    ReservedWord::Group,
    ReservedWord::Timeout,
    ReservedWord::And,
    ReservedWord::Or,
    ReservedWord::Not,
    ReservedWord::TrueValue,
    ReservedWord::FalseValue,
    ReservedWord::NoneValue,
];

/// The tokens of a line without their columns.
pub fn lexemes(alloc: Global, tokens: &TokenList) -> Result<Vec<Lexeme>, AllocError>
    ensures { IfOk result (λ lexemes. map plain_lexeme lexemes.items ≡ lexemes_of tokens.now) }
{
    let mut lexemes = Vec::new(alloc);
    for token in tokens.items() {
        lexemes.push(without_columns(alloc, token.class())?)?;
    }
    Ok(lexemes)
}

fn without_columns(alloc: Global, class: TokenClass<'_>) -> Result<Lexeme, AllocError>
    ensures { IfOk result (λ lexeme. plain_lexeme lexeme ≡ lexeme_of (plain_class class.entry)) }
{
    Ok(match class {
        TokenClass::Name(name) => word_or_name(alloc, name)?,
        TokenClass::Int(number) => Lexeme::Number(number),
        TokenClass::Text(text) => Lexeme::Texts(RcStr::from_str(alloc, text)?),
        TokenClass::Bytes(bytes) => Lexeme::Octets(RcSlice::from_slice(alloc, bytes)?),
        TokenClass::Symbol(symbol) => Lexeme::Sign(symbol),
    })
}

fn word_or_name(alloc: Global, name: &str) -> Result<Lexeme, AllocError>
    ensures { IfOk result (λ lexeme. plain_lexeme lexeme ≡ lexeme_of (PlainName name.now)) }
{
    match reserved_word(name) {
        Some(word) => Ok(Lexeme::Reserved(word)),
        None => Ok(Lexeme::Named(RcStr::from_str(alloc, name)?)),
    }
}

/// The reserved word that is spelled so.
fn reserved_word(name: &str) -> Option<ReservedWord>
    ensures { result ≡ reserved_of name.now }
{
    RESERVED_WORDS
        .iter()
        .copied()
        .find(|word| spelling(*word) == name)
}

fn spelling(word: ReservedWord) -> &'static str
    ensures { result.now ≡ reserved_text word }
{
    match word {
        ReservedWord::Profile => "profile",
        ReservedWord::Def => "def",
        ReservedWord::End => "end",
        ReservedWord::Yield => "yield",
        ReservedWord::From => "from",
        ReservedWord::Print => "print",
        ReservedWord::Raise => "raise",
        ReservedWord::Return => "return",
        ReservedWord::Pass => "pass",
        ReservedWord::If => "if",
        ReservedWord::Else => "else",
        ReservedWord::While => "while",
        ReservedWord::Try => "try",
        ReservedWord::Except => "except",
        ReservedWord::As => "as",
        ReservedWord::Finally => "finally",
        ReservedWord::With => "with",
        ReservedWord::Group => "group",
        ReservedWord::Timeout => "timeout",
        ReservedWord::And => "and",
        ReservedWord::Or => "or",
        ReservedWord::Not => "not",
        ReservedWord::TrueValue => "True",
        ReservedWord::FalseValue => "False",
        ReservedWord::NoneValue => "None",
    }
}
