//! What lexemes begin or end with.
ghost use Rattle.std.specs.Prelude.{◌≡◌, option_map, map};
ghost use Rattle.std.specs.Rc.{rc_str_bytes};
ghost use Rattle.model_text.specs.Words.{is_sign};
ghost use Rattle.model_text.specs.Cutting.{before_last};
ghost use Rattle.model_text.specs.Levels.{bare_name};
ghost use Rattle.model_text.specs.Forms.{before_as};
ghost use Rattle.script_term.specs.Lexeme.{plain_lexeme};
ghost use Rattle.script_form.specs.Fronts.{is_word, name_in, behind_sign, behind_word, behind_name, in_parentheses, as_name, closing_name};

use script_term::{Lexeme, ReservedWord, Symbol};
use std::rc::RcStr;

/// Whether a lexeme is this symbol.
pub fn is_sign(lexeme: &Lexeme, symbol: Symbol) -> bool
    ensures { result ≡ is_sign symbol (plain_lexeme lexeme.now) }
{
    match lexeme {
        Lexeme::Sign(other) => *other == symbol,
        _ => false,
    }
}

fn is_word(lexeme: &Lexeme, word: ReservedWord) -> bool
    ensures { result ≡ is_word word (plain_lexeme lexeme.now) }
{
    match lexeme {
        Lexeme::Reserved(other) => *other == word,
        _ => false,
    }
}

fn name_in(lexeme: &Lexeme) -> Option<&RcStr>
    ensures { option_map (λ name. rc_str_bytes name.now) result
        ≡ name_in (plain_lexeme lexeme.now) }
{
    match lexeme {
        Lexeme::Named(name) => Some(name),
        _ => None,
    }
}

/// What stands behind this symbol.
pub fn behind_sign(lexemes: &[Lexeme], symbol: Symbol) -> Option<&[Lexeme]>
    ensures { option_map (λ rest. map plain_lexeme rest.now) result
        ≡ behind_sign symbol (map plain_lexeme lexemes.now) }
{
    let (first, rest) = lexemes.split_first()?;
    if is_sign(first, symbol) {
        Some(rest)
    } else {
        None
    }
}

/// What stands behind this reserved word.
pub fn behind_word(lexemes: &[Lexeme], word: ReservedWord) -> Option<&[Lexeme]>
    ensures { option_map (λ rest. map plain_lexeme rest.now) result
        ≡ behind_word word (map plain_lexeme lexemes.now) }
{
    let (first, rest) = lexemes.split_first()?;
    if is_word(first, word) {
        Some(rest)
    } else {
        None
    }
}

/// A name, and what stands behind it.
pub fn behind_name(lexemes: &[Lexeme]) -> Option<(&RcStr, &[Lexeme])>
    ensures { option_map (λ found. (rc_str_bytes found.0.now, map plain_lexeme found.1.now)) result
        ≡ behind_name (map plain_lexeme lexemes.now) }
{
    let (first, rest) = lexemes.split_first()?;
    Some((name_in(first)?, rest))
}

/// One name alone.
pub fn bare_name(lexemes: &[Lexeme]) -> Option<&RcStr>
    ensures { option_map (λ name. rc_str_bytes name.now) result
        ≡ bare_name (map plain_lexeme lexemes.now) }
{
    let (name, rest) = behind_name(lexemes)?;
    if rest.is_empty() { Some(name) } else { None }
}

/// What stands before the last lexeme, if that is this symbol.
pub fn before_last(lexemes: &[Lexeme], symbol: Symbol) -> Option<&[Lexeme]>
    ensures { option_map (λ inner. map plain_lexeme inner.now) result
        ≡ before_last symbol (map plain_lexeme lexemes.now) }
{
    let (last, inner) = lexemes.split_last()?;
    if is_sign(last, symbol) {
        Some(inner)
    } else {
        None
    }
}

/// What stands between a parenthesis at the front and one at the end.
pub fn in_parentheses(lexemes: &[Lexeme]) -> Option<&[Lexeme]>
    ensures { option_map (λ inner. map plain_lexeme inner.now) result
        ≡ in_parentheses (map plain_lexeme lexemes.now) }
{
    before_last(
        behind_sign(lexemes, Symbol::LeftParenthesis)?,
        Symbol::RightParenthesis,
    )
}

/// The name of `as NAME`.
pub fn as_name(lexemes: &[Lexeme]) -> Option<&RcStr>
    ensures { option_map (λ name. rc_str_bytes name.now) result
        ≡ as_name (map plain_lexeme lexemes.now) }
{
    bare_name(behind_word(lexemes, ReservedWord::As)?)
}

/// The name of `) as NAME`.
fn closing_name(lexemes: &[Lexeme]) -> Option<&RcStr>
    ensures { option_map (λ name. rc_str_bytes name.now) result
        ≡ closing_name (map plain_lexeme lexemes.now) }
{
    as_name(behind_sign(lexemes, Symbol::RightParenthesis)?)
}

/// What stands before `) as NAME` at the end, with the name.
pub fn before_as(lexemes: &[Lexeme]) -> Option<(&[Lexeme], &RcStr)>
    ensures { option_map (λ found. (map plain_lexeme found.0.now, rc_str_bytes found.1.now)) result
        ≡ before_as (map plain_lexeme lexemes.now) }
{
    let place = lexemes.len().checked_sub(3)?;
    let (inner, end) = lexemes.split_at(place);
    Some((inner, closing_name(end)?))
}
