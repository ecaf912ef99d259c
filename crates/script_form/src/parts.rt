//! What stands between commas.
ghost use Rattle.std.specs.Prelude.{◌≡◌, ◌+◌, ◌^◌, ◌<◌, ◌&&◌, nat_eq, map, IfOk};
ghost use Rattle.model_text.specs.declared.symbol.Symbol.TheVariants as symbol;
ghost use Rattle.model_text.specs.Words.{is_sign};
ghost use Rattle.model_text.specs.Cutting.{depth_behind, parts};
ghost use Rattle.script_term.specs.Lexeme.{plain_lexeme};
ghost use Rattle.script_form.specs.Parts.{plain_part};

use crate::fronts::is_sign;
use script_term::{Lexeme, Symbol};
use std::alloc::{AllocError, Global};

/// What stands between commas outside brackets. Where nothing stands at all, there is no part.
pub fn parts(alloc: Global, lexemes: &[Lexeme]) -> Result<Vec<&[Lexeme]>, AllocError>
    ensures { IfOk result (λ all. map plain_part all.items ≡ parts (map plain_lexeme lexemes.now)) }
{
    let mut parts = Vec::new(alloc);
    let mut start = 0;
    let mut depth = 0;
    for (at, lexeme) in lexemes.iter().enumerate() {
        if is_cut(depth, lexeme) {
            parts.push(&lexemes[start..at])?;
            start = at + 1;
        }
        depth = depth_behind(depth, lexeme);
    }
    if !lexemes.is_empty() {
        parts.push(&lexemes[start..])?;
    }
    Ok(parts)
}

/// Whether parts end at a lexeme before which so many brackets are open.
fn is_cut(depth: usize, lexeme: &Lexeme) -> bool
    ensures { result ≡ (nat_eq depth 0 && is_sign symbol.Comma (plain_lexeme lexeme.now)) }
{
    depth == 0 && is_sign(lexeme, Symbol::Comma)
}

/// How many brackets are open behind a lexeme.
fn depth_behind(depth: usize, lexeme: &Lexeme) -> usize
    requires { depth + 1 < 2 ^ 64 }
    ensures { result ≡ depth_behind depth (plain_lexeme lexeme.now) }
{
    match lexeme {
        Lexeme::Sign(Symbol::LeftParenthesis | Symbol::LeftBracket) => depth + 1,
        Lexeme::Sign(Symbol::RightParenthesis | Symbol::RightBracket) => depth.saturating_sub(1),
        _ => depth,
    }
}
