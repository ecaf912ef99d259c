ghost use Rattle.std.specs.Prelude.{◌≡◌, length};
ghost use Rattle.model_text.specs.Symbols.{symbol_text, symbol_at};

use model_text::Symbol;

/// The longest symbol at the front of the bytes.
pub fn symbol(bytes: &[u8]) -> Option<Symbol>
    ensures { result ≡ symbol_at bytes.now }
{
    match bytes {
        [b'=', b'=', ..] => Some(Symbol::Equals),
        [b'!', b'=', ..] => Some(Symbol::NotEquals),
        [b'<', b'=', ..] => Some(Symbol::LessOrEqual),
        [b'>', b'=', ..] => Some(Symbol::GreaterOrEqual),
        [b'/', b'/', ..] => Some(Symbol::DoubleSlash),
        [b'(', ..] => Some(Symbol::LeftParenthesis),
        [b')', ..] => Some(Symbol::RightParenthesis),
        [b'[', ..] => Some(Symbol::LeftBracket),
        [b']', ..] => Some(Symbol::RightBracket),
        [b',', ..] => Some(Symbol::Comma),
        [b'=', ..] => Some(Symbol::Assign),
        [b'<', ..] => Some(Symbol::LessThan),
        [b'>', ..] => Some(Symbol::GreaterThan),
        [b'+', ..] => Some(Symbol::Plus),
        [b'-', ..] => Some(Symbol::Minus),
        [b'*', ..] => Some(Symbol::Star),
        [b'%', ..] => Some(Symbol::Percent),
        _ => None,
    }
}

/// How many bytes a symbol has.
pub fn symbol_len(symbol: Symbol) -> usize
    ensures { result ≡ length (symbol_text symbol) }
{
    match symbol {
        Symbol::Equals
        | Symbol::NotEquals
        | Symbol::LessOrEqual
        | Symbol::GreaterOrEqual
        | Symbol::DoubleSlash => 2,
        _ => 1,
    }
}
