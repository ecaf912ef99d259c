use crate::token::Token;
use std::marker::Model;

/// The tokens of a line in order, which contracts see as a list.
#[derive(Drop)]
pub struct TokenList {
    items: Vec<Token>,
}

impl Model for TokenList {
    ghost use Rattle.std.specs.Prelude.{List};
    ghost use Rattle.model_text.specs.Tokens.{Token as PlainToken};

    ghost Value = { List PlainToken };

    ghost view = { λ list. list.items.items };
}

impl TokenList {
    ghost use Rattle.std.specs.Prelude.{◌≡◌};

    /// The tokens of a vector; nothing is copied.
    pub fn of(items: Vec<Token>) -> Self
        ensures { result ≡ items.items }
    {
        TokenList { items }
    }

    /// The tokens in order.
    pub fn items(&self) -> &[Token]
        ensures { result.now ≡ self.now }
    {
        self.items.as_slice()
    }
}
