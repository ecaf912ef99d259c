//! The tokens of a line of a script, or the line's first fault.
#![tactic(auto)]

mod fault;
mod front;
mod lexer;
mod list;
mod literal;
mod number;
mod symbols;
mod token;
mod words;

pub use fault::LexFault;
pub use lexer::tokens;
pub use list::TokenList;
pub use literal::{closing, literal_bytes};
pub use model_text::Symbol;
pub use token::{Span, Token, TokenClass};
