//! Expressions and lines of scripts before any name is looked up, as code holds them, and the
//! lexemes that spell them.
#![tactic(auto)]

mod lexeme;
mod operand;
mod spelled;
mod term;

pub use aio_lex::Symbol;
pub use aio_syntax::Constant;
pub use lexeme::{Lexeme, lexemes};
pub use model_text::ReservedWord;
pub use model_tree::{Comparison, Operator};
pub use operand::{Join, Operand, all_that_fit, capped, denied, joined, negated};
pub use spelled::{Arguments, Goal, NumberedForm, Spelled};
pub use term::{Term, TermCase, TermList};
