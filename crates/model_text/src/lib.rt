//! Which texts spell which script: the tokens of a line, the forms of lines, what their names mean, the first fault, and
//! the canonical text. Definitions that other crates cite, and the enumerations that definitions and code share.
#![tactic(auto)]

mod cause;
mod literal;
mod reserved_word;
mod symbol;

pub use cause::Cause;
pub use literal::Literal;
pub use reserved_word::ReservedWord;
pub use symbol::Symbol;
